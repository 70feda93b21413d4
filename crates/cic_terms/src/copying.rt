//! Copies, which share every part.
ghost use Rattle.std.specs.Prelude.{◌≡◌, IfOk};
ghost use Rattle.cic_terms.specs.Denotes.{tree};

use crate::term::Term;
use cic_names::NoMemory;
use std::alloc::AllocError;
use std::rc::Rc;

pub(crate) fn share<T: Drop>(part: &Rc<T>) -> Result<Rc<T>, NoMemory>
    ensures { IfOk result (λ r. r.value ≡ part.now.value) }
{
    Ok(part.clone()?)
}

/// The same term, which shares its parts. It walks no part and allocates nothing.
impl Clone for Term {
    ghost is_clone = { λ t r. tree r ≡ tree t };

    fn clone(&self) -> Result<Term, AllocError> {
        match self {
            Term::Rel(n) => Ok(Term::Rel(*n)),
            Term::Sort(s) => Ok(Term::Sort(s.clone()?)),
            Term::Const(id) => Ok(Term::Const(id.clone()?)),
            Term::Ind(id) => Ok(Term::Ind(id.clone()?)),
            Term::Ctor(id) => Ok(Term::Ctor(id.clone()?)),
            Term::Prod(a, b) => Ok(Term::Prod(a.clone()?, b.clone()?)),
            Term::Lam(a, b) => Ok(Term::Lam(a.clone()?, b.clone()?)),
            Term::App(f, x) => Ok(Term::App(f.clone()?, x.clone()?)),
            Term::Let { body, ty, rest } => Ok(Term::Let {
                body: body.clone()?,
                ty: ty.clone()?,
                rest: rest.clone()?,
            }),
            Term::Case {
                arity,
                ind,
                motive,
                scrutinee,
                branches,
            } => Ok(Term::Case {
                arity: *arity,
                ind: ind.clone()?,
                motive: motive.clone()?,
                scrutinee: scrutinee.clone()?,
                branches: branches.clone()?,
            }),
            Term::Fix { which, bodies } => Ok(Term::Fix {
                which: *which,
                bodies: bodies.clone()?,
            }),
        }
    }
}
