//! Terms and declarations of the library A, where there is memory for them.

use cic_env::{Block, CtorDecl, Decl, IndType};
use cic_names::{Atom, Expr, GlobalId, Level, LevelName, Name, NoMemory, Part, Sort};
use cic_terms::{Branch, Branches, FixBodies, FixBody, Term, Terms};
use std::alloc::Global;
use std::rc::Rc;

pub type Made = Result<Rc<Term>, NoMemory>;

/// What makes terms and declarations.
#[derive(Clone, Copy)]
pub struct Maker {
    pub alloc: Global,
}

/// Two things in order.
pub fn two<T: Drop>(
    alloc: Global,
    first: Result<T, NoMemory>,
    second: Result<T, NoMemory>,
) -> Result<Vec<T>, NoMemory> {
    let mut all = Vec::new(alloc);
    push(&mut all, first)?;
    push(&mut all, second)?;
    Ok(all)
}

/// One thing.
pub fn one<T: Drop>(alloc: Global, only: Result<T, NoMemory>) -> Result<Vec<T>, NoMemory> {
    let mut all = Vec::new(alloc);
    push(&mut all, only)?;
    Ok(all)
}

fn push<T: Drop>(all: &mut Vec<T>, item: Result<T, NoMemory>) -> Result<(), NoMemory> {
    all.push(item?)?;
    Ok(())
}

fn name(alloc: Global, text: &str) -> Result<Name, NoMemory> {
    match Name::new(alloc, text.as_bytes()) {
        Ok(name) => Ok(name),
        Err(_) => Err(NoMemory),
    }
}

fn level(alloc: Global, text: &str) -> Result<Level, NoMemory> {
    Ok(Level::Named(LevelName {
        lib: name(alloc, "A")?,
        owner: name(alloc, text)?,
        part: Part::Declared,
    }))
}

fn universe(alloc: Global, text: &str) -> Result<Sort, NoMemory> {
    let atom = Atom {
        level: level(alloc, text)?,
        plus: false,
    };
    let mut atoms = Vec::new(alloc);
    atoms.push(atom)?;
    Ok(Sort::Typ(Expr::new(alloc, atoms)?))
}

/// The same term, which shares its parts.
fn copied(t: &Term) -> Result<Term, NoMemory> {
    Ok(t.clone()?)
}

impl Maker {
    fn shared(self, t: Term) -> Made {
        Ok(Rc::new(self.alloc, t)?)
    }

    /// The id of a name.
    pub fn id(self, text: &str) -> Result<GlobalId, NoMemory> {
        let lib = name(self.alloc, "A")?;
        let name = name(self.alloc, text)?;
        Ok(GlobalId { lib, name })
    }

    pub fn prop(self) -> Made {
        self.shared(Term::Sort(Sort::Prop))
    }

    pub fn set(self) -> Made {
        self.shared(Term::Sort(Sort::Set))
    }

    /// Type at the level of that name.
    pub fn universe(self, text: &str) -> Made {
        let sort = universe(self.alloc, text)?;
        self.shared(Term::Sort(sort))
    }

    pub fn variable(self, n: u32) -> Made {
        self.shared(Term::Rel(n))
    }

    pub fn constant(self, text: &str) -> Made {
        let id = self.id(text)?;
        self.shared(Term::Const(id))
    }

    pub fn ind(self, text: &str) -> Made {
        let id = self.id(text)?;
        self.shared(Term::Ind(id))
    }

    pub fn ctor(self, text: &str) -> Made {
        let id = self.id(text)?;
        self.shared(Term::Ctor(id))
    }

    pub fn product(self, domain: Made, codomain: Made) -> Made {
        match (domain, codomain) {
            (Ok(domain), Ok(codomain)) => self.shared(Term::Prod(domain, codomain)),
            _ => Err(NoMemory),
        }
    }

    pub fn lambda(self, domain: Made, body: Made) -> Made {
        match (domain, body) {
            (Ok(domain), Ok(body)) => self.shared(Term::Lam(domain, body)),
            _ => Err(NoMemory),
        }
    }

    pub fn apply(self, function: Made, argument: Made) -> Made {
        match (function, argument) {
            (Ok(function), Ok(argument)) => self.shared(Term::App(function, argument)),
            _ => Err(NoMemory),
        }
    }

    pub fn apply_two(self, function: Made, first: Made, second: Made) -> Made {
        self.apply(self.apply(function, first), second)
    }

    /// A branch under so many arguments.
    pub fn branch(self, binders: u32, body: Made) -> Result<Branch, NoMemory> {
        let body = body?;
        Ok(Branch {
            binders,
            body: copied(&body)?,
        })
    }

    /// A match on a type without indices, into a type that does not depend on the value.
    pub fn matching(
        self,
        ind: &str,
        motive: Made,
        scrutinee: Made,
        branches: Result<Vec<Branch>, NoMemory>,
    ) -> Made {
        match (motive, scrutinee) {
            (Ok(motive), Ok(scrutinee)) => self.case(ind, motive, scrutinee, branches?),
            _ => Err(NoMemory),
        }
    }

    fn case(self, ind: &str, motive: Rc<Term>, scrutinee: Rc<Term>, branches: Vec<Branch>) -> Made {
        let ind = self.id(ind)?;
        let branches = Rc::new(self.alloc, Branches::from_vec(branches))?;
        self.shared(Term::Case {
            arity: 0,
            ind,
            motive,
            scrutinee,
            branches,
        })
    }

    fn function_of(
        self,
        domains: Vec<Term>,
        codomain: &Term,
        body: &Term,
    ) -> Result<FixBody, NoMemory> {
        let domains = Terms::from_vec(domains);
        let codomain = copied(codomain)?;
        let body = copied(body)?;
        Ok(FixBody {
            k: 0,
            domains,
            codomain,
            body,
        })
    }

    /// A function by recursion on the first of its arguments.
    pub fn function(
        self,
        domains: Result<Vec<Term>, NoMemory>,
        codomain: Made,
        body: Made,
    ) -> Result<FixBody, NoMemory> {
        let codomain = codomain?;
        let body = body?;
        self.function_of(domains?, &codomain, &body)
    }

    /// The first function of a fix.
    pub fn fix(self, functions: Result<Vec<FixBody>, NoMemory>) -> Made {
        let bodies = FixBodies::from_vec(functions?);
        let bodies = Rc::new(self.alloc, bodies)?;
        self.shared(Term::Fix { which: 0, bodies })
    }

    /// A domain of a function.
    pub fn domain(self, ty: Made) -> Result<Term, NoMemory> {
        let ty = ty?;
        copied(&ty)
    }

    pub fn axiom(self, text: &str, ty: Made) -> Result<Decl, NoMemory> {
        let ty = ty?;
        let id = self.id(text)?;
        Ok(Decl::Axiom {
            id,
            ty: copied(&ty)?,
        })
    }

    pub fn definition(self, text: &str, ty: Made, body: Made) -> Result<Decl, NoMemory> {
        let ty = ty?;
        let body = body?;
        self.transparent(text, &ty, &body)
    }

    fn transparent(self, text: &str, ty: &Term, body: &Term) -> Result<Decl, NoMemory> {
        let id = self.id(text)?;
        let ty = copied(ty)?;
        let body = copied(body)?;
        Ok(Decl::Transparent { id, ty, body })
    }

    pub fn theorem(self, text: &str, ty: Made, body: Made) -> Result<Decl, NoMemory> {
        let ty = ty?;
        let body = body?;
        self.opaque(text, &ty, &body)
    }

    fn opaque(self, text: &str, ty: &Term, body: &Term) -> Result<Decl, NoMemory> {
        let id = self.id(text)?;
        let ty = copied(ty)?;
        let body = copied(body)?;
        Ok(Decl::Opaque {
            id,
            ty,
            body: Some(body),
        })
    }

    pub fn constructor(self, text: &str, ty: Made) -> Result<CtorDecl, NoMemory> {
        let ty = ty?;
        let id = self.id(text)?;
        Ok(CtorDecl {
            id,
            ty: copied(&ty)?,
        })
    }

    /// A type with its constructors.
    fn type_of(self, text: &str, arity: &Term, ctors: Vec<CtorDecl>) -> Result<IndType, NoMemory> {
        let id = self.id(text)?;
        let arity = copied(arity)?;
        Ok(IndType { id, arity, ctors })
    }

    /// A block of one type.
    pub fn inductive(
        self,
        params: u32,
        text: &str,
        arity: Made,
        ctors: Result<Vec<CtorDecl>, NoMemory>,
    ) -> Result<Decl, NoMemory> {
        let arity = arity?;
        let only = self.type_of(text, &arity, ctors?);
        let types = one(self.alloc, only)?;
        Ok(Decl::Inductive(Block { params, types }))
    }
}
