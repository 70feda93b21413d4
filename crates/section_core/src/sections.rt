//! Open sections.
ghost use Rattle.std.specs.Prelude.{◌≡◌, Some, None, IfOk};
ghost use Rattle.cic_terms.specs.Denotes.{tree};
ghost use Rattle.section_uses.specs.Kept.{hypothesis};
ghost use Rattle.section_core.specs.calls.States.{add_spent, leave_spent};

use crate::fault::{AddFault, LeaveFault};
use crate::state::State;
use crate::using::Using;
use cic_env::Decl;
use cic_names::{GlobalId, Name};
use cic_terms::Term;
use memory::NoMemory;
use section_uses::Hypothesis;
use std::alloc::Global;
use std::marker::Model;
use std::rc::Rc;

/// Open sections, with what stands in them. Where there was no memory for a call, no section is open after it. Coq
/// Reference Manual, "Section mechanism".
#[derive(Drop)]
pub struct Sections {
    alloc: Global,
    state: State,
}

impl Model for Sections {
    ghost use Rattle.std.specs.Prelude.{List};
    ghost use Rattle.section_core.specs.Sections.{Section};

    ghost Value = { List Section };

    ghost use Rattle.std.specs.Coded.{codes};
    ghost use Rattle.section_core.specs.calls.Codes.{tree_code};

    ghost coded = { Prim.hlevel (codes, tree_code) };

    ghost use Rattle.section_core.specs.calls.States.{sections_of, IsState};

    ghost view = { λ s. sections_of s.state };

    ghost invariant = { λ s. IsState s.state };
}

/// A variable, which a term speaks of as of a constant.
fn variable(alloc: Global, id: GlobalId, ty: Term) -> Result<Hypothesis, NoMemory>
    ensures { IfOk result (λ h. hypothesis h ≡ record { id = id; type = tree ty; body = None }) }
{
    let ty = Rc::new(alloc, ty)?;
    Ok(Hypothesis { id, ty, body: None })
}

/// A let.
fn binding(alloc: Global, id: GlobalId, ty: Term, body: Term) -> Result<Hypothesis, NoMemory>
    ensures { IfOk result (λ h. hypothesis h ≡ record { id = id; type = tree ty; body = Some (tree body) }) }
{
    let ty = Rc::new(alloc, ty)?;
    let body = Some(Rc::new(alloc, body)?);
    Ok(Hypothesis { id, ty, body })
}

/// Whether there was no memory.
fn add_spent(put: &Result<(), AddFault>) -> bool
    ensures { result ≡ add_spent put.now }
{
    match put {
        Ok(_) | Err(AddFault::UsesUndeclared { .. }) => false,
        Err(AddFault::NoMemory) => true,
    }
}

/// Whether there was no memory.
fn leave_spent(left: &Result<Vec<Decl>, LeaveFault>) -> bool
    ensures { result ≡ leave_spent left.now }
{
    match left {
        Ok(_) | Err(LeaveFault::WrongEnd { .. } | LeaveFault::Deep { .. }) => false,
        Err(LeaveFault::NoMemory) => true,
    }
}

impl Sections {
    ghost use Rattle.std.specs.Prelude.{◌≡◌, ◌∷◌, [], Some, None, option_map, map, IfOk, IfErr, IsErrAnd, OnOk, OnErr};
    ghost use Rattle.cic_env.specs.Declarations.{declaration};
    ghost use Rattle.cic_terms.specs.Denotes.{tree};
    ghost use Rattle.section_uses.specs.Kept.{hypothesis};
    ghost use Rattle.section_core.specs.Sections.{assumed, added, known, undeclared, into_innermost, innermost, kept_at_end, open_after_end};
    ghost use Rattle.section_core.specs.Answers.{Declares, AllFit, declarations_of, section_name, IsNotAdded, IsLeftByAdd, IsNotLeft, IsLeftByLeave};
    ghost use Rattle.section_core.specs.calls.Names.{allowed};

    /// No section is open.
    pub fn new(alloc: Global) -> Sections
        ensures { result ≡ [] }
    {
        Sections {
            alloc,
            state: State::new(alloc),
        }
    }

    /// `Section name.`
    pub fn enter(&mut self, name: Name) -> Result<(), NoMemory>
        ensures entered { OnOk result (self.new ≡ record { name = name; entries = [] } ∷ self.old) }
        ensures none { OnErr result (self.new ≡ []) }
    {
        let entered = self.state.enter(self.alloc, name);
        self.state.settle(self.alloc, entered.is_err());
        entered
    }

    /// Puts a hypothesis into the innermost section.
    fn put(&mut self, h: Hypothesis) -> Result<(), NoMemory>
        requires { ¬ (self.old ≡ []) }
        ensures assumed { OnOk result (self.new ≡ into_innermost self.old (assumed (hypothesis h) ∷ [])) }
        ensures none { OnErr result (self.new ≡ []) }
    {
        let put = self.state.assume(h);
        self.state.settle(self.alloc, put.is_err());
        put
    }

    /// `Variable id : ty.` in the innermost section.
    pub fn assume(&mut self, id: GlobalId, ty: Term) -> Result<(), NoMemory>
        requires { ¬ (self.old ≡ []) }
        ensures assumed { OnOk result (self.new ≡ into_innermost self.old (assumed (record { id = id; type = tree ty; body = None }) ∷ [])) }
        ensures none { OnErr result (self.new ≡ []) }
    {
        match variable(self.alloc, id, ty) {
            Ok(h) => self.put(h),
            Err(fault) => self.clear(fault),
        }
    }

    /// `Let id : ty := body.` in the innermost section.
    pub fn bind(&mut self, id: GlobalId, ty: Term, body: Term) -> Result<(), NoMemory>
        requires { ¬ (self.old ≡ []) }
        ensures assumed { OnOk result (self.new ≡ into_innermost self.old (assumed (record { id = id; type = tree ty; body = Some (tree body) }) ∷ [])) }
        ensures none { OnErr result (self.new ≡ []) }
    {
        match binding(self.alloc, id, ty, body) {
            Ok(h) => self.put(h),
            Err(fault) => self.clear(fault),
        }
    }

    /// Closes all sections, since there was no memory.
    fn clear(&mut self, fault: NoMemory) -> Result<(), NoMemory>
        ensures { IsErrAnd result (λ _. self.new ≡ []) }
    {
        self.state = State::new(self.alloc);
        Err(fault)
    }

    /// Puts a declaration into the innermost section. It is refused where its body uses a hypothesis that it may not use.
    pub fn add(&mut self, decl: &Decl, usage: &Using) -> Result<(), AddFault>
        requires some { ¬ (self.old ≡ []) }
        requires declares { Declares (declaration decl.now) }
        ensures added { OnOk result (self.new ≡ into_innermost self.old (added (declaration decl.now) (allowed usage.now) ∷ [])) }
        ensures allowed { OnOk result (undeclared (known self.old) (declaration decl.now) (allowed usage.now) ≡ None) }
        ensures refused { IfErr result (IsNotAdded self.old (declaration decl.now) (allowed usage.now)) }
        ensures stays { IfErr result (λ fault. IsLeftByAdd fault self.old self.new) }
    {
        let put = self.state.add(self.alloc, decl, usage);
        let spent = add_spent(&put);
        self.state.settle(self.alloc, spent);
        put
    }

    /// `End name.` What is kept of the innermost section is given, and put into the section around it, where there is
    /// one. It is refused where the innermost section has another name, or where what would be kept passes the limits.
    pub fn leave(&mut self, name: &Name) -> Result<Vec<Decl>, LeaveFault>
        requires { ¬ (self.old ≡ []) }
        ensures kept { IfOk result (λ decls. map declaration decls.items ≡ declarations_of (kept_at_end self.old)) }
        ensures left { OnOk result (self.new ≡ open_after_end self.old) }
        ensures name { OnOk result (option_map section_name (innermost self.old) ≡ Some name.now) }
        ensures fit { OnOk result (AllFit (declarations_of (kept_at_end self.old))) }
        ensures refused { IfErr result (IsNotLeft self.old name.now) }
        ensures stays { IfErr result (λ fault. IsLeftByLeave fault self.old self.new) }
    {
        let left = self.state.leave(self.alloc, name);
        let spent = leave_spent(&left);
        self.state.settle(self.alloc, spent);
        left
    }
}
