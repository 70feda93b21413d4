//! The open sections, with what is known in them.
ghost use Rattle.std.specs.Prelude.{◌≡◌, ◌<◌, ◌++◌, ◌∷◌, [], length, map, IfOk, OnOk, IsErrAnd};
ghost use Rattle.cic_env.specs.Declarations.{declaration};
ghost use Rattle.cic_rules.specs.Environment.{declared_ids};
ghost use Rattle.section_terms.specs.Hypotheses.{ids_of};
ghost use Rattle.section_uses.specs.Kept.{hypothesis, layers_of};
ghost use Rattle.section_core.specs.Answers.{Declares, declarations_of};
ghost use Rattle.section_core.specs.calls.Stored.{kept_entry};
ghost use Rattle.section_core.specs.calls.Names.{allowed};
ghost use Rattle.section_core.specs.calls.Layers.{PutsAll};
ghost use Rattle.section_core.specs.calls.States.{IsAdded, IsUndeclared};

use crate::copying::copied;
use crate::entry::{Added, Entry, Kept};
use crate::fault::{AddFault, LeaveFault};
use crate::keeping::put_all;
use crate::naming::{first_id, hypothesis_ids, ids_declared};
use crate::open_section::OpenSection;
use crate::uses::{first_undeclared, uses_of};
use crate::using::Using;
use cic_env::Decl;
use cic_names::{GlobalId, Name};
use memory::NoMemory;
use section_uses::{Hypothesis, Lists};
use std::alloc::Global;
use std::rc::Rc;

/// The open sections, the outermost first; all their hypotheses in order; and what the constants of the sections are
/// generalised over, in one layer for each section.
#[derive(Drop)]
pub(crate) struct State {
    pub(crate) sections: Vec<OpenSection>,
    pub(crate) hypotheses: Vec<Hypothesis>,
    pub(crate) over: Lists,
}

/// Keeps what the constants of a declaration are generalised over.
fn put_over(
    alloc: Global,
    decl: &Decl,
    uses: &[Hypothesis],
    over: &mut Lists,
) -> Result<(), NoMemory>
    requires { 0 < length (layers_of over.old) }
    ensures { OnOk result (PutsAll (declared_ids (declaration decl.now)) (ids_of (map hypothesis uses.now)) (layers_of over.old) (layers_of over.new)) }
{
    let ids = ids_declared(alloc, decl)?;
    let names = hypothesis_ids(alloc, uses)?;
    let names = Rc::new(alloc, names)?;
    put_all(over, ids.as_slice(), &names)
}

/// The entry of a declaration.
fn entry_for(
    alloc: Global,
    decl: &Decl,
    usage: &Using,
    uses: Vec<Hypothesis>,
) -> Result<Entry, NoMemory>
    ensures { IfOk result (IsAdded (declaration decl.now) (allowed usage.now) (map hypothesis uses.items)) }
{
    let usage = usage.copy(alloc)?;
    let decl = copied(alloc, decl)?;
    Ok(Entry::Added(Added { decl, usage, uses }))
}

/// The refusal of a declaration whose body uses that hypothesis.
fn refuse(alloc: Global, decl: &Decl, variable: &GlobalId) -> Result<(), AddFault>
    requires { Declares (declaration decl.now) }
    ensures { IsErrAnd result (IsUndeclared (declaration decl.now) variable.now.name) }
{
    let proof = first_id(alloc, decl)?;
    let variable = variable.name.clone()?;
    Err(AddFault::UsesUndeclared { proof, variable })
}

/// The declarations that were kept.
fn declarations(alloc: Global, all: &[Kept]) -> Result<Vec<Decl>, NoMemory>
    ensures { IfOk result (λ decls. map declaration decls.items ≡ declarations_of (map kept_entry all.now)) }
{
    let mut decls = Vec::new(alloc);
    for kept in all {
        put_copy(alloc, &kept.decl, &mut decls)?;
    }
    Ok(decls)
}

/// Puts a copy of a declaration behind the others.
fn put_copy(alloc: Global, decl: &Decl, decls: &mut Vec<Decl>) -> Result<(), NoMemory>
    ensures { OnOk result (map declaration decls.new.items ≡ map declaration decls.old.items ++ declaration decl.now ∷ []) }
{
    decls.push(copied(alloc, decl)?)?;
    Ok(())
}

impl State {
    ghost use Rattle.std.specs.Prelude.{◌≡◌, ◌<◌, ◌≤◌, ◌∷◌, [], true, false, Some, None, option_map, length, map, drop, IfOk, IfErr, OnOk, vec_len};
    ghost use Rattle.cic_env.specs.Declarations.{declaration};
    ghost use Rattle.section_uses.specs.Kept.{hypothesis, list_of};
    ghost use Rattle.section_core.specs.Sections.{assumed, added, used_by, known, undeclared, into_innermost, innermost, kept_at_end, open_after_end};
    ghost use Rattle.section_core.specs.Answers.{Declares, IsNotAdded, IsNotLeft, AllFit, declarations_of, section_name};
    ghost use Rattle.section_core.specs.calls.Names.{allowed};
    ghost use Rattle.section_core.specs.calls.Stored.{kept_entry, EntriesDeclare};
    ghost use Rattle.section_core.specs.calls.States.{IsState, sections_of, Closes, StaysUnlessSpent, StaysUnlessDry};

    /// No section is open.
    pub(crate) fn new(alloc: Global) -> State
        ensures right { IsState result }
        ensures none { sections_of result ≡ [] }
    {
        State {
            sections: Vec::new(alloc),
            hypotheses: Vec::new(alloc),
            over: Lists::new(alloc),
        }
    }

    /// Closes all sections, if there was no memory.
    pub(crate) fn settle(&mut self, alloc: Global, spent: bool)
        requires { spent ≡ false → IsState self.old }
        ensures right { IsState self.new }
        ensures none { spent ≡ true → sections_of self.new ≡ [] }
        ensures same { spent ≡ false → self.new ≡ self.old }
    {
        if spent {
            *self = State::new(alloc);
        }
    }

    /// Opens a section.
    pub(crate) fn enter(&mut self, alloc: Global, name: Name) -> Result<(), NoMemory>
        requires { IsState self.old }
        ensures right { OnOk result (IsState self.new) }
        ensures entered { OnOk result (sections_of self.new ≡ record { name = name; entries = [] } ∷ sections_of self.old) }
    {
        self.over.enter(alloc)?;
        let start = self.hypotheses.len();
        let entries = Vec::new(alloc);
        self.sections.push(OpenSection {
            name,
            start,
            entries,
        })?;
        Ok(())
    }

    /// Puts a hypothesis into the innermost section.
    pub(crate) fn assume(&mut self, h: Hypothesis) -> Result<(), NoMemory>
        requires right { IsState self.old }
        requires some { 0 < vec_len self.old.sections }
        ensures right { OnOk result (IsState self.new) }
        ensures assumed { OnOk result (sections_of self.new ≡ into_innermost (sections_of self.old) (assumed (hypothesis h) ∷ [])) }
    {
        let Some(mut inner) = self.sections.pop() else {
            unreachable!()
        };
        let copy = h.copy()?;
        self.hypotheses.push(copy)?;
        inner.put(Entry::Assumed(h))?;
        self.sections.push(inner)?;
        Ok(())
    }

    /// Those of the hypotheses from a place on that a declaration uses.
    fn own_uses(
        &self,
        alloc: Global,
        decl: &Decl,
        usage: &Using,
        start: usize,
    ) -> Result<Vec<Hypothesis>, NoMemory>
        requires { start ≤ length self.now.hypotheses.items }
        ensures { IfOk result (λ uses. map hypothesis uses.items ≡ used_by (list_of self.now.over) (map hypothesis (drop start self.now.hypotheses.items)) (declaration decl.now) (allowed usage.now)) }
    {
        let own = &self.hypotheses.as_slice()[start..];
        uses_of(alloc, decl, usage, own, &self.over)
    }

    /// Puts a declaration, which uses these hypotheses, into the innermost section.
    pub(crate) fn put(
        &mut self,
        alloc: Global,
        decl: &Decl,
        usage: &Using,
        uses: &[Hypothesis],
    ) -> Result<(), NoMemory>
        requires right { IsState self.old }
        requires some { 0 < vec_len self.old.sections }
        requires declares { Declares (declaration decl.now) }
        requires uses { map hypothesis uses.now ≡ used_by (list_of self.old.over) (map hypothesis self.old.hypotheses.items) (declaration decl.now) (allowed usage.now) }
        ensures right { OnOk result (IsState self.new) }
        ensures added { OnOk result (sections_of self.new ≡ into_innermost (sections_of self.old) (added (declaration decl.now) (allowed usage.now) ∷ [])) }
    {
        let Some(mut inner) = self.sections.pop() else {
            unreachable!()
        };
        let own = self.own_uses(alloc, decl, usage, inner.start)?;
        let entry = entry_for(alloc, decl, usage, own)?;
        put_over(alloc, decl, uses, &mut self.over)?;
        inner.put(entry)?;
        self.sections.push(inner)?;
        Ok(())
    }

    /// Refuses a declaration, which uses these hypotheses, if its body uses others.
    fn judge_body(
        &self,
        alloc: Global,
        decl: &Decl,
        usage: &Using,
        uses: &[Hypothesis],
    ) -> Result<(), AddFault>
        requires right { IsState self.now }
        requires declares { Declares (declaration decl.now) }
        requires uses { map hypothesis uses.now ≡ used_by (list_of self.now.over) (map hypothesis self.now.hypotheses.items) (declaration decl.now) (allowed usage.now) }
        ensures allowed { OnOk result (undeclared (known (sections_of self.now)) (declaration decl.now) (allowed usage.now) ≡ None) }
        ensures err { IfErr result (IsNotAdded (sections_of self.now) (declaration decl.now) (allowed usage.now)) }
    {
        let hypotheses = self.hypotheses.as_slice();
        match first_undeclared(alloc, decl, uses, hypotheses, &self.over)? {
            None => Ok(()),
            Some(variable) => refuse(alloc, decl, &variable),
        }
    }

    /// The same, where a body that may use what it uses, or all, is not looked at.
    #[tactic(auto, using(crate::proofs::Allowing::free_allowed, crate::proofs::Allowing::every_allowed))]
    fn judge(
        &self,
        alloc: Global,
        decl: &Decl,
        usage: &Using,
        uses: &[Hypothesis],
    ) -> Result<(), AddFault>
        requires right { IsState self.now }
        requires declares { Declares (declaration decl.now) }
        requires uses { map hypothesis uses.now ≡ used_by (list_of self.now.over) (map hypothesis self.now.hypotheses.items) (declaration decl.now) (allowed usage.now) }
        ensures allowed { OnOk result (undeclared (known (sections_of self.now)) (declaration decl.now) (allowed usage.now) ≡ None) }
        ensures err { IfErr result (IsNotAdded (sections_of self.now) (declaration decl.now) (allowed usage.now)) }
    {
        match usage {
            Using::Free | Using::Every => Ok(()),
            Using::Statement | Using::Listed(_) => self.judge_body(alloc, decl, usage, uses),
        }
    }

    /// Puts a declaration into the innermost section, unless its body uses hypotheses that it may not use.
    pub(crate) fn add(&mut self, alloc: Global, decl: &Decl, usage: &Using) -> Result<(), AddFault>
        requires right { IsState self.old }
        requires some { 0 < vec_len self.old.sections }
        requires declares { Declares (declaration decl.now) }
        ensures right { OnOk result (IsState self.new) }
        ensures added { OnOk result (sections_of self.new ≡ into_innermost (sections_of self.old) (added (declaration decl.now) (allowed usage.now) ∷ [])) }
        ensures allowed { OnOk result (undeclared (known (sections_of self.old)) (declaration decl.now) (allowed usage.now) ≡ None) }
        ensures err { IfErr result (IsNotAdded (sections_of self.old) (declaration decl.now) (allowed usage.now)) }
        ensures same { IfErr result (λ fault. StaysUnlessSpent fault self.old self.new) }
    {
        let uses = uses_of(alloc, decl, usage, self.hypotheses.as_slice(), &self.over)?;
        self.judge(alloc, decl, usage, uses.as_slice())?;
        self.put(alloc, decl, usage, uses.as_slice())?;
        Ok(())
    }

    /// Puts what was kept of a section into the innermost one.
    fn put_kept(&mut self, alloc: Global, kept: &Kept) -> Result<(), NoMemory>
        requires right { IsState self.old }
        requires some { 0 < vec_len self.old.sections }
        requires declares { Declares (declaration kept.now.decl) }
        ensures right { OnOk result (IsState self.new) }
        ensures added { OnOk result (sections_of self.new ≡ into_innermost (sections_of self.old) (kept_entry kept.now ∷ [])) }
    {
        let hypotheses = self.hypotheses.as_slice();
        let uses = uses_of(alloc, &kept.decl, &kept.usage, hypotheses, &self.over)?;
        self.put(alloc, &kept.decl, &kept.usage, uses.as_slice())
    }

    /// Closes the innermost section.
    fn close(&mut self)
        requires right { IsState self.old }
        requires some { 0 < vec_len self.old.sections }
        ensures right { IsState self.new }
        ensures closed { Closes (sections_of self.old) (sections_of self.new) }
    {
        let Some(inner) = self.sections.pop() else {
            unreachable!()
        };
        self.hypotheses.truncate(inner.start);
        self.over.leave();
    }

    /// Puts what was kept of a section into the innermost one, in order.
    fn put_all(&mut self, alloc: Global, all: &[Kept]) -> Result<(), NoMemory>
        requires right { IsState self.old }
        requires some { 0 < vec_len self.old.sections }
        requires declare { EntriesDeclare (map kept_entry all.now) }
        ensures right { OnOk result (IsState self.new) }
        ensures put { OnOk result (sections_of self.new ≡ into_innermost (sections_of self.old) (map kept_entry all.now)) }
    {
        for kept in all {
            self.put_kept(alloc, kept)?;
        }
        Ok(())
    }

    /// Ends the innermost section, of which this is kept.
    fn end(&mut self, alloc: Global, all: &[Kept]) -> Result<(), NoMemory>
        requires right { IsState self.old }
        requires some { 0 < vec_len self.old.sections }
        requires kept { map kept_entry all.now ≡ kept_at_end (sections_of self.old) }
        ensures right { OnOk result (IsState self.new) }
        ensures ended { OnOk result (sections_of self.new ≡ open_after_end (sections_of self.old)) }
    {
        self.close();
        if self.sections.is_empty() {
            return Ok(());
        }
        self.put_all(alloc, all)
    }

    /// What is kept of the innermost section, if it has that name.
    fn kept(&self, alloc: Global, name: &Name) -> Result<Vec<Kept>, LeaveFault>
        requires right { IsState self.now }
        requires some { 0 < vec_len self.now.sections }
        ensures name { OnOk result (option_map section_name (innermost (sections_of self.now)) ≡ Some name.now) }
        ensures kept { IfOk result (λ all. map kept_entry all.items ≡ kept_at_end (sections_of self.now)) }
        ensures fits { OnOk result (AllFit (declarations_of (kept_at_end (sections_of self.now)))) }
        ensures err { IfErr result (IsNotLeft (sections_of self.now) name.now) }
    {
        let inner = &self.sections[self.sections.len() - 1];
        inner.kept(alloc, name)
    }

    /// Ends the innermost section, if it has that name, and gives what is kept of it.
    pub(crate) fn leave(&mut self, alloc: Global, name: &Name) -> Result<Vec<Decl>, LeaveFault>
        requires right { IsState self.old }
        requires some { 0 < vec_len self.old.sections }
        ensures right { OnOk result (IsState self.new) }
        ensures ended { OnOk result (sections_of self.new ≡ open_after_end (sections_of self.old)) }
        ensures name { OnOk result (option_map section_name (innermost (sections_of self.old)) ≡ Some name.now) }
        ensures kept { IfOk result (λ decls. map declaration decls.items ≡ declarations_of (kept_at_end (sections_of self.old))) }
        ensures fits { OnOk result (AllFit (declarations_of (kept_at_end (sections_of self.old)))) }
        ensures err { IfErr result (IsNotLeft (sections_of self.old) name.now) }
        ensures same { IfErr result (λ fault. StaysUnlessDry fault self.old self.new) }
    {
        let all = self.kept(alloc, name)?;
        self.end(alloc, all.as_slice())?;
        Ok(declarations(alloc, all.as_slice())?)
    }
}
