//! What constants stand for while hypotheses are passed from the first to the last.
ghost use Rattle.std.specs.Prelude.{◌≡◌, ◌≤◌, ◌<◌, ◌+◌, Some, false, length, map, IfOk, IfErr, OnOk, OnErr, Err};
ghost use Rattle.std.specs.Option.{option_copied};
ghost use Rattle.std.specs.Map.{lookup};
ghost use Rattle.cic_names.specs.Sameness.{same_id};
ghost use Rattle.cic_terms.specs.Denotes.{tree};
ghost use Rattle.cic_terms.specs.Lift.{lift_tree};
ghost use Rattle.cic_terms.specs.Sizes.{Fits};
ghost use Rattle.cic_terms.specs.Tree.{const, rel, app};
ghost use Rattle.cic_terms.specs.calls.Answer.{after, MakesShared};
ghost use Rattle.cic_terms.specs.declared.term.TermFault.TheVariants.{Deep as TooDeep};
ghost use Rattle.cic_rules.specs.Telescopes.{apply};
ghost use Rattle.section_uses.specs.Kept.{shared_tree};
ghost use Rattle.section_walks.specs.calls.Functions.{IsName};

use cic_names::GlobalId;
use cic_terms::{MOST_LEVELS, MOST_REL, Term, TermFault, lift_part};
use indexmap::IndexMap;
use section_uses::{Hypothesis, Lists};
use section_walks::{Becoming, replace_names};
use std::alloc::Global;
use std::rc::Rc;

/// What a hypothesis stands for: the variable of the binder at a level, counted from 1 at the outermost, or a body
/// under the binders of a level, or one that passes the limits of a term.
#[derive(Drop)]
pub(crate) enum Standing {
    Variable { level: u32 },
    Body { level: u32, body: Rc<Term> },
    Deep,
}

/// What the constants stand for under the binders of the first `count` hypotheses. `keeps` says whether a let is bound;
/// where it is not, its body takes its place.
#[derive(Drop)]
pub(crate) struct Table<'a> {
    pub(crate) alloc: Global,
    pub(crate) all: &'a [Hypothesis],
    pub(crate) arguments: &'a Lists,
    pub(crate) keeps: bool,
    pub(crate) count: usize,
    pub(crate) binders: u32,
    pub(crate) standing: IndexMap<GlobalId, Standing>,
}

/// The term lifted past the binders, of which there may be more than a Rel counts.
fn raised(alloc: Global, t: &Rc<Term>, at: u128, room: u32) -> Result<Rc<Term>, TermFault>
    ensures { MakesShared room (lift_tree 0 at (shared_tree t.now)) result }
{
    let most = u128::from(MOST_REL) + 1;
    if at < most {
        return lift_part(alloc, t, 0, at as u32, room);
    }
    lift_part(alloc, t, 0, MOST_REL + 1, room)
}

fn variable(alloc: Global, n: u32) -> Result<Rc<Term>, TermFault>
    ensures ok { IfOk result (λ r. shared_tree r ≡ rel n) }
    ensures err { OnErr result (result ≡ Err TermFault.NoMemory) }
{
    Ok(Rc::new(alloc, Term::Rel(n))?)
}

fn constant(alloc: Global, id: &GlobalId) -> Result<Rc<Term>, TermFault>
    ensures ok { IfOk result (λ r. shared_tree r ≡ const id.now) }
    ensures err { OnErr result (result ≡ Err TermFault.NoMemory) }
{
    Ok(Rc::new(alloc, Term::Const(id.clone()?))?)
}

fn apply_one(alloc: Global, function: Rc<Term>, argument: Rc<Term>) -> Result<Rc<Term>, TermFault>
    ensures ok { IfOk result (λ r. shared_tree r ≡ app (shared_tree function) (shared_tree argument)) }
    ensures err { OnErr result (result ≡ Err TermFault.NoMemory) }
{
    Ok(Rc::new(alloc, Term::App(function, argument))?)
}

/// The head, or the name itself where there is none.
fn chosen(alloc: Global, name: &Term, head: Option<Rc<Term>>) -> Result<Rc<Term>, TermFault>
    ensures ok { IfOk result (λ r. shared_tree r ≡ after (tree name.now) head) }
    ensures err { OnErr result (result ≡ Err TermFault.NoMemory) }
{
    match head {
        Some(head) => Ok(head),
        None => Ok(Rc::new(alloc, name.clone()?)?),
    }
}

impl Table<'_> {
    ghost use Rattle.section_discharge.specs.calls.Tables.{IsTable, IsRight, Gives, state_of, arguments_of, head_becomes, ids_for, name_becomes};

    fn standing(&self, id: &GlobalId) -> Option<&Standing>
        ensures { option_copied result ≡ lookup (same_id id.now) self.now.standing.entries }
    {
        self.standing.get(id)
    }

    /// The term for which an entry stands.
    fn term_of(&self, id: &GlobalId, standing: &Standing) -> Result<Rc<Term>, TermFault>
        requires { IsRight self.now.binders id.now (Some standing.now) ((state_of self.now).stands id.now) }
        ensures ok { IfOk result (λ r. shared_tree r ≡ (state_of self.now).stands id.now) }
        ensures deep { IfErr result (λ fault. fault ≡ TooDeep → ¬ Fits 4000 ((state_of self.now).stands id.now)) }
    {
        match standing {
            Standing::Variable { level } => variable(self.alloc, self.binders - *level),
            Standing::Body { level, body } => {
                lift_part(self.alloc, body, 0, self.binders - *level, MOST_LEVELS)
            }
            Standing::Deep => Err(TermFault::Deep),
        }
    }

    /// What an id stands for, or nothing where that is the constant itself.
    fn look(&self, id: &GlobalId) -> Result<Option<Rc<Term>>, TermFault>
        requires { IsTable self.now }
        ensures { Gives (const id.now) ((state_of self.now).stands id.now) result }
    {
        match self.standing(id) {
            None => Ok(None),
            Some(standing) => Ok(Some(self.term_of(id, standing)?)),
        }
    }

    /// What an id stands for.
    fn argument(&self, id: &GlobalId) -> Result<Rc<Term>, TermFault>
        requires { IsTable self.now }
        ensures ok { IfOk result (λ r. shared_tree r ≡ (state_of self.now).stands id.now) }
        ensures deep { IfErr result (λ fault. fault ≡ TooDeep → ¬ Fits 4000 ((state_of self.now).stands id.now)) }
    {
        match self.look(id)? {
            Some(t) => Ok(t),
            None => constant(self.alloc, id),
        }
    }

    /// The head applied to what the ids stand for. Its depth is not judged.
    fn applied(&self, head: Rc<Term>, ids: &[GlobalId]) -> Result<Rc<Term>, TermFault>
        requires { IsTable self.now }
        ensures ok { IfOk result (λ r. shared_tree r ≡ apply (shared_tree head) (map (state_of self.now).stands ids.now)) }
        ensures deep { IfErr result (λ fault. fault ≡ TooDeep → ¬ Fits 4000 (apply (shared_tree head) (map (state_of self.now).stands ids.now))) }
    {
        let mut made = head;
        for id in ids {
            let argument = self.argument(id)?;
            made = apply_one(self.alloc, made, argument)?;
        }
        Ok(made)
    }

    /// What a name alone stands for.
    fn head(&self, name: &Term) -> Result<Option<Rc<Term>>, TermFault>
        requires table { IsTable self.now }
        requires name { IsName (tree name.now) }
        ensures { Gives (tree name.now) (head_becomes (state_of self.now).stands (tree name.now)) result }
    {
        match name {
            Term::Const(id) => self.look(id),
            Term::Ind(_) | Term::Ctor(_) => Ok(None),
            _ => unreachable!(),
        }
    }

    /// The names that a name is applied to.
    fn ids_for(&self, name: &Term) -> &[GlobalId]
        requires { IsName (tree name.now) }
        ensures { result.now ≡ ids_for (arguments_of self.now) (tree name.now) }
    {
        match name {
            Term::Const(id) | Term::Ind(id) | Term::Ctor(id) => self.arguments.of(id),
            _ => unreachable!(),
        }
    }

    /// What a name stands for, or nothing where that is the name itself. Its depth is not judged.
    fn name_becomes(&self, name: &Term) -> Result<Option<Rc<Term>>, TermFault>
        requires table { IsTable self.now }
        requires name { IsName (tree name.now) }
        ensures { Gives (tree name.now) (name_becomes self.now (tree name.now)) result }
    {
        let ids = self.ids_for(name);
        let head = self.head(name)?;
        if ids.is_empty() {
            return Ok(head);
        }
        let head = chosen(self.alloc, name, head)?;
        Ok(Some(self.applied(head, ids)?))
    }
}

/// The same id, which shares its names.
fn copied(id: &GlobalId) -> Result<GlobalId, TermFault>
    ensures ok { IfOk result (λ r. r ≡ id.now) }
    ensures err { OnErr result (result ≡ Err TermFault.NoMemory) }
{
    Ok(id.clone()?)
}

impl<'a> Table<'a> {
    ghost use Rattle.section_discharge.specs.calls.Tables.{IsTable, IsNew, IsNext, IsBound, Passes, StandsFor, arguments_of, state_of};
    ghost use Rattle.section_terms.specs.calls.Standing.{put};
    ghost use Rattle.section_uses.specs.Kept.{hypothesis};

    /// Nothing was passed yet.
    pub(crate) fn new(
        alloc: Global,
        all: &'a [Hypothesis],
        arguments: &'a Lists,
        keeps: bool,
    ) -> Table<'a>
        ensures table { IsTable result }
        ensures fresh { IsNew all.now arguments.now keeps result }
    {
        Table {
            alloc,
            all,
            arguments,
            keeps,
            count: 0,
            binders: 0,
            standing: IndexMap::new(alloc),
        }
    }

    /// Passes the next hypothesis, which is bound.
    pub(crate) fn pass_bound(&mut self, h: &Hypothesis) -> Result<(), TermFault>
        requires table { IsTable self.old }
        requires next { IsNext self.old h.now }
        requires bound { IsBound self.old.keeps (hypothesis h.now) }
        requires room { self.old.binders < 4000 }
        ensures ok { OnOk result (Passes self.old self.new) }
        ensures binders { OnOk result (self.new.binders ≡ self.old.binders + 1) }
        ensures err { OnErr result (result ≡ Err TermFault.NoMemory) }
    {
        let key = copied(&h.id)?;
        let level = self.binders + 1;
        self.standing.insert(key, Standing::Variable { level })?;
        self.binders = level;
        self.count += 1;
        Ok(())
    }

    /// What the body of a let stands for.
    fn standing_body(&self, body: &Rc<Term>) -> Result<Standing, TermFault>
        requires { IsTable self.now }
        ensures ok { IfOk result (λ s. StandsFor self.now.binders s (put (arguments_of self.now) (state_of self.now) 0 (shared_tree body.now))) }
        ensures err { OnErr result (result ≡ Err TermFault.NoMemory) }
    {
        match replace_names(self.alloc, body, self, MOST_LEVELS) {
            Ok(body) => Ok(Standing::Body {
                level: self.binders,
                body,
            }),
            Err(TermFault::Deep) => Ok(Standing::Deep),
            Err(TermFault::NoMemory) => Err(TermFault::NoMemory),
        }
    }

    /// Passes the next hypothesis, a let whose body takes its place.
    pub(crate) fn pass_body(&mut self, h: &Hypothesis, body: &Rc<Term>) -> Result<(), TermFault>
        requires table { IsTable self.old }
        requires next { IsNext self.old h.now }
        requires gives_way { self.old.keeps ≡ false }
        requires body { (hypothesis h.now).body ≡ Some (shared_tree body.now) }
        ensures ok { OnOk result (Passes self.old self.new) }
        ensures binders { OnOk result (self.new.binders ≡ self.old.binders) }
        ensures err { OnErr result (result ≡ Err TermFault.NoMemory) }
    {
        let key = copied(&h.id)?;
        let standing = self.standing_body(body)?;
        self.standing.insert(key, standing)?;
        self.count += 1;
        Ok(())
    }
}

impl Becoming for Table<'_> {
    ghost use Rattle.section_discharge.specs.calls.Tables.{IsTable, becomes_of};

    ghost becomes = { λ table. becomes_of table };

    ghost by = { λ table. table.binders };

    ghost valid = { λ table. IsTable table };

    fn raised_by(&self) -> u32 {
        self.binders
    }

    fn stand_for(
        &self,
        alloc: Global,
        name: &Term,
        at: u128,
        room: u32,
    ) -> Result<Option<Rc<Term>>, TermFault> {
        match self.name_becomes(name)? {
            None => Ok(None),
            Some(whole) => Ok(Some(raised(alloc, &whole, at, room)?)),
        }
    }
}
