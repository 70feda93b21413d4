//! What names mean at a place of a library.
ghost use Rattle.std.specs.Prelude.{◌≡◌};
ghost use Rattle.gal_scoping.specs.Levels.{declared_level};

use crate::counts::Counts;
use crate::fault::NameFault;
use crate::imports::Imports;
use crate::libraries::Libraries;
use crate::lookup::{foreign, own_id, short};
use crate::name_set::NameSet;
use crate::written::{Parts, cut_at_dot};
use cic_names::{GlobalId, Level, LevelName, LibName, Name, Part};
use gal_raw::QualifiedName;
use memory::NoMemory;
use std::alloc::Global;

/// What names mean at a place of a library: the library's own names, those that imports bring, and the libraries of
/// which names may be written; and how many anonymous levels were taken. Each look-up is one step, whatever the
/// number of names. Coq Reference Manual, "Libraries and qualified names".
#[derive(Drop)]
pub struct Scope {
    alloc: Global,
    library: LibName,
    prefix: Option<Name>,
    allowed: Libraries,
    brought: Imports,
    brought_levels: Imports,
    own: NameSet,
    own_levels: NameSet,
    /// The live section variables, which are own names too.
    variables: NameSet,
    counts: Counts,
}

fn declared(id: GlobalId) -> Level
    ensures { result ≡ declared_level id }
{
    Level::Named(LevelName {
        lib: id.lib,
        owner: id.name,
        part: Part::Declared,
    })
}

impl Scope {
    ghost use Rattle.std.specs.Prelude.{◌≡◌, ◌+◌, ◌<◌, ◌^◌, ◌++◌, ◌∷◌, [], Some, Ok, Err, IfOk, OnOk, OnErr, if◌then◌else◌};
    ghost use Rattle.std.specs.Option.{option_copied, option_map};
    ghost use Rattle.memory.specs.Telling.{IfReason, Tells};
    ghost use Rattle.gal_raw.specs.Denotes.{qualified as denoted};
    ghost use Rattle.gal_scoping.specs.Names.{has_own, has_name, words_of, qualified_id, qualified, written, global_id};
    ghost use Rattle.gal_scoping.specs.Levels.{Owner, level_id, level_named, declared_level, qualified_level};
    ghost use Rattle.name_scope.specs.Faults.{fault};
    ghost use Rattle.name_scope.specs.Held.{scope_of, variables_of, taken_of, empty_scope};
    ghost use Rattle.name_scope.specs.calls.Changes.{Joins, Leaves, Brings, Allows, Takes};
    ghost use Rattle.name_scope.specs.Parts.{id_written};
    ghost use Rattle.name_scope.specs.calls.Answers.{IsSame};

    /// The scope of a library of which nothing is known yet. The prefix may be written before the names of libraries.
    pub fn new(alloc: Global, library: &LibName, prefix: Option<&Name>) -> Result<Scope, NoMemory>
        ensures scope { IfOk result (λ s. scope_of s ≡ empty_scope library.now (option_copied prefix.entry)) }
        ensures variables { IfOk result (λ s. variables_of s ≡ []) }
        ensures taken { IfOk result (λ s. (owner : Owner) → taken_of s owner ≡ 0) }
    {
        let library = library.clone()?;
        let prefix = match prefix {
            None => None,
            Some(prefix) => Some(prefix.clone()?),
        };
        Ok(Scope {
            alloc,
            library,
            prefix,
            allowed: Libraries::new(alloc),
            brought: Imports::new(alloc),
            brought_levels: Imports::new(alloc),
            own: NameSet::new(alloc),
            own_levels: NameSet::new(alloc),
            variables: NameSet::new(alloc),
            counts: Counts::new(alloc),
        })
    }

    /// The library.
    pub fn library(&self) -> &LibName
        ensures { result.now ≡ (scope_of self.now).library }
    {
        &self.library
    }

    /// Whether the library has the name.
    pub fn has_own(&self, name: &[u8]) -> bool
        ensures { result ≡ has_own (scope_of self.now).own name.now }
    {
        self.own.get(name).is_some()
    }

    /// Whether the library declares the level.
    pub fn has_own_level(&self, name: &[u8]) -> bool
        ensures { result ≡ has_own (scope_of self.now).own_levels name.now }
    {
        self.own_levels.get(name).is_some()
    }

    /// Whether the name is that of a live section variable.
    pub fn has_variable(&self, name: &[u8]) -> bool
        ensures { result ≡ has_own (variables_of self.now) name.now }
    {
        self.variables.get(name).is_some()
    }

    fn is_prefix(&self, text: &[u8]) -> bool
        ensures { result ≡ has_name text.now (scope_of self.now).prefix }
    {
        match &self.prefix {
            None => false,
            Some(prefix) => text == prefix.bytes(),
        }
    }

    /// The library and the name that a qualified name is made of.
    fn parts<'a>(&self, text: &'a [u8]) -> Option<Parts<'a>>
        ensures { option_map id_written result ≡ qualified_id (scope_of self.now) (words_of text.now) }
    {
        let (first, rest) = cut_at_dot(text)?;
        match cut_at_dot(rest) {
            None => Some(Parts {
                library: first,
                name: rest,
            }),
            Some((second, last)) => self.prefixed(first, second, last),
        }
    }

    /// The same where there are two dots or more.
    fn prefixed<'a>(&self, prefix: &[u8], library: &'a [u8], name: &'a [u8]) -> Option<Parts<'a>>
        ensures { option_map id_written result ≡ qualified_id (scope_of self.now) (prefix.now ∷ library.now ∷ words_of name.now) }
    {
        if self.is_prefix(prefix) && cut_at_dot(name).is_none() {
            Some(Parts { library, name })
        } else {
            None
        }
    }

    fn qualified_global<'a>(
        &self,
        parts: Parts<'a>,
        written: &'a [u8],
    ) -> Result<GlobalId, NameFault<'a>>
        ensures found { IfOk result (λ id. qualified (scope_of self.now) written.now (Some (id_written parts.entry)) ≡ Ok id) }
        ensures fault { IfReason fault result (λ f. qualified (scope_of self.now) written.now (Some (id_written parts.entry)) ≡ Err f) }
    {
        if self.library.bytes() == parts.library {
            return own_id(&self.library, &self.own, parts.name, written);
        }
        match self.allowed.get(parts.library) {
            None => Err(NameFault::Unknown(written)),
            Some(library) => foreign(self.alloc, &library.name, parts.name, written),
        }
    }

    fn qualified_level<'a>(
        &self,
        parts: Parts<'a>,
        written: &'a [u8],
    ) -> Result<GlobalId, NameFault<'a>>
        ensures { Tells fault result (λ id. qualified_level (scope_of self.now) written.now (Some (id_written parts.entry)) ≡ Ok id) (λ f. qualified_level (scope_of self.now) written.now (Some (id_written parts.entry)) ≡ Err f) }
    {
        if self.library.bytes() == parts.library {
            return own_id(&self.library, &self.own_levels, parts.name, written);
        }
        match self.allowed.get(parts.library) {
            None => Err(NameFault::Unknown(written)),
            Some(library) => own_id(&library.name, &library.levels, parts.name, written),
        }
    }

    fn level_id<'a>(&self, x: &QualifiedName<'a>) -> Result<GlobalId, NameFault<'a>>
        ensures { Tells fault result (λ id. level_id (scope_of self.now) (denoted x.now) ≡ Ok id) (λ f. level_id (scope_of self.now) (denoted x.now) ≡ Err f) }
    {
        match x {
            QualifiedName::Short(x) => short(
                &self.library,
                &self.own_levels,
                &self.brought_levels,
                x.text,
            ),
            QualifiedName::Long(x) => match self.parts(x.text) {
                None => Err(NameFault::Unknown(x.text)),
                Some(parts) => self.qualified_level(parts, x.text),
            },
        }
    }

    /// The id that a name stands for where no binder has it.
    pub fn global<'a>(&self, x: &QualifiedName<'a>) -> Result<GlobalId, NameFault<'a>>
        ensures found { IfOk result (λ id. global_id (scope_of self.now) (denoted x.now) ≡ Ok id) }
        ensures fault { IfReason fault result (λ f. global_id (scope_of self.now) (denoted x.now) ≡ Err f) }
    {
        match x {
            QualifiedName::Short(x) => short(&self.library, &self.own, &self.brought, x.text),
            QualifiedName::Long(x) => match self.parts(x.text) {
                None => Err(NameFault::Unknown(x.text)),
                Some(parts) => self.qualified_global(parts, x.text),
            },
        }
    }

    /// The level that a name stands for.
    pub fn level<'a>(&self, x: &QualifiedName<'a>) -> Result<Level, NameFault<'a>>
        ensures found { IfOk result (λ level. level_named (scope_of self.now) (denoted x.now) ≡ Ok level) }
        ensures fault { IfReason fault result (λ f. level_named (scope_of self.now) (denoted x.now) ≡ Err f) }
    {
        match self.level_id(x) {
            Ok(id) => Ok(declared(id)),
            Err(fault) => Err(fault),
        }
    }

    /// Allows the names of a library, which declares these levels.
    pub fn allow(&mut self, library: &LibName, levels: &[Name]) -> Result<(), NoMemory>
        ensures allows { OnOk result (Allows library.now levels.now (scope_of self.old).allowed (scope_of self.new).allowed) }
        ensures others { scope_of self.new ≡ record (scope_of self.old) { allowed = (scope_of self.new).allowed } }
        ensures variables { variables_of self.new ≡ variables_of self.old }
        ensures taken { taken_of self.new ≡ taken_of self.old }
        ensures same { OnErr result (IsSame self.old self.new) }
    {
        self.allowed.allow(library, levels)
    }

    /// Brings an id, as imports do.
    pub fn bring(&mut self, id: &GlobalId) -> Result<(), NoMemory>
        ensures brings { OnOk result (Brings ((scope_of self.old).brought ++ id.now ∷ []) (scope_of self.new).brought) }
        ensures others { scope_of self.new ≡ record (scope_of self.old) { brought = (scope_of self.new).brought } }
        ensures variables { variables_of self.new ≡ variables_of self.old }
        ensures taken { taken_of self.new ≡ taken_of self.old }
        ensures same { OnErr result (IsSame self.old self.new) }
    {
        self.brought.bring(id)
    }

    /// Brings a level, by its library and name.
    pub fn bring_level(&mut self, level: &GlobalId) -> Result<(), NoMemory>
        ensures brings { OnOk result (Brings ((scope_of self.old).brought_levels ++ level.now ∷ []) (scope_of self.new).brought_levels) }
        ensures others { scope_of self.new ≡ record (scope_of self.old) { brought_levels = (scope_of self.new).brought_levels } }
        ensures variables { variables_of self.new ≡ variables_of self.old }
        ensures taken { taken_of self.new ≡ taken_of self.old }
        ensures same { OnErr result (IsSame self.old self.new) }
    {
        self.brought_levels.bring(level)
    }

    /// Adds a name of a declaration or a constructor to the library's own.
    pub fn declare(&mut self, name: &Name) -> Result<(), NoMemory>
        ensures own { OnOk result (Joins name.now (scope_of self.old).own (scope_of self.new).own) }
        ensures others { scope_of self.new ≡ record (scope_of self.old) { own = (scope_of self.new).own } }
        ensures variables { variables_of self.new ≡ variables_of self.old }
        ensures taken { taken_of self.new ≡ taken_of self.old }
        ensures same { OnErr result (IsSame self.old self.new) }
    {
        self.own.insert(name)
    }

    /// Adds a level to the library's own.
    pub fn declare_level(&mut self, name: &Name) -> Result<(), NoMemory>
        ensures own { OnOk result (Joins name.now (scope_of self.old).own_levels (scope_of self.new).own_levels) }
        ensures others { scope_of self.new ≡ record (scope_of self.old) { own_levels = (scope_of self.new).own_levels } }
        ensures variables { variables_of self.new ≡ variables_of self.old }
        ensures taken { taken_of self.new ≡ taken_of self.old }
        ensures same { OnErr result (IsSame self.old self.new) }
    {
        self.own_levels.insert(name)
    }

    /// Adds the name of a section variable to the library's own names.
    pub fn declare_variable(&mut self, name: &Name) -> Result<(), NoMemory>
        ensures own { OnOk result (Joins name.now (scope_of self.old).own (scope_of self.new).own) }
        ensures others { scope_of self.new ≡ record (scope_of self.old) { own = (scope_of self.new).own } }
        ensures variables { OnOk result (Joins name.now (variables_of self.old) (variables_of self.new)) }
        ensures taken { taken_of self.new ≡ taken_of self.old }
        ensures same { OnErr result (IsSame self.old self.new) }
    {
        let count = self.own.len();
        self.own.insert(name)?;
        match self.variables.insert(name) {
            Ok(()) => Ok(()),
            Err(fault) => {
                self.own.cut(count);
                Err(fault)
            }
        }
    }

    /// Takes away the name of a section variable that is live no more.
    pub fn forget(&mut self, name: &Name)
        ensures own { Leaves name.now (scope_of self.old).own (scope_of self.new).own }
        ensures others { scope_of self.new ≡ record (scope_of self.old) { own = (scope_of self.new).own } }
        ensures variables { Leaves name.now (variables_of self.old) (variables_of self.new) }
        ensures taken { taken_of self.new ≡ taken_of self.old }
    {
        self.own.remove(name);
        self.variables.remove(name);
    }

    /// How many anonymous levels an owner has taken: in its opaque body, or elsewhere.
    pub fn taken(&self, owner: &Name, opaque: bool) -> u32
        ensures { result ≡ taken_of self.now (record { name = owner.now; opaque = opaque }) }
    {
        self.counts.taken(owner, opaque)
    }

    /// Notes that an owner takes so many anonymous levels more.
    pub fn take(&mut self, owner: &Name, opaque: bool, count: u32) -> Result<(), NoMemory>
        requires { taken_of self.old (record { name = owner.now; opaque = opaque }) + count < 2 ^ 32 }
        ensures takes { OnOk result (Takes (record { name = owner.now; opaque = opaque }) count (taken_of self.old) (taken_of self.new)) }
        ensures scope { scope_of self.new ≡ scope_of self.old }
        ensures variables { variables_of self.new ≡ variables_of self.old }
        ensures same { OnErr result (taken_of self.new ≡ taken_of self.old) }
    {
        self.counts.take(owner, opaque, count)
    }
}
