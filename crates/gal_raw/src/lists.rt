//! Lists of the parts of a term, made from the front.
ghost use Rattle.std.specs.Prelude.{◌≡◌, [], OnOk, map};
ghost use Rattle.std.specs.Option.{option_map};
ghost use Rattle.gal_grammar.specs.Terms as S;
ghost use Rattle.gal_raw.specs.Denotes.{tree, identifier, qualified, binder, application, applied, groups, functions, branches};
ghost use Rattle.gal_raw.specs.calls.Lists.{group_list, function_list, branch_list};

use crate::names::{Binder, Identifier, QualifiedName};
use crate::terms::{Application, Branch, Branches, Function, Functions, Group, Groups, Raw};
use std::alloc::{AllocError, Global};

impl<'a> Application<'a> {
    /// The application of the term to no arguments yet.
    pub fn new(alloc: Global, head: Box<Raw<'a>>) -> Application<'a>
        ensures { application result ≡ tree head.entry.value }
    {
        Application {
            head,
            arguments: Vec::new(alloc),
        }
    }

    /// One more argument.
    #[tactic(auto, using(crate::proofs::Rows::applied_more))]
    pub fn push(&mut self, argument: Raw<'a>) -> Result<(), AllocError>
        ensures { OnOk result (application self.new ≡ S.app (application self.old) (tree argument.entry)) }
    {
        match self.arguments.push(argument) {
            Ok(()) => Ok(()),
            Err(_) => Err(AllocError),
        }
    }

    /// The arguments in order.
    pub fn arguments(&self) -> &[Raw<'a>]
        ensures { application self.now ≡ applied (tree self.now.head.value) result.now }
    {
        self.arguments.as_slice()
    }
}

impl<'a> Groups<'a> {
    /// No groups.
    #[tactic(auto, using(crate::proofs::Rows::groups_roll))]
    pub fn new(alloc: Global) -> Groups<'a>
        ensures { groups result ≡ S.no_groups }
    {
        Groups {
            items: Vec::new(alloc),
        }
    }

    /// One more group of names with their type.
    #[tactic(auto, using(crate::proofs::Rows::groups_out, crate::proofs::Rows::groups_roll, crate::proofs::Rows::group_more))]
    pub fn push(&mut self, binders: Vec<Binder<'a>>, ty: Raw<'a>) -> Result<(), AllocError>
        ensures { OnOk result (groups self.new ≡ S.group (groups self.old) (map binder binders.entry.items) (tree ty.entry)) }
    {
        match self.items.push(Group { binders, ty }) {
            Ok(()) => Ok(()),
            Err(_) => Err(AllocError),
        }
    }

    /// The groups in order.
    #[tactic(auto, using(crate::proofs::Rows::groups_out))]
    pub fn as_slice(&self) -> &[Group<'a>]
        ensures { groups self.now ≡ group_list S.no_groups result.now }
    {
        self.items.as_slice()
    }
}

/// An empty list with room for one element, if there is memory: most lists of functions have one.
fn with_room<T>(alloc: Global) -> Vec<T>
    ensures { result.items ≡ [] }
{
    match Vec::with_capacity(alloc, 1) {
        Ok(items) => items,
        Err(_) => Vec::new(alloc),
    }
}

impl<'a> Functions<'a> {
    /// No functions.
    #[tactic(auto, using(crate::proofs::Rows::functions_roll))]
    pub fn new(alloc: Global) -> Functions<'a>
        ensures { functions result ≡ S.no_functions }
    {
        Functions {
            items: with_room(alloc),
        }
    }

    /// One more function.
    #[tactic(auto, using(crate::proofs::Rows::functions_out, crate::proofs::Rows::functions_roll, crate::proofs::Rows::function_more, crate::proofs::Rows::function_roll))]
    pub fn push(
        &mut self,
        name: Identifier<'a>,
        among: Groups<'a>,
        structural: Option<Identifier<'a>>,
        ty: Raw<'a>,
        body: Raw<'a>,
    ) -> Result<(), AllocError>
        ensures { OnOk result (functions self.new ≡ S.function (functions self.old) (identifier name.entry) (groups among.entry) (option_map identifier structural.entry) (tree ty.entry) (tree body.entry)) }
    {
        match self.items.push(Function {
            name,
            groups: among,
            structural,
            ty,
            body,
        }) {
            Ok(()) => Ok(()),
            Err(_) => Err(AllocError),
        }
    }

    /// The functions in order.
    #[tactic(auto, using(crate::proofs::Rows::functions_out))]
    pub fn as_slice(&self) -> &[Function<'a>]
        ensures { functions self.now ≡ function_list S.no_functions result.now }
    {
        self.items.as_slice()
    }
}

impl<'a> Branches<'a> {
    /// No branches.
    #[tactic(auto, using(crate::proofs::Rows::branches_roll))]
    pub fn new(alloc: Global) -> Branches<'a>
        ensures { branches result ≡ S.no_branches }
    {
        Branches {
            items: Vec::new(alloc),
        }
    }

    /// One more branch.
    #[tactic(auto, using(crate::proofs::Rows::branches_out, crate::proofs::Rows::branches_roll, crate::proofs::Rows::branch_more))]
    pub fn push(
        &mut self,
        constructor: QualifiedName<'a>,
        names: Vec<Binder<'a>>,
        body: Raw<'a>,
    ) -> Result<(), AllocError>
        ensures { OnOk result (branches self.new ≡ S.branch (branches self.old) (qualified constructor.entry) (map binder names.entry.items) (tree body.entry)) }
    {
        match self.items.push(Branch {
            constructor,
            names,
            body,
        }) {
            Ok(()) => Ok(()),
            Err(_) => Err(AllocError),
        }
    }

    /// The branches in order.
    #[tactic(auto, using(crate::proofs::Rows::branches_out))]
    pub fn as_slice(&self) -> &[Branch<'a>]
        ensures { branches self.now ≡ branch_list S.no_branches result.now }
    {
        self.items.as_slice()
    }
}
