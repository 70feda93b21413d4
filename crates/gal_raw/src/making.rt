//! Terms made of their parts.
ghost use Rattle.std.specs.Prelude.{◌≡◌, IfOk};
ghost use Rattle.std.specs.Option.{option_map};
ghost use Rattle.gal_grammar.specs.Terms as S;
ghost use Rattle.gal_raw.specs.Denotes.{tree, identifier, qualified, binder, within, application, groups, functions, branches};

use crate::names::{Binder, Identifier, QualifiedName, Within};
use crate::terms::{Application, ArrowOf, Branches, FixOf, Functions, Groups, LetIn, MatchOf, Raw};
use std::alloc::{AllocError, Global};

fn boxed<T: Drop>(alloc: Global, content: T) -> Result<Box<T>, AllocError>
    ensures { IfOk result (λ b. b.value ≡ content) }
{
    match Box::new(alloc, content) {
        Ok(made) => Ok(made),
        Err(_) => Err(AllocError),
    }
}

impl<'a> Raw<'a> {
    /// `Prop`
    pub fn prop() -> Raw<'a>
        ensures { tree result ≡ S.prop }
    {
        Raw::Prop
    }

    /// `Set`
    pub fn set() -> Raw<'a>
        ensures { tree result ≡ S.set }
    {
        Raw::Set
    }

    /// `Type` of a level that is not said.
    pub fn type_any() -> Raw<'a>
        ensures { tree result ≡ S.type_any }
    {
        Raw::Type
    }

    /// `Type@{level}`
    pub fn type_at(level: QualifiedName<'a>) -> Raw<'a>
        ensures { tree result ≡ S.type_at (qualified level.entry) }
    {
        Raw::TypeAt(level)
    }

    /// A name.
    pub fn reference(name: QualifiedName<'a>) -> Raw<'a>
        ensures { tree result ≡ S.ref (qualified name.entry) }
    {
        Raw::Reference(name)
    }

    /// A term and its arguments.
    #[tactic(auto, using(crate::proofs::Rows::application_roll))]
    pub fn application(parts: Application<'a>) -> Raw<'a>
        ensures { tree result ≡ application parts.entry }
    {
        Raw::Application(parts)
    }

    /// `from -> to`
    pub fn arrow(alloc: Global, from: Raw<'a>, to: Raw<'a>) -> Result<Raw<'a>, AllocError>
        ensures { IfOk result (λ t. tree t ≡ S.arrow (tree from.entry) (tree to.entry)) }
    {
        let parts = boxed(alloc, ArrowOf { from, to })?;
        Ok(Raw::Arrow(parts))
    }

    /// `forall among, body`
    pub fn product(alloc: Global, among: Groups<'a>, body: Raw<'a>) -> Result<Raw<'a>, AllocError>
        ensures { IfOk result (λ t. tree t ≡ S.prod (groups among.entry) (tree body.entry)) }
    {
        let body = boxed(alloc, body)?;
        Ok(Raw::Product(among, body))
    }

    /// `fun among => body`
    pub fn abstraction(
        alloc: Global,
        among: Groups<'a>,
        body: Raw<'a>,
    ) -> Result<Raw<'a>, AllocError>
        ensures { IfOk result (λ t. tree t ≡ S.func (groups among.entry) (tree body.entry)) }
    {
        let body = boxed(alloc, body)?;
        Ok(Raw::Abstraction(among, body))
    }

    /// `let name among : ty := body in rest`
    pub fn let_in(
        alloc: Global,
        name: Identifier<'a>,
        among: Groups<'a>,
        ty: Raw<'a>,
        body: Raw<'a>,
        rest: Raw<'a>,
    ) -> Result<Raw<'a>, AllocError>
        ensures { IfOk result (λ t. tree t ≡ S.let_in (identifier name.entry) (groups among.entry) (tree ty.entry) (tree body.entry) (tree rest.entry)) }
    {
        let parts = boxed(
            alloc,
            LetIn {
                name,
                groups: among,
                ty,
                body,
                rest,
            },
        )?;
        Ok(Raw::Let(parts))
    }

    /// `fix`, with the name behind the word `for`.
    pub fn fix(
        alloc: Global,
        block: Functions<'a>,
        chosen: Option<Identifier<'a>>,
    ) -> Result<Raw<'a>, AllocError>
        ensures { IfOk result (λ t. tree t ≡ S.fix_of (functions block.entry) (option_map identifier chosen.entry)) }
    {
        let parts = boxed(
            alloc,
            FixOf {
                functions: block,
                chosen,
            },
        )?;
        Ok(Raw::Fix(parts))
    }

    /// `match value as name in inside return motive with cases end`
    pub fn match_of(
        alloc: Global,
        value: Raw<'a>,
        name: Option<Binder<'a>>,
        inside: Option<Within<'a>>,
        motive: Raw<'a>,
        cases: Branches<'a>,
    ) -> Result<Raw<'a>, AllocError>
        ensures { IfOk result (λ t. tree t ≡ S.match_of (tree value.entry) (option_map binder name.entry) (option_map within inside.entry) (tree motive.entry) (branches cases.entry)) }
    {
        let parts = boxed(
            alloc,
            MatchOf {
                value,
                name,
                within: inside,
                motive,
                branches: cases,
            },
        )?;
        Ok(Raw::Match(parts))
    }
}
