//! Terms as they are written.
use crate::names::{Binder, Identifier, QualifiedName, Within};

/// A term. Coq Reference Manual, "Essential vocabulary".
#[cycle(raw)]
#[derive(Drop)]
pub enum Raw<'a> {
    Prop,
    Set,
    /// `Type`
    Type,
    /// `Type@{level}`
    TypeAt(QualifiedName<'a>),
    Reference(QualifiedName<'a>),
    Application(Application<'a>),
    Arrow(Box<ArrowOf<'a>>),
    /// `forall`
    Product(Groups<'a>, Box<Raw<'a>>),
    /// `fun`
    Abstraction(Groups<'a>, Box<Raw<'a>>),
    Let(Box<LetIn<'a>>),
    Fix(Box<FixOf<'a>>),
    Match(Box<MatchOf<'a>>),
}

/// `from -> to`
#[cycle(raw)]
#[derive(Drop)]
pub struct ArrowOf<'a> {
    pub from: Raw<'a>,
    pub to: Raw<'a>,
}

/// The functions of a `fix`, and the name behind the word `for`.
#[cycle(raw)]
#[derive(Drop)]
pub struct FixOf<'a> {
    pub functions: Functions<'a>,
    pub chosen: Option<Identifier<'a>>,
}

/// `let name groups : ty := body in rest`
#[cycle(raw)]
#[derive(Drop)]
pub struct LetIn<'a> {
    pub name: Identifier<'a>,
    pub groups: Groups<'a>,
    pub ty: Raw<'a>,
    pub body: Raw<'a>,
    pub rest: Raw<'a>,
}

/// `match value as name in within return motive with branches end`
#[cycle(raw)]
#[derive(Drop)]
pub struct MatchOf<'a> {
    pub value: Raw<'a>,
    pub name: Option<Binder<'a>>,
    pub within: Option<Within<'a>>,
    pub motive: Raw<'a>,
    pub branches: Branches<'a>,
}

/// A term and its arguments, in order.
#[cycle(raw)]
#[derive(Drop)]
pub struct Application<'a> {
    pub head: Box<Raw<'a>>,
    pub(crate) arguments: Vec<Raw<'a>>,
}

/// Names with their type.
#[cycle(raw)]
#[derive(Drop)]
pub struct Group<'a> {
    pub binders: Vec<Binder<'a>>,
    pub ty: Raw<'a>,
}

/// Groups of names, in order.
#[cycle(raw)]
#[derive(Drop)]
pub struct Groups<'a> {
    pub(crate) items: Vec<Group<'a>>,
}

/// A function of a `fix` or of the command `Fixpoint`.
#[cycle(raw)]
#[derive(Drop)]
pub struct Function<'a> {
    pub name: Identifier<'a>,
    pub groups: Groups<'a>,
    /// The name behind the word `struct`.
    pub structural: Option<Identifier<'a>>,
    pub ty: Raw<'a>,
    pub body: Raw<'a>,
}

/// Functions, in order.
#[cycle(raw)]
#[derive(Drop)]
pub struct Functions<'a> {
    pub(crate) items: Vec<Function<'a>>,
}

/// A branch of a `match`.
#[cycle(raw)]
#[derive(Drop)]
pub struct Branch<'a> {
    pub constructor: QualifiedName<'a>,
    pub names: Vec<Binder<'a>>,
    pub body: Raw<'a>,
}

/// Branches, in order.
#[cycle(raw)]
#[derive(Drop)]
pub struct Branches<'a> {
    pub(crate) items: Vec<Branch<'a>>,
}
