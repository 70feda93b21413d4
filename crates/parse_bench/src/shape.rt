//! The shapes of sources.
use crate::plan::Plan;
use std::fmt;

#[derive(Clone, Copy, Debug, PartialEq, Eq)]
pub(crate) enum Shape {
    /// Definitions and theorems.
    Ordinary,
    /// Many short sentences.
    Sentences,
    /// One sentence with many arguments.
    Long,
    Parentheses,
    Products,
    Functions,
    Matches,
    Fixes,
    /// One long comment.
    Comment,
    /// Comments within one another.
    Comments,
    /// An identifier of 255 bytes again and again.
    Names,
    /// One `match` with many branches.
    Branches,
}

/// How many terms stand within the body of a definition, each in the other, at the most.
const DEEPEST: usize = 499;

impl Shape {
    pub(crate) const ALL: [Shape; 12] = [
        Shape::Ordinary,
        Shape::Sentences,
        Shape::Long,
        Shape::Parentheses,
        Shape::Products,
        Shape::Functions,
        Shape::Matches,
        Shape::Fixes,
        Shape::Comment,
        Shape::Comments,
        Shape::Names,
        Shape::Branches,
    ];

    fn name(self) -> &'static str {
        match self {
            Shape::Ordinary => "ordinary",
            Shape::Sentences => "sentences",
            Shape::Long => "long",
            Shape::Parentheses => "parentheses",
            Shape::Products => "products",
            Shape::Functions => "functions",
            Shape::Matches => "matches",
            Shape::Fixes => "fixes",
            Shape::Comment => "comment",
            Shape::Comments => "comments",
            Shape::Names => "names",
            Shape::Branches => "branches",
        }
    }
}

impl fmt::Display for Shape {
    fn fmt<W: fmt::Write>(&self, f: &mut fmt::Formatter<W>) -> fmt::Result {
        f.write_str(self.name())
    }
}

/// The shape of the name.
pub(crate) fn shape_of(name: &str) -> Option<Shape> {
    for shape in Shape::ALL {
        if shape.name() == name {
            return Some(shape);
        }
    }
    None
}

/// A small size and a larger one.
pub(crate) fn sizes_of(shape: Shape) -> (usize, usize) {
    match shape {
        Shape::Ordinary => (10, 100),
        Shape::Sentences => (100, 1_000),
        Shape::Long | Shape::Branches => (1_000, 10_000),
        Shape::Comment => (1_000, 10_000),
        Shape::Comments => (10_000, 100_000),
        Shape::Names => (10, 100),
        _ => (1, 10),
    }
}

const NOTHING: Plan = Plan {
    front: "",
    opening: "",
    inside: "",
    closing: "",
    back: "",
    depth: 0,
    times: 1,
};

/// 587 bytes, 231 tokens and 6 commands.
const ORDINARY: &str = "Definition apply (A B : Set) (f : A -> B) (x : A) : B := f x.
Definition compose (A B C : Set) (g : B -> C) (f : A -> B) : A -> C :=
  fun x : A => g (f x).
Theorem swap (A B : Prop) (h : and A B) : and B A.
Proof.
  exact (and_ind A B (and B A) (fun (a : A) (b : B) => conj B A b a) h).
Qed.
Definition pred (n : nat) : nat :=
  match n return nat with
  | O => O
  | S m => m
  end.
Lemma trans (A : Set) (x y z : A) (h : eq A x y) (k : eq A y z) : eq A x z.
Proof.
  exact (eq_ind A y (fun w : A => eq A x w) h z k).
Qed.
Definition twice (f : nat -> nat) (n : nat) : nat := f (f n).
";

/// A blank and an identifier of 255 bytes.
const LONG_NAME: &str =
    " abcdefghijklmnopqrstuvwxyzabcdefghijklmnopqrstuvwxyzabcdefghijklmnopqrstuvwxyzabcdefghijklmnopqrstuvwxyzabcdefghijklmnopqrstuvwxyzabcdefghijklmnopqrstuvwxyzabcdefghijklmnopqrstuvwxyzabcdefghijklmnopqrstuvwxyzabcdefghijklmnopqrstuvwxyzabcdefghijklmnopqrstu";

/// Terms within one another, as deep as may be, so many times.
fn nested(
    opening: &'static str,
    inside: &'static str,
    closing: &'static str,
    times: usize,
) -> Plan {
    Plan {
        front: "Definition d : A := ",
        opening,
        inside,
        closing,
        back: ".\n",
        depth: DEEPEST,
        times,
    }
}

/// One sentence with so many parts.
fn wide(front: &'static str, opening: &'static str, back: &'static str, depth: usize) -> Plan {
    Plan {
        front,
        opening,
        back,
        depth,
        ..NOTHING
    }
}

/// The text so many times.
fn repeated(inside: &'static str, times: usize) -> Plan {
    Plan {
        inside,
        times,
        ..NOTHING
    }
}

pub(crate) fn plan_of(shape: Shape, size: usize) -> Plan {
    match shape {
        Shape::Ordinary => repeated(ORDINARY, size),
        Shape::Sentences => repeated("Section s. End s.\n", size),
        Shape::Long => wide("Definition d : A := f", " x", ".", size),
        Shape::Parentheses => nested("(", "x", ")", size),
        Shape::Products => nested("forall x : A, ", "x", "", size),
        Shape::Functions => nested("fun x : A => ", "x", "", size),
        Shape::Matches => nested("match x return A with c => ", "x", " end", size),
        Shape::Fixes => nested("fix f (x : A) : A := ", "x", "", size),
        Shape::Comment => wide("(*", " some words", " *)", size),
        Shape::Comments => Plan {
            closing: "*)",
            ..wide("", "(*", "", size)
        },
        Shape::Names => wide("Definition d : A := f", LONG_NAME, ".", size),
        Shape::Branches => wide(
            "Definition d : A := match x return A with",
            " | c => y",
            " end.",
            size,
        ),
    }
}
