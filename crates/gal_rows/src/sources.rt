//! Sources as they are written.
use crate::row;

/// Prints the source and what it is.
fn shown(rt: &HostRuntime, text: &str) -> anyhow::Result<()> {
    println!(rt; "{text}")?;
    row(rt, text.as_bytes())
}

/// Prints a name for the source and what it is.
fn named(rt: &HostRuntime, name: &str, source: &[u8]) -> anyhow::Result<()> {
    println!(rt; "{name}")?;
    row(rt, source)
}

/// Each command by each of its first words.
pub(crate) fn commands(rt: &HostRuntime) -> anyhow::Result<()> {
    let sources = [
        "Require A B.c.",
        "Require Import A.",
        "From L Require Export A.",
        "Universe u.",
        "Universes u v.",
        "Constraint u < A.v, A.B.u <= Set, Set = u.",
        "Axiom a b : Prop.",
        "Axioms (a b : Prop) (c : a).",
        "Parameter a : Prop.",
        "Parameters a : Prop.",
        "Conjecture a : Prop.",
        "Variable a : Prop.",
        "Variables (a b : Prop).",
        "Hypothesis a : Prop.",
        "Hypotheses a b : Prop.",
        "Definition d (x _ : A) (y : B) : A := x.",
        "Definition d : A. Proof. exact x. Defined.",
        "Example e : A := x.",
        "Let l (x : A) : A := x.",
        "Fixpoint f (n : A) : A := n with g (n _ : A) {struct n} : A := n.",
        "Inductive a : Set := .",
        "Inductive a : Set := | .",
        "Inductive a : Set := c.",
        "Inductive a (P : Prop) : Set := | c (x : P) : a P | d with b : Set := e : b.",
        "Theorem t (x : A) : B. Proof using Type. exact x. Qed.",
        "Lemma t : A. Proof using All. exact x. Defined.",
        "Fact t : A. Proof using x y. Admitted.",
        "Remark t : A. Proof x.",
        "Corollary t : A. exact x. Admitted.",
        "Proposition t : A. Admitted.",
        "Section s.",
        "End s.",
        "",
        "Require A. From L Require B. Section s. End s.",
        "Section s. Require A.",
        "Goal A.",
        "Section s. s.",
        "Section s",
        "Constraint u < v < w.",
        "Constraint Prop < u.",
        "Axiom _ : Prop.",
        "Axiom (a : Prop) b : Prop.",
        "Example e := x.",
        "Let l : A.",
        "Fixpoint f : A := x.",
        "Inductive a : Set.",
        "Inductive a : Set := | c | .",
        "Section s t.",
    ];
    for source in sources {
        shown(rt, source)?;
    }
    Ok(())
}

/// Terms, and which `fix` a `with` belongs to.
pub(crate) fn terms(rt: &HostRuntime) -> anyhow::Result<()> {
    let sources = [
        "Definition d : forall x _ : A, B x -> C := fun (x : A) (y : B x) => c.",
        "Definition d : Type@{A.u} := let x (y : A) : Type := y in x @A.y (Set -> Prop).",
        "Definition d : A.B.c := A.x.",
        "Definition A.d : A := x.",
        "Definition d : A := fun A.x : A => x.",
        "Definition d : A := match x in A return A with end.",
        "Definition d : A := match x as _ in A.B _ y return A with end.",
        "Definition d : A := match x return A with end.",
        "Definition d : A := match x as y return A with end.",
        "Definition d : A := match x in A return A with | end.",
        "Definition d : A := match x with c => y end.",
        "Definition d : A := match x return A with | c => y | A.d z _ => z end.",
        "Definition d : A := fix f (x : A) : A := x with g (x : A) : A := x for g.",
        "Definition d : A := fix f (x : A) : A := x with B => x.",
        "Fixpoint f (x : A) : A := fix g (x : A) : A := x with h (x : A) : A := x.",
        "Fixpoint f (x : A) : A := (fix g (x : A) : A := x) with h (x : A) : A := x.",
        "Fixpoint f (x : A) : A := fix g (x : A) : A := x with h (x : A) : A := x for g with i (x : A) : A := x.",
        "Fixpoint f (x : A) : A := fix g (x : A) : A := x with h : A := x.",
        "Inductive a : Set := c : fix g (x : A) : A := x with b : Set := .",
        "Inductive a : Set := c : fix g (x : A) : A := x with b (x : A) : Set := .",
        "Definition d : A := x -> .",
        "Definition d : A := x forall y : A, y.",
        "Definition d : A := .",
    ];
    for source in sources {
        shown(rt, source)?;
    }
    Ok(())
}

/// Words by their place, and keywords.
pub(crate) fn words(rt: &HostRuntime) -> anyhow::Result<()> {
    let sources = [
        "Axiom Axiom : Prop.",
        "Section exact. End exact.",
        "Definition d : A. Proof exact.",
        "Definition d : A. Proof using.",
        "Definition d : A. Proof using A All. exact x. Qed.",
        "Require Import.",
        "Require Import Import.",
        "From Require.",
        "From Require Require Require.",
        "Section end.",
        "Definition fun : A := x.",
        "Definition d (in : A) : A := x.",
        "Definition d : a.forall := x.",
        "Definition d : a._ := x.",
        "Definition d : Prop.x := x.",
    ];
    for source in sources {
        shown(rt, source)?;
    }
    Ok(())
}

/// Sources by their characters.
pub(crate) fn texts(rt: &HostRuntime) -> anyhow::Result<()> {
    named(rt, "a byte order mark", b"\xef\xbb\xbfSection s.")?;
    named(rt, "CR LF", b"Section s.\r\nEnd s.\r\n")?;
    named(rt, "no UTF-8", b"Section \xff.")?;
    named(rt, "no UTF-8 in a comment", b"(* \xff *) Section s.")?;
    named(rt, "no UTF-8 in an open comment", b"Section s. (* \xff")?;
    let sources = [
        "(* (* A *) B *)",
        "Section(* A *)s.(* B *)",
        "Section s. (* (* A *)",
        "Section s.(* A",
        "Section é.",
        "Section a×.",
        "Section s .",
        "Section s. . End s.",
        "Constraint u > v.",
        "Section s;",
        "Section .s.",
        "Section s.End s.",
    ];
    for source in sources {
        shown(rt, source)?;
    }
    Ok(())
}
