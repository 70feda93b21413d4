//! What a check comes to, as far as the rows name it.

use cic_env::{Cause, Found, Missing, Verdict};
use cic_terms::Term;
use std::fmt;

#[derive(Clone, Copy)]
pub enum Outcome {
    /// It takes so many steps, and finds so many constraints that everyone sees, and of an opaque body.
    Done {
        steps: u32,
        visible: usize,
        proofs: usize,
    },
    /// A constant is no sort, under that many variables.
    Constant(u32),
    /// A variable is no sort, under that many variables.
    Variable(u32, u32),
    /// Another term is no sort, under that many variables.
    NotSort(u32),
    UnknownId,
    UnknownVariable(u32),
    /// No function is applied, under that many variables.
    NotFunction(u32),
    /// One type stands for another, under that many variables.
    Mismatch(u32),
    /// A match is on no inductive type, under that many variables.
    NotInductive(u32),
    BadElimination,
    BadBranchCount,
    Unguarded,
    /// That argument of a constructor is not strictly positive.
    NotPositive(u32),
    BadArity,
    BadConstructor,
    Spent,
    Deep,
    /// An id is declared already.
    Taken,
    Other,
}

fn of_form(depth: u32, form: &Term) -> Outcome {
    match form {
        Term::Const(_) => Outcome::Constant(depth),
        Term::Rel(n) => Outcome::Variable(depth, *n),
        _ => Outcome::NotSort(depth),
    }
}

fn of_cause(cause: &Cause) -> Outcome {
    match cause {
        Cause::NotSort { depth, form } => of_form(*depth, form),
        Cause::Unbound {
            what: Missing::Global(_),
        } => Outcome::UnknownId,
        Cause::Unbound {
            what: Missing::Local(n),
        } => Outcome::UnknownVariable(*n),
        Cause::NotFunction { depth, .. } => Outcome::NotFunction(*depth),
        Cause::Mismatch { depth, .. } => Outcome::Mismatch(*depth),
        Cause::NotInductive { depth, .. } => Outcome::NotInductive(*depth),
        Cause::BadElimination { .. } => Outcome::BadElimination,
        Cause::BadBranchCount { .. } => Outcome::BadBranchCount,
        Cause::UniverseForm { .. } => Outcome::Other,
        Cause::Unguarded { .. } => Outcome::Unguarded,
        Cause::NotPositive { argument, .. } => Outcome::NotPositive(*argument),
        Cause::BadArity { .. } => Outcome::BadArity,
        Cause::BadConstructor { .. } => Outcome::BadConstructor,
    }
}

pub fn outcome_of(verdict: &Verdict<Found>) -> Outcome {
    match verdict {
        Verdict::Done(found) => Outcome::Done {
            steps: found.steps,
            visible: found.visible.len(),
            proofs: found.proofs.len(),
        },
        Verdict::Refused(cause) => of_cause(cause),
        Verdict::Spent => Outcome::Spent,
        Verdict::Deep => Outcome::Deep,
        Verdict::NoMemory => Outcome::Other,
    }
}

/// Steps, and constraints where there are any.
fn write_done<W: fmt::Write>(
    f: &mut fmt::Formatter<W>,
    steps: u32,
    visible: usize,
    proofs: usize,
) -> fmt::Result {
    if visible == 0 && proofs == 0 {
        return write!(f, "accepted in {steps}");
    }
    write!(
        f,
        "accepted in {steps}, constraints: {visible} visible, {proofs} of its proof"
    )
}

fn write_refused<W: fmt::Write>(outcome: Outcome, f: &mut fmt::Formatter<W>) -> fmt::Result {
    match outcome {
        Outcome::NotSort(depth) => write!(f, "a term is no sort, under {depth} variables"),
        Outcome::NotFunction(depth) => write!(f, "no function is applied, under {depth} variables"),
        Outcome::Mismatch(depth) => write!(f, "a type is another, under {depth} variables"),
        Outcome::NotInductive(depth) => {
            write!(
                f,
                "a match is on no inductive type, under {depth} variables"
            )
        }
        Outcome::BadElimination => write!(f, "a proposition goes into another sort"),
        Outcome::BadBranchCount => write!(f, "a match has other branches"),
        Outcome::Unguarded => write!(f, "a call is not guarded"),
        Outcome::NotPositive(argument) => write!(f, "argument {argument} is not positive"),
        Outcome::BadArity => write!(f, "an arity is bad"),
        Outcome::BadConstructor => write!(f, "a constructor is bad"),
        Outcome::Taken => write!(f, "an id is taken"),
        _ => write!(f, "another outcome"),
    }
}

impl fmt::Display for Outcome {
    fn fmt<W: fmt::Write>(&self, f: &mut fmt::Formatter<W>) -> fmt::Result {
        match self {
            Outcome::Done {
                steps,
                visible,
                proofs,
            } => write_done(f, *steps, *visible, *proofs),
            Outcome::Constant(depth) => {
                write!(f, "a constant is no sort, under {depth} variables")
            }
            Outcome::Variable(depth, n) => {
                write!(f, "variable {n} is no sort, under {depth} variables")
            }
            Outcome::UnknownId => write!(f, "an id is unbound"),
            Outcome::UnknownVariable(n) => write!(f, "variable {n} is unbound"),
            Outcome::Spent => write!(f, "spent"),
            Outcome::Deep => write!(f, "too deep"),
            other => write_refused(*other, f),
        }
    }
}
