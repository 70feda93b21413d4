use cic_names::{Constraints, GlobalId, Sort};
use cic_terms::Term;

/// What is missing from the environment or the context.
#[derive(Drop)]
pub enum Missing {
    /// A declaration of that id, or of that kind.
    Global(GlobalId),
    /// That variable of the context, counted from the innermost, from 0.
    Local(u32),
}

/// Why a declaration is refused. `depth` is the length of the context in which the terms stand.
/// Manual: "Typing rules", and "Inductive types and recursive functions".
#[derive(Drop)]
pub enum Cause {
    /// An id or a variable is not there.
    Unbound {
        what: Missing,
    },
    /// What is applied is no function.
    NotFunction {
        depth: u32,
        form: Term,
    },
    /// What is to be a type has no sort.
    NotSort {
        depth: u32,
        form: Term,
    },
    /// One type is found where another is wanted.
    Mismatch {
        depth: u32,
        found: Term,
        wanted: Term,
    },
    /// What is matched on is of no inductive type.
    NotInductive {
        depth: u32,
        form: Term,
    },
    /// A match on that type may not have this sort.
    BadElimination {
        ind: GlobalId,
    },
    /// A match on that type has other branches than it has constructors.
    BadBranchCount {
        ind: GlobalId,
    },
    /// These sorts have a form that is not compared.
    UniverseForm {
        found: Sort,
        wanted: Sort,
    },
    /// That call of that function of a fixpoint is not guarded.
    Unguarded {
        f: u32,
        call: u32,
    },
    /// That argument of the constructor, from 1, or its conclusion, 0, is not strictly positive.
    NotPositive {
        ctor: GlobalId,
        argument: u32,
    },
    /// The arity of the type has not the shape that it must have.
    BadArity {
        ind: GlobalId,
    },
    /// The type of the constructor has not the shape that it must have.
    BadConstructor {
        ctor: GlobalId,
    },
}

/// What a check answers.
#[derive(Drop)]
pub enum Verdict<T: Drop> {
    /// It is done, with this value.
    Done(T),
    /// It refuses.
    Refused(Cause),
    /// The budget of steps is spent.
    Spent,
    /// A term or the nesting of calls is too deep.
    Deep,
    /// There was no memory.
    NoMemory,
}

/// What an accepted declaration needs.
#[derive(Drop)]
pub struct Found {
    /// The constraints that everyone who uses it sees.
    pub visible: Constraints,
    /// The constraints of its opaque body.
    pub proofs: Constraints,
    /// The steps that its check took.
    pub steps: u32,
}
