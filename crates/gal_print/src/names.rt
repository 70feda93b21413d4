//! The numbers of the binders around a term.
ghost use Rattle.std.specs.Prelude.{◌≡◌, ◌+◌, ◌<◌, ◌^◌, IfOk};
ghost use Rattle.gal_print.specs.Printing.{under};
ghost use Rattle.gal_print.specs.calls.Names.{numbers, next_number, Ordered, variable};

use memory::NoMemory;

/// The binders around a term, each named by a number. The list lies on the stack of the printer.
///
/// The numbers are consecutive but where a part does not stand under binders that took theirs.
#[derive(Clone, Copy)]
pub(crate) enum Names<'n> {
    Outside,
    /// The innermost `count` binders, numbered from `first` on, and the others.
    Run {
        first: u64,
        count: u64,
        outer: &'n Names<'n>,
    },
}

/// What a variable stands for: the binder of a number, or none, with what its number is past all binders.
#[derive(Clone, Copy)]
pub(crate) enum Variable {
    Bound(u64),
    Free(u64),
}

impl<'n> Names<'n> {
    /// The names inside so many binders more, which take the next numbers.
    pub(crate) fn more(&'n self, more: u64) -> Result<Names<'n>, NoMemory>
        requires { Ordered self.now }
        ensures numbers { IfOk result (λ inner. numbers inner ≡ under (next_number self.now) more (numbers self.now)) }
        ensures next { IfOk result (λ inner. next_number inner ≡ next_number self.now + more) }
        ensures ordered { IfOk result (λ inner. Ordered inner) }
    {
        match self {
            Names::Outside => Ok(Names::Run {
                first: 0,
                count: more,
                outer: self,
            }),
            Names::Run {
                first,
                count,
                outer,
            } => Ok(Names::Run {
                first: *first,
                count: count.checked_add(more).ok_or(NoMemory)?,
                outer,
            }),
        }
    }
}

/// Which binder a variable stands for.
pub(crate) fn find(names: &Names<'_>, x: u64) -> Variable
    requires ordered { Ordered names.now }
    requires next { next_number names.now < 2 ^ 64 }
    ensures { result ≡ variable (numbers names.now) x }
{
    match names {
        Names::Outside => Variable::Free(x),
        Names::Run {
            first,
            count,
            outer,
        } => {
            if x < *count {
                Variable::Bound(*first + (*count - 1 - x))
            } else {
                find(outer, x - *count)
            }
        }
    }
}
