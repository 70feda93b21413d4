//! The plain evaluator.
ghost use Rattle.std.specs.Prelude.{◌≡◌, ◌≤◌};
ghost use Rattle.cic_counted.specs.Evaluation.{conv_from, cumul_from, whnf_from};
ghost use Rattle.cic_env.specs.Contexts.{context};
ghost use Rattle.cic_env.specs.Environments.{items};
ghost use Rattle.cic_spines.specs.Lists.{shared_tree};
ghost use Rattle.cic_work.specs.calls.Counting.{Counts, budget, no_value};

use crate::conversion::conv;
use crate::subtyping::cumul;
use cic_env::{Context, Env};
use cic_eval::whnf;
use cic_terms::Term;
use cic_work::{Evaluator, Stop, Work};
use std::alloc::Global;
use std::rc::Rc;

/// The evaluator that keeps nothing between its calls.
#[derive(Clone, Copy, Debug, Default, Drop)]
pub struct Plain;

impl Plain {
    /// The evaluator.
    pub fn new() -> Plain {
        Plain
    }
}

impl Evaluator for Plain {
    fn whnf(
        &mut self,
        alloc: Global,
        env: &Env,
        ctx: &Context,
        t: &Rc<Term>,
        work: &mut Work,
    ) -> Result<Rc<Term>, Stop> {
        whnf(alloc, env, ctx, t, work)
    }

    fn conv(
        &mut self,
        alloc: Global,
        env: &Env,
        ctx: &mut Context,
        a: &Rc<Term>,
        b: &Rc<Term>,
        work: &mut Work,
    ) -> Result<(), Stop> {
        conv(alloc, env, ctx, a, b, work)
    }

    fn cumul(
        &mut self,
        alloc: Global,
        env: &Env,
        ctx: &mut Context,
        a: &Rc<Term>,
        b: &Rc<Term>,
        work: &mut Work,
    ) -> Result<(), Stop> {
        cumul(alloc, env, ctx, a, b, work)
    }
}
