//! Evaluators: weak head normal forms, conversion and subtyping.
ghost use Rattle.std.specs.Prelude.{◌≡◌, ◌≤◌};
ghost use Rattle.cic_counted.specs.Evaluation.{conv_from, cumul_from, whnf_from};
ghost use Rattle.cic_env.specs.Contexts.{context};
ghost use Rattle.cic_env.specs.Environments.{items};
ghost use Rattle.cic_spines.specs.Lists.{shared_tree};
ghost use Rattle.cic_work.specs.calls.Counting.{Counts, budget, no_value};

use crate::stop::Stop;
use crate::work::Work;
use cic_env::{Context, Env};
use cic_terms::Term;
use std::alloc::Global;
use std::rc::Rc;

/// What typing asks of evaluation. Each call is counted, at the depth that `work` has, which is at most 2,001, and leaves the context as it was, whatever it answers. Coq Reference Manual, "Conversion rules" and "Subtyping rules".
pub trait Evaluator {
    /// The weak head normal form of a term.
    fn whnf(
        &mut self,
        alloc: Global,
        env: &Env,
        ctx: &Context,
        t: &Rc<Term>,
        work: &mut Work,
    ) -> Result<Rc<Term>, Stop>
        requires { work.old.depth ≤ 2001 }
        ensures answer { Counts shared_tree result (budget work.new) (whnf_from work.old.depth (items env.now) (context ctx.now) (shared_tree t.now) (budget work.old)) }
        ensures depth { work.new.depth ≡ work.old.depth }
        ensures rest { work.new.rest ≤ work.old.rest };

    /// The two are convertible, under the constraints that are found.
    fn conv(
        &mut self,
        alloc: Global,
        env: &Env,
        ctx: &mut Context,
        a: &Rc<Term>,
        b: &Rc<Term>,
        work: &mut Work,
    ) -> Result<(), Stop>
        requires { work.old.depth ≤ 2001 }
        ensures answer { Counts no_value result (budget work.new) (conv_from work.old.depth (items env.now) (context ctx.old) (shared_tree a.now) (shared_tree b.now) (budget work.old)) }
        ensures context { context ctx.new ≡ context ctx.old }
        ensures depth { work.new.depth ≡ work.old.depth }
        ensures rest { work.new.rest ≤ work.old.rest };

    /// The first is a subtype of the second, under the constraints that are found.
    fn cumul(
        &mut self,
        alloc: Global,
        env: &Env,
        ctx: &mut Context,
        a: &Rc<Term>,
        b: &Rc<Term>,
        work: &mut Work,
    ) -> Result<(), Stop>
        requires { work.old.depth ≤ 2001 }
        ensures answer { Counts no_value result (budget work.new) (cumul_from work.old.depth (items env.now) (context ctx.old) (shared_tree a.now) (shared_tree b.now) (budget work.old)) }
        ensures context { context ctx.new ≡ context ctx.old }
        ensures depth { work.new.depth ≡ work.old.depth }
        ensures rest { work.new.rest ≤ work.old.rest };
}
