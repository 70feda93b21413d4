//! Terms and declarations of each kind, printed, and terms of the greatest depth, on the stack that every program has.
#![tactic(auto)]

mod blocks;
mod declarations;
mod samples;
mod towers;

fn main(rt: HostRuntime) -> anyhow::Result<()> {
    let alloc = rt.alloc();
    let maker = kernel_samples::Maker { alloc };
    let env = blocks::environment(maker)?;
    samples::print_rows(&rt, maker, &env)?;
    declarations::print_rows(&rt, maker, &env)?;
    towers::print_rows(&rt, maker, &env)
}
