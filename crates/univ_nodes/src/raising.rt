//! Numbers that are raised, and numbers put close together.
ghost use Rattle.std.specs.Prelude.{◌≡◌, ℕ, ◌+◌, ◌^◌, ◌<◌, ◌≤◌, length, IfOk};
ghost use Rattle.univ_nodes.specs.calls.Bands.{AreClose, center};
ghost use Rattle.univ_nodes.specs.Limits.{level_limit};
ghost use Rattle.univ_nodes.specs.calls.Numbered.{at};
ghost use Rattle.univ_nodes.specs.calls.Raised.{raised, all_raised, number_bound, AreInOrder};

use crate::bands::CENTER;
use memory::NoMemory;
use std::alloc::Global;

fn raised_number(least: u32, number: u32, mark: u8) -> u32
    requires { number + least < 2 ^ 32 }
    ensures { result ≡ raised least number mark }
{
    match mark {
        0 => number,
        1 => number.max(least),
        _ => number + least,
    }
}

/// The numbers, raised where the places are marked.
pub fn raise(alloc: Global, numbers: &[u32], marks: &[u8], least: u32) -> Result<Vec<u32>, NoMemory>
    requires lengths { length marks.now ≡ length numbers.now }
    requires bounded { (p : ℕ) → at numbers.now p ≤ number_bound }
    requires least { least ≤ number_bound + 1 }
    ensures { IfOk result (λ v. v.items ≡ all_raised least numbers.now marks.now) }
{
    let mut raised = Vec::new(alloc);
    for i in 0..numbers.len() {
        if raised
            .push(raised_number(least, numbers[i], marks[i]))
            .is_err()
        {
            return Err(NoMemory);
        }
    }
    Ok(raised)
}

/// For each number how many are less.
pub fn ranks(alloc: Global, numbers: &[u32]) -> Result<Vec<u32>, NoMemory>
    requires { length numbers.now ≤ number_bound }
    ensures order { IfOk result (λ v. AreInOrder numbers.now v.items) }
    ensures bounded { IfOk result (λ v. (p : ℕ) → at v.items p ≤ length numbers.now) }
{
    let Ok(mut sorted) = Vec::from_slice(alloc, numbers) else {
        return Err(NoMemory);
    };
    if sorted.sort().is_err() {
        return Err(NoMemory);
    }
    let mut ranks = Vec::new(alloc);
    for n in numbers {
        let rank = sorted.as_slice().partition_point(|x| *x < *n);
        if ranks.push(rank as u32).is_err() {
            return Err(NoMemory);
        }
    }
    Ok(ranks)
}

fn close_number(rank: u32) -> u32
    requires { rank ≤ level_limit }
    ensures none { rank ≡ 0 → result ≡ 0 }
    ensures some { 1 ≤ rank → result ≡ rank + center }
{
    if rank == 0 {
        return 0;
    }
    rank + CENTER
}

/// Numbers in the same order that are 0 or close together.
pub fn close(alloc: Global, numbers: &[u32]) -> Result<Vec<u32>, NoMemory>
    requires { length numbers.now ≤ level_limit }
    ensures order { IfOk result (λ v. AreInOrder numbers.now v.items) }
    ensures close { IfOk result (λ v. AreClose v.items) }
{
    let mut ranks = ranks(alloc, numbers)?;
    for i in 0..ranks.len() {
        ranks[i] = close_number(ranks[i]);
    }
    Ok(ranks)
}
