//! How a constraint that the numbers do not meet is met with a gap: what has to move, and where to.
ghost use Rattle.std.specs.Prelude.{◌≡◌, ℕ, ◌<◌, ◌≤◌, length, Contains, IfOk};
ghost use Rattle.univ_graph.specs.calls.Boards.{IsSound, at, number_bound};
ghost use Rattle.univ_nodes.specs.calls.Bands.{IsGap};
ghost use Rattle.univ_graph.specs.calls.Plans.{IsFoundBelow, IsFoundAbove, IsFoundPast, IsFitted, IsPlanned};

use crate::board::Board;
use crate::search::{Direction, Found};
use cic_names::NoMemory;
use std::alloc::Global;
use univ_nodes::{Gap, Places};

/// Numbers that move: those of `down` from the gap's low end on, and those of `up` from `middle` on, in the orders of
/// their ranks.
#[derive(Drop)]
pub struct Shift {
    pub gap: Gap,
    pub middle: u32,
    pub down: Places,
    pub down_ranks: Vec<u32>,
    pub up: Places,
    pub up_ranks: Vec<u32>,
}

/// What a try with a gap comes to.
#[derive(Drop)]
pub enum Attempt {
    FitsIntoGap(Shift),
    /// A way leads back from the right place to the left one.
    Met,
    /// There is too much to follow, or no room for it.
    Over,
}

/// How many edges may be followed downwards and upwards.
#[derive(Clone, Copy)]
pub struct Limits {
    pub down: usize,
    pub up: usize,
}

/// The place alone.
fn one_place(alloc: Global, place: usize) -> Result<Places, NoMemory>
    ensures has { IfOk result (λ p. Contains p place) }
    ensures only { IfOk result (λ p. (q : ℕ) → Contains p q → q ≡ place) }
{
    let mut places = Places::new(alloc);
    places.insert(place)?;
    Ok(places)
}

impl Board {
    /// What leads to the left place at numbers from `low` on.
    fn gather_down(
        &self,
        alloc: Global,
        left: usize,
        right: usize,
        low: u32,
        most: usize,
    ) -> Result<Found, NoMemory>
        requires sound { IsSound self.now }
        requires left { left < length self.now.numbers.items }
        requires other { left ≡ right → ⊥ }
        ensures { IfOk result (IsFoundBelow self.now left right low) }
    {
        if self.numbers[left] < low {
            return Ok(Found::Gathered(Places::new(alloc)));
        }
        let barred = one_place(alloc, right)?;
        let way = Direction {
            up: false,
            bound: low,
            most,
        };
        self.gather(alloc, left, way, &barred)
    }

    /// What is reached from the right place at numbers below `high`.
    fn gather_up(
        &self,
        alloc: Global,
        right: usize,
        high: u32,
        most: usize,
        barred: &Places,
    ) -> Result<Found, NoMemory>
        requires sound { IsSound self.now }
        requires right { 1 ≤ at self.now.numbers.items right }
        ensures { IfOk result (IsFoundAbove self.now right high barred.now) }
    {
        if barred.contains(right) {
            return Ok(Found::Met);
        }
        if self.numbers[right] >= high {
            return Ok(Found::Gathered(Places::new(alloc)));
        }
        let way = Direction {
            up: true,
            bound: high,
            most,
        };
        self.gather(alloc, right, way, barred)
    }

    /// The same, where what leads to the left place is barred, and the left place itself.
    fn gather_past(
        &self,
        alloc: Global,
        left: usize,
        right: usize,
        high: u32,
        most: usize,
        down: &Places,
    ) -> Result<Found, NoMemory>
        requires sound { IsSound self.now }
        requires right { 1 ≤ at self.now.numbers.items right }
        requires down { (p : ℕ) → Contains down.now p → Contains down.now left }
        ensures { IfOk result (IsFoundPast self.now left right high down.now) }
    {
        if down.len() != 0 {
            return self.gather_up(alloc, right, high, most, down);
        }
        let barred = one_place(alloc, left)?;
        self.gather_up(alloc, right, high, most, &barred)
    }

    /// The shift of what was gathered into the lower or the upper end of the gap, where there is room.
    fn fit(
        &self,
        alloc: Global,
        gap: Gap,
        at_end: bool,
        down: Places,
        up: Places,
    ) -> Result<Attempt, NoMemory>
        requires down { (p : ℕ) → Contains down p → p < length self.now.numbers.items }
        requires up { (p : ℕ) → Contains up p → p < length self.now.numbers.items }
        requires order { gap.low ≤ gap.high }
        requires bounded { gap.high ≤ number_bound }
        ensures { IfOk result (IsFitted self.now.numbers.items gap down up) }
    {
        let room = (gap.high - gap.low) as usize;
        if down.len() >= room || up.len() >= room || down.len() + up.len() + 2 > room {
            return Ok(Attempt::Over);
        }
        let (below, above) = (down.len() as u32 + 1, up.len() as u32 + 1);
        let low = if at_end {
            gap.high - below - above
        } else {
            gap.low
        };
        let middle = low + below;
        let gap = Gap {
            band: gap.band,
            low,
            high: middle + above,
        };
        let down_ranks = self.ranks_at(alloc, &down)?;
        let up_ranks = self.ranks_at(alloc, &up)?;
        Ok(Attempt::FitsIntoGap(Shift {
            gap,
            middle,
            down,
            down_ranks,
            up,
            up_ranks,
        }))
    }

    /// What has to move for a constraint between two places, into a gap.
    pub fn plan(
        &self,
        alloc: Global,
        left: usize,
        right: usize,
        gap: Gap,
        at_end: bool,
        limits: Limits,
    ) -> Result<Attempt, NoMemory>
        requires sound { IsSound self.now }
        requires left { left < length self.now.numbers.items }
        requires right { 1 ≤ at self.now.numbers.items right }
        requires other { left ≡ right → ⊥ }
        requires gap { IsGap self.now.bands.bands.items gap }
        ensures { IfOk result (IsPlanned self.now left right) }
    {
        let down = match self.gather_down(alloc, left, right, gap.low, limits.down)? {
            Found::Gathered(down) => down,
            Found::Met => return Ok(Attempt::Met),
            Found::Over => return Ok(Attempt::Over),
        };
        let found = self.gather_past(alloc, left, right, gap.high, limits.up, &down)?;
        let up = match found {
            Found::Gathered(up) => up,
            Found::Met => return Ok(Attempt::Met),
            Found::Over => return Ok(Attempt::Over),
        };
        self.fit(alloc, gap, at_end, down, up)
    }
}
