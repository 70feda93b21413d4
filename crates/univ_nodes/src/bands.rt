//! Numbers in bands, so that there are free numbers below and above those that are used.
ghost use Rattle.std.specs.Prelude.{ℕ, ◌≡◌, ◌⊎◌, ◌+◌, ◌/◌, ◌^◌, ◌<◌, ◌≤◌, ◌∷◌, [], List, length, IfOk, OnOk, OnErr};
ghost use Rattle.univ_nodes.specs.calls.Numbered.{at};
ghost use Rattle.univ_nodes.specs.calls.Bands.{AreBands, IsGap, AreMovedInto, AreClose, band_limit};

use memory::NoMemory;
use std::alloc::Global;

/// How many numbers a band has.
const WIDTH: u32 = 1 << 21;

/// How many bands there are at most.
pub const BAND_LIMIT: usize = 1 << 9;

/// The least number of the middle of the first band after the one of new levels.
pub const CENTER: u32 = WIDTH + WIDTH / 4;

/// The used part of a band: from `floor` on, below `ceiling`.
#[derive(Clone, Copy)]
pub struct Band {
    pub floor: u32,
    pub ceiling: u32,
}

/// The bands in order. The first one has the numbers of Set and of new levels.
#[derive(Drop)]
pub struct Bands {
    pub bands: Vec<Band>,
}

/// Numbers of a band that no level has: from `low` on, below `high`.
#[derive(Clone, Copy)]
pub struct Gap {
    pub band: usize,
    pub low: u32,
    pub high: u32,
}

/// The band of a number.
pub fn band_of(number: u32) -> usize
    ensures { result ≡ number / 2 ^ 21 }
{
    (number / WIDTH) as usize
}

impl Bands {
    /// The bands of these two parts.
    fn of_two(alloc: Global, second: Band) -> Result<Bands, NoMemory>
        ensures { IfOk result (λ b. b.bands.items ≡ record { floor = 0; ceiling = 2 } ∷ second ∷ []) }
    {
        let mut bands = Vec::new(alloc);
        let first = Band {
            floor: 0,
            ceiling: 2,
        };
        if bands.push(first).is_err() {
            return Err(NoMemory);
        }
        match bands.push(second) {
            Ok(()) => Ok(Bands { bands }),
            Err(_) => Err(NoMemory),
        }
    }

    /// The bands of the number of Set alone.
    pub fn new(alloc: Global) -> Result<Bands, NoMemory>
        ensures { IfOk result (λ b. AreBands b.bands.items (0 ∷ [])) }
    {
        let middle = WIDTH + WIDTH / 2;
        Bands::of_two(
            alloc,
            Band {
                floor: middle,
                ceiling: middle,
            },
        )
    }

    /// The bands of numbers that are 0 or close together.
    pub fn of_close(alloc: Global) -> Result<Bands, NoMemory>
        ensures { (numbers : List ℕ) → AreClose numbers → IfOk result (λ b. AreBands b.bands.items numbers) }
    {
        Bands::of_two(
            alloc,
            Band {
                floor: CENTER,
                ceiling: CENTER + WIDTH / 2 + 1,
            },
        )
    }

    /// The numbers of a band above the used ones.
    pub fn above(&self, band: usize) -> Gap
        requires within { band < length self.now.bands.items }
        requires bands { (numbers : List ℕ) × AreBands self.now.bands.items numbers }
        ensures gap { IsGap self.now.bands.items result }
        ensures band { result.band ≡ band }
    {
        Gap {
            band,
            low: self.bands[band].ceiling,
            high: (band as u32 + 1) * WIDTH,
        }
    }

    /// The numbers of a band below the used ones.
    pub fn below(&self, band: usize) -> Gap
        requires within { band < length self.now.bands.items }
        requires later { 1 ≤ band }
        requires bands { (numbers : List ℕ) × AreBands self.now.bands.items numbers }
        ensures gap { IsGap self.now.bands.items result }
        ensures band { result.band ≡ band }
    {
        Gap {
            band,
            low: band as u32 * WIDTH,
            high: self.bands[band].floor,
        }
    }

    /// One more band, which has no number yet.
    pub fn add(&mut self) -> Result<(), NoMemory>
        requires { length self.old.bands.items < band_limit }
        ensures bands { (numbers : List ℕ) → AreBands self.old.bands.items numbers → AreBands self.new.bands.items numbers }
        ensures more { OnOk result (length self.new.bands.items ≡ length self.old.bands.items + 1) }
        ensures same { OnErr result (self.new.bands.items ≡ self.old.bands.items) }
    {
        let middle = self.bands.len() as u32 * WIDTH + WIDTH / 2;
        let band = Band {
            floor: middle,
            ceiling: middle,
        };
        match self.bands.push(band) {
            Ok(()) => Ok(()),
            Err(_) => Err(NoMemory),
        }
    }

    /// Counts the numbers of a gap as used.
    pub fn cover(&mut self, gap: &Gap)
        requires { IsGap self.old.bands.items gap.now }
        ensures { (before after : List ℕ) → AreBands self.old.bands.items before → AreMovedInto gap.now.low gap.now.high before after → AreBands self.new.bands.items after }
    {
        let band = &mut self.bands[gap.band];
        band.floor = band.floor.min(gap.low);
        band.ceiling = band.ceiling.max(gap.high);
    }
}
