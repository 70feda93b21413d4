//! What stands at the places of a graph, as plain numbers: bands of numbers, numbers that are raised or put close together, lists of edges, and sets of places.
#![tactic(auto)]

mod bands;
mod lists;
mod place_set;
mod raising;

pub use bands::{BAND_LIMIT, Band, Bands, Gap, band_of};
pub use lists::EdgeLists;
pub use place_set::Places;
pub use raising::{close, raise, ranks};
