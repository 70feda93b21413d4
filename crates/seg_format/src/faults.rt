//! What is wrong with bytes that are no library file.
use crate::layout::Segment;

/// What is wrong at a place. The container has those up to `Digest`; the others are of what a segment holds.
#[derive(Clone, Copy, Debug, PartialEq, Eq)]
pub enum Defect {
    /// A field that is cut by an end; the place is that end.
    Short,
    Magic,
    Version,
    Kind,
    /// A number, a place or an end that does not fit the other segments.
    Layout,
    Digest { stated: [u8; 16], found: [u8; 16] },
    Tag,
    Number,
    Name,
    Order,
    Trailing,
    Depth,
}

/// The first defect of a library file. `place` counts the bytes of the file before it.
#[derive(Clone, Copy, Debug, PartialEq, Eq)]
pub struct BadFile {
    pub segment: Segment,
    pub defect: Defect,
    pub place: u32,
}
