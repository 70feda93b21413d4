//! The kinds of library files and the segments that each has.

/// What a library file is: the whole of a library, its interface, or its proofs' constraints.
#[derive(Clone, Copy, Debug, PartialEq, Eq)]
pub enum Kind {
    /// All that a full compilation stores.
    Vo,
    /// The interface alone.
    Vos,
    /// The constraints of opaque proofs alone.
    Vok,
}

/// A part of a library file. The head and the table only name a place of a defect.
#[derive(Clone, Copy, Debug, PartialEq, Eq)]
pub enum Segment {
    Head,
    Table,
    Summary,
    Library,
    Proofs,
    Opaques,
}

impl Kind {
    ghost use Rattle.std.specs.Prelude.{◌≡◌, ◌≤◌, length};
    ghost use Rattle.seg_format.specs.Files.{segments_of, kind_number, first_place};
    ghost use Rattle.seg_format.specs.Defects.{kind_of};

    /// The segments of a file of this kind, in order.
    pub fn segments(self) -> &'static [Segment]
        ensures segments { result.now ≡ segments_of self }
        ensures few { length result.now ≤ 4 }
    {
        match self {
            Kind::Vo => &[
                Segment::Summary,
                Segment::Library,
                Segment::Proofs,
                Segment::Opaques,
            ],
            Kind::Vos => &[Segment::Summary, Segment::Library],
            Kind::Vok => &[Segment::Summary, Segment::Proofs],
        }
    }

    /// The place of the first segment, after the head and the table.
    pub fn first_place(self) -> u32
        ensures { result ≡ first_place self }
    {
        match self {
            Kind::Vo => 16 + 28 * 4,
            Kind::Vos | Kind::Vok => 16 + 28 * 2,
        }
    }

    /// The number by which a file names this kind.
    pub fn number(self) -> u32
        ensures { result ≡ kind_number self }
    {
        match self {
            Kind::Vo => 1,
            Kind::Vos => 2,
            Kind::Vok => 3,
        }
    }

    /// The kind that a number names.
    pub fn of_number(number: u32) -> Option<Kind>
        ensures { result ≡ kind_of number }
    {
        match number {
            1 => Some(Kind::Vo),
            2 => Some(Kind::Vos),
            3 => Some(Kind::Vok),
            _ => None,
        }
    }
}

impl Segment {
    ghost use Rattle.std.specs.Prelude.{◌≡◌};
    ghost use Rattle.seg_format.specs.Files.{segment_number};

    /// The number by which a table names this segment; head and table have 0.
    pub fn number(self) -> u32
        ensures { result ≡ segment_number self }
    {
        match self {
            Segment::Head | Segment::Table => 0,
            Segment::Summary => 1,
            Segment::Library => 2,
            Segment::Proofs => 3,
            Segment::Opaques => 4,
        }
    }
}
