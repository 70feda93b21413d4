//! A place of a source, with its line and what stands before it on that line.
ghost use Rattle.std.specs.Prelude.{◌≡◌, ◌≤◌, ◌<◌, ◌+◌, ◌^◌, length};
ghost use Rattle.gal_lines.specs.Lines.{is_line_feed};
ghost use Rattle.gal_lines.specs.calls.Cursors.{IsAt, moved};

/// A place, the line feeds before it, and the bytes behind the last of these.
#[derive(Clone, Copy, Drop)]
pub(crate) struct Cursor {
    pub at: usize,
    pub feeds: usize,
    pub column: usize,
}

/// One byte further.
fn behind(cursor: Cursor, byte: u8) -> Cursor
    requires at { cursor.at < 2 ^ 32 }
    requires feeds { cursor.feeds ≤ cursor.at }
    requires column { cursor.column ≤ cursor.at }
    ensures { result ≡ moved cursor byte }
{
    if byte == b'\n' {
        Cursor {
            at: cursor.at + 1,
            feeds: cursor.feeds + 1,
            column: 0,
        }
    } else {
        Cursor {
            at: cursor.at + 1,
            feeds: cursor.feeds,
            column: cursor.column + 1,
        }
    }
}

impl Cursor {
    /// The source's first byte.
    pub fn start(source: &[u8]) -> Cursor
        ensures at { IsAt source.now result }
        ensures start { result.at ≡ 0 }
    {
        let _length = source.len();
        Cursor {
            at: 0,
            feeds: 0,
            column: 0,
        }
    }

    /// The place further on.
    #[tactic(auto, using(crate::proofs::Cursors::one_further))]
    pub fn forward(self, source: &[u8], to: usize) -> Cursor
        requires at { IsAt source.now self }
        requires ahead { self.at ≤ to }
        requires within { to ≤ length source.now }
        requires short { length source.now < 2 ^ 32 }
        ensures at { IsAt source.now result }
        ensures there { result.at ≡ to }
    {
        let mut cursor = self;
        while cursor.at < to {
            cursor = behind(cursor, source[cursor.at]);
        }
        cursor
    }
}
