//! The table of a library file.
ghost use Rattle.std.specs.Prelude.{◌≡◌, ◌+◌, ◌*◌, ◌-◌, ◌≤◌, length, min, nat_le, IsTrue, IsSome, Some, None, OnOk, IfOk, IfErr, IfSome};
ghost use Rattle.std.specs.List.{list_all};
ghost use Rattle.seg_format.specs.Files.{first_place};

use crate::faults::{BadFile, Defect};
use crate::fields::judge;
use crate::front::Head;
use crate::layout::{Kind, Segment};
use crate::rows::Row;
use arrayvec::ArrayVec;

/// The table of a library file: a row for each segment of its kind, in order.
#[derive(Drop)]
pub struct Table {
    pub kind: Kind,
    pub rows: ArrayVec<Row, 4>,
    pub ghost after_table: { IsTrue (list_all (λ row. nat_le (first_place kind) row.place) rows.items) },
}

impl Head {
    ghost use Rattle.seg_format.specs.Files.{segments_of};
    ghost use Rattle.seg_format.specs.Defects.{first_unmet, table_demands, rows_at};

    /// Judges the table of the file of this head. `bytes` are those of the file from byte 16 on, up to the end of the
    /// table, or to the file's end where that comes first; bytes after them are not looked at.
    pub fn table(&self, bytes: &[u8]) -> Result<Table, BadFile>
        requires reaches { min (28 * length (segments_of self.now.kind)) (self.now.size - 16) ≤ length bytes.now }
        ensures passes { OnOk result (first_unmet (table_demands self.now.size 16 (first_place self.now.kind) (segments_of self.now.kind) bytes.now) ≡ None) }
        ensures kind { IfOk result (λ table. table.kind ≡ self.now.kind) }
        ensures rows { IfOk result (λ table. table.rows.items ≡ rows_at (segments_of self.now.kind) bytes.now) }
        ensures fault { IfErr result (λ fault. first_unmet (table_demands self.now.size 16 (first_place self.now.kind) (segments_of self.now.kind) bytes.now) ≡ Some fault) }
    {
        let segments = self.kind.segments();
        let mut rows = ArrayVec::new();
        let mut start = u64::from(self.kind.first_place());
        'rows: for (i, segment) in segments.iter().enumerate() {
            let row = Row::of(
                *segment,
                self.size,
                16 + 28 * i as u32,
                start,
                &bytes[28 * i..],
            )?;
            start += u64::from(row.length);
            rows.push(row);
        }
        judge(
            start == u64::from(self.size),
            Segment::Table,
            Defect::Layout,
            self.size,
        )?;
        Ok(Table {
            kind: self.kind,
            rows,
        })
    }
}

impl Table {
    ghost use Rattle.seg_format.specs.calls.Rows.{row_of, LendsRow, RowFails};

    /// The row of a segment, if files of this kind have it.
    pub fn row(&self, segment: Segment) -> Option<Row>
        ensures { result ≡ row_of self.now.rows.items segment }
    {
        'rows: for row in self.rows.as_slice() {
            if row.segment.number() == segment.number() {
                return Some(*row);
            }
        }
        None
    }

    /// Lends a segment that the table has from the bytes of the file that start with its first segment.
    pub fn lend<'b>(&self, segment: Segment, range: &'b [u8]) -> Result<&'b [u8], BadFile>
        requires has { IsSome (row_of self.now.rows.items segment) }
        requires reaches { IfSome (row_of self.now.rows.items segment) (λ row. row.place + row.length ≤ first_place self.now.kind + length range.now) }
        ensures lent { IfOk result (λ lent. IfSome (row_of self.now.rows.items segment) (λ row. LendsRow row (first_place self.now.kind) range.now lent.now)) }
        ensures fault { IfErr result (λ fault. IfSome (row_of self.now.rows.items segment) (λ row. RowFails row (first_place self.now.kind) range.now fault)) }
    {
        let row = self.row(segment).unwrap();
        row.lend(self.kind.first_place(), range)
    }
}
