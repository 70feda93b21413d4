//! The segments of a library file before they are packed.
ghost use Rattle.std.specs.Prelude.{◌≡◌, ◌+◌, ◌*◌, ◌-◌, ◌≤◌, ◌<◌, ◌^◌, ◌++◌, length, take, slice_index};
ghost use Rattle.seg_format.specs.Files.{digested, opaques_head};
ghost use Rattle.md5.specs.Md5.{md5};

use crate::layout::Segment;
use md5::{Digest, Md5};

/// The bytes of the segments of a library file. A file of a kind that has not all of them leaves the others out.
#[derive(Clone, Copy, Debug)]
pub struct Packed<'b> {
    pub summary: &'b [u8],
    pub library: &'b [u8],
    pub proofs: &'b [u8],
    pub opaques_head: &'b [u8],
    pub opaques_bodies: &'b [u8],
}

/// The bytes of a segment in two pieces, one after the other.
#[derive(Clone, Copy, Debug)]
pub(crate) struct Pieces<'b> {
    pub(crate) front: &'b [u8],
    pub(crate) rest: &'b [u8],
}

impl<'b> Packed<'b> {
    ghost use Rattle.seg_format.specs.calls.Packing.{segment_of};

    /// The bytes of a segment; head and table have none here.
    pub(crate) fn pieces(&self, segment: Segment) -> Pieces<'b>
        ensures { result.front.now ++ result.rest.now ≡ segment_of self.now segment }
    {
        match segment {
            Segment::Head | Segment::Table => Pieces {
                front: &[],
                rest: &[],
            },
            Segment::Summary => Pieces {
                front: self.summary,
                rest: &[],
            },
            Segment::Library => Pieces {
                front: self.library,
                rest: &[],
            },
            Segment::Proofs => Pieces {
                front: self.proofs,
                rest: &[],
            },
            Segment::Opaques => Pieces {
                front: self.opaques_head,
                rest: self.opaques_bodies,
            },
        }
    }
}

impl Pieces<'_> {
    /// The length of both in bytes.
    pub(crate) fn len(&self) -> usize
        requires { length self.now.front.now + length self.now.rest.now < 2 ^ 64 }
        ensures { result ≡ length (self.now.front.now ++ self.now.rest.now) }
    {
        self.front.len() + self.rest.len()
    }

    /// The byte at a place.
    fn byte(&self, place: usize) -> u8
        requires { place < length self.now.front.now + length self.now.rest.now }
        ensures { result ≡ slice_index (self.now.front.now ++ self.now.rest.now) place }
    {
        if place < self.front.len() {
            return self.front[place];
        }
        self.rest[place - self.front.len()]
    }

    /// How many bytes the head of the opaques has, of which these are all.
    fn opaques_head_len(&self) -> usize
        requires { length self.now.front.now + length self.now.rest.now < 2 ^ 32 }
        ensures within { result ≤ length self.now.front.now + length self.now.rest.now }
        ensures head { take result (self.now.front.now ++ self.now.rest.now) ≡ opaques_head (self.now.front.now ++ self.now.rest.now) }
    {
        let all = self.len();
        if all < 4 {
            return all;
        }
        let count = u32::from_be_bytes([self.byte(0), self.byte(1), self.byte(2), self.byte(3)]);
        (4 + 24 * count as usize).min(all)
    }

    /// The digest of a segment, of which these are all bytes.
    pub(crate) fn digest(&self, segment: Segment) -> [u8; 16]
        requires { length self.now.front.now + length self.now.rest.now < 2 ^ 32 }
        ensures { result ≡ md5 (digested segment (self.now.front.now ++ self.now.rest.now)) }
    {
        match segment {
            Segment::Opaques => self.digest_of_first(self.opaques_head_len()),
            _ => self.digest_of_first(self.len()),
        }
    }

    /// The digest of the first bytes.
    fn digest_of_first(&self, end: usize) -> [u8; 16]
        requires { end ≤ length self.now.front.now + length self.now.rest.now }
        ensures { result ≡ md5 (take end (self.now.front.now ++ self.now.rest.now)) }
    {
        let mut hasher = Md5::new();
        if end <= self.front.len() {
            hasher.update(&self.front[..end]);
        } else {
            hasher.update(self.front);
            hasher.update(&self.rest[..end - self.front.len()]);
        }
        hasher.finalize()
    }
}
