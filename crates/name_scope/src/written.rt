//! Qualified names as they are written: identifiers between dots.
ghost use Rattle.std.specs.Prelude.{◌≡◌, ◌∷◌, [], ◌<◌, ◌≤◌, ◌+◌, length, take, drop, MatchOption};
ghost use Rattle.gal_scoping.specs.Names.{words_of};

/// A library, and a name in it.
#[derive(Clone, Copy, Drop)]
pub(crate) struct Parts<'a> {
    pub(crate) library: &'a [u8],
    pub(crate) name: &'a [u8],
}

/// The place of the first dot, or the length where there is none.
fn dot_place(text: &[u8]) -> usize
    ensures dot { result < length text.now → words_of text.now ≡ take result text.now ∷ words_of (drop (result + 1) text.now) }
    ensures end { length text.now ≤ result → words_of text.now ≡ text.now ∷ [] }
{
    let mut place = 0;
    while place < text.len() && text[place] != b'.' {
        place += 1;
    }
    place
}

/// The first identifier, and what stands behind its dot.
pub(crate) fn cut_at_dot(text: &[u8]) -> Option<(&[u8], &[u8])>
    ensures { MatchOption result (words_of text.now ≡ text.now ∷ []) (λ p. words_of text.now ≡ p.0.now ∷ words_of p.1.now) }
{
    let place = dot_place(text);
    if place < text.len() {
        Some((&text[..place], &text[place + 1..]))
    } else {
        None
    }
}
