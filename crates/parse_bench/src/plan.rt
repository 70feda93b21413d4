//! How a source is made of a few texts.
use std::alloc::Global;

/// So many times the front, openings, what stands inside them, as many closings, and the back.
#[derive(Clone, Copy)]
pub(crate) struct Plan {
    pub(crate) front: &'static str,
    pub(crate) opening: &'static str,
    pub(crate) inside: &'static str,
    pub(crate) closing: &'static str,
    pub(crate) back: &'static str,
    pub(crate) depth: usize,
    pub(crate) times: usize,
}

/// Puts the text behind the source so many times.
fn put(source: &mut Vec<u8>, text: &str, count: usize) -> anyhow::Result<()> {
    for _ in 0..count {
        source.extend_from_slice(text.as_bytes())?;
    }
    Ok(())
}

impl Plan {
    pub(crate) fn source(&self, alloc: Global) -> anyhow::Result<Vec<u8>> {
        let mut source = Vec::new(alloc);
        for _ in 0..self.times {
            put(&mut source, self.front, 1)?;
            put(&mut source, self.opening, self.depth)?;
            put(&mut source, self.inside, 1)?;
            put(&mut source, self.closing, self.depth)?;
            put(&mut source, self.back, 1)?;
        }
        Ok(source)
    }
}
