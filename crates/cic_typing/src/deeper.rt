//! Calls one deeper.

/// A call one deeper, whose stop is this one's. The depth is put back before.
macro_rules! deeper {
    ($work:expr, $call:expr) => {{
        $work.depth += 1;
        let answer = $call;
        $work.depth -= 1;
        answer?
    }};
}

pub(crate) use deeper;
