//! Where a comment ends.
ghost use Rattle.std.specs.Prelude.{◌≡◌, ◌≤◌, length, IfSome, option_copied};
ghost use Rattle.gal_lexer.specs.Comments.{begins_comment};
ghost use Rattle.gal_lexer.specs.calls.Scans.{comment_end};

pub fn begins_comment(text: &[u8]) -> bool
    ensures { result ≡ begins_comment text.now }
{
    matches!(text, [b'(', b'*', ..])
}

/// What is left of the text, which stands behind the opening of a comment, behind its closing. How
/// many comments are open is counted, so they nest without limit.
pub fn after_comment(text: &[u8]) -> Option<&[u8]>
    ensures value { option_copied result ≡ comment_end 1 0 text.now }
    ensures shorter { IfSome result (λ r. length r.now ≤ length text.now) }
{
    let mut rest = text;
    let mut open: usize = 1;
    let mut last = 0;
    while let Some((byte, after)) = rest.split_first() {
        rest = after;
        if last == b'(' && *byte == b'*' {
            open += 1;
            last = 0;
        } else if last == b'*' && *byte == b')' {
            if open == 1 {
                return Some(after);
            }
            open -= 1;
            last = 0;
        } else {
            last = *byte;
        }
    }
    None
}
