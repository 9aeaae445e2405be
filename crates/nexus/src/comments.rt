// Blanks and comments, which read as blanks; where comments and quotes end.
ghost use Rattle.std.specs.Prelude.{◌≡◌, ◌≤◌, ◌<◌, length};
ghost use Rattle.nexus.specs.Places.{NextByte, CommentEnd, BlankEnd, Skipped};

// Past the next byte b from `from` on; 1 more than the length where there is none.
pub(crate) fn past_next(s: &[u8], from: usize, b: u8) -> usize
    requires { from ≤ length s.now }
    ensures { NextByte s.now b from result }
{
    for at in from..s.len() {
        if s[at] == b {
            return at + 1;
        }
    }
    s.len() + 1
}

// Past the comment whose bytes begin at `from`, behind its bracket; 1 more than the length where it never ends.
pub(crate) fn past_comment(s: &[u8], from: usize) -> usize
    requires { from ≤ length s.now }
    ensures { CommentEnd s.now from result }
{
    past_next(s, from, b']')
}

// Past the blanks and comments from `from` on. A comment that never ends is not passed: its bracket stands there.
pub(crate) fn skip(s: &[u8], from: usize) -> usize
    requires { from ≤ length s.now }
    ensures { Skipped s.now from result }
{
    let mut at = from;
    // No range counts these places: a comment is passed at once.
    while at < s.len() {
        let next = past_blank(s, at);
        if next == at {
            return at;
        }
        at = next;
    }
    at
}

// Past the blank or the comment at `at`; `at` where neither stands there.
fn past_blank(s: &[u8], at: usize) -> usize
    requires { at < length s.now }
    ensures { BlankEnd s.now at result }
{
    let b = s[at];
    if b == b'[' {
        let end = past_comment(s, at + 1);
        if s.len() < end {
            return at;
        }
        return end;
    }
    if text::is_blank(b) {
        return at + 1;
    }
    at
}
