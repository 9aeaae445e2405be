// Where a command ends.
ghost use Rattle.std.specs.Prelude.{◌≡◌, ◌≤◌, length};
ghost use Rattle.trees.specs.Plain.{every};
ghost use Rattle.nexus.specs.Places.{plain, PlainRun, PlainEnd, closing as closingOf, CommandEnd};

use crate::comments;

// The end of the command that begins at `from`: the place of its semicolon; the length, where none stands outside comments and quotes.
pub(crate) fn command_end(s: &[u8], from: usize) -> usize
    requires { from ≤ length s.now }
    ensures { CommandEnd s.now from result }
{
    let mut at = past_plain(s, from);
    // No range counts these places: each is behind a comment or a run in quotes.
    while at < s.len() {
        if s[at] == b';' {
            return at;
        }
        let end = comments::past_next(s, at + 1, closing(s[at]));
        if s.len() < end {
            return s.len();
        }
        at = past_plain(s, end);
    }
    at
}

// The byte that ends what b begins: a comment or a run in quotes.
fn closing(b: u8) -> u8
    ensures { result ≡ closingOf b }
{
    if b == b'[' {
        return b']';
    }
    b'\''
}

// Past the bytes from `from` on that neither end a command nor begin a comment or a run in quotes.
pub(crate) fn past_plain(s: &[u8], from: usize) -> usize
    requires { from ≤ length s.now }
    ensures { PlainEnd s.now from result }
{
    for at in past_blocks(s, from)..s.len() {
        if !is_plain(s[at]) {
            return at;
        }
    }
    s.len()
}

// Past the blocks of 64 such bytes from `from` on.
fn past_blocks(s: &[u8], from: usize) -> usize
    requires { from ≤ length s.now }
    ensures { PlainRun s.now from result }
{
    let mut at = from;
    // Not in chunks, since it is the place where the blocks end that is answered.
    while 64 <= s.len() - at {
        let all = all_plain(&s[at..at + 64]);
        if !all {
            return at;
        }
        at += 64;
    }
    at
}

// Whether all bytes of a block are such. All are looked at, without a branch, and each kind has a mark of its own, so that many are
// compared at once.
fn all_plain(block: &[u8]) -> bool
    ensures { result ≡ every plain block.now }
{
    let mut no_end = true;
    let mut no_comment = true;
    let mut no_quote = true;
    for b in block {
        if *b == b';' {
            no_end = false;
        }
        if *b == b'[' {
            no_comment = false;
        }
        if *b == b'\'' {
            no_quote = false;
        }
    }
    if !no_end {
        return false;
    }
    if !no_comment {
        return false;
    }
    no_quote
}

// Whether b neither ends a command nor begins a comment or a run in quotes.
fn is_plain(b: u8) -> bool
    ensures { result ≡ plain b }
{
    if b == b';' {
        return false;
    }
    if b == b'[' {
        return false;
    }
    b != b'\''
}
