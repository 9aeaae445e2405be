// What a command is: a block's beginning or end, a tree's line. A command is lent without its semicolon, comments and quotes and all.
ghost use Rattle.std.specs.Prelude.{◌≡◌, false};
ghost use Rattle.trees.specs.Text.{open_after};
ghost use Rattle.trees.specs.Nexus.{uncommented};
ghost use Rattle.trees.specs.NexusReading.{ends_other, is_end};
ghost use Rattle.nexus.specs.Commands.{BegunAs, WordAt, WordEnd, LineAs, LineMoves};

use crate::{comments, tokens};

// What a command outside the blocks begins.
#[derive(Clone, Copy)]
pub(crate) enum Begun {
    Other,
    Trees,
    Wrong,
}

// What a command outside the blocks begins: BEGIN, and a block's name.
pub(crate) fn block_begun(c: &[u8]) -> Begun
    ensures { BegunAs c.now result }
{
    let w = tokens::first_token(c, 0);
    if !tokens::is_word(c, w.from, w.end, b"BEGIN") {
        return Begun::Wrong;
    }
    let x = tokens::first_token(c, w.end);
    if x.from == x.end {
        return Begun::Wrong;
    }
    if comments::skip(c, x.end) < c.len() {
        return Begun::Wrong;
    }
    if tokens::is_word(c, x.from, x.end, b"TREES") {
        return Begun::Trees;
    }
    Begun::Other
}

// Whether a command of another block ends it: its last token is END. Quotes are paired in a command.
pub(crate) fn ends_other(c: &[u8]) -> bool
    requires { open_after false (uncommented false c.now) ≡ false }
    ensures { result ≡ ends_other (uncommented false c.now) }
{
    let mut at = comments::skip(c, 0);
    // No range counts these places: each is behind a token and what may follow it.
    while at < c.len() {
        let end = text::token_end(c, at);
        if tokens::is_word(c, at, end, b"END") {
            if comments::skip(c, end) == c.len() {
                return true;
            }
        }
        at = comments::skip(c, past_word(c, at, end));
    }
    false
}

// Past the token from `at` up to `end`, or past the run in quotes or the one byte that stands there; the length, behind a comment that
// never ends.
fn past_word(c: &[u8], at: usize, end: usize) -> usize
    requires { WordAt c.now at end }
    ensures { WordEnd c.now at result }
{
    if at < end {
        return end;
    }
    if c[at] == b'[' {
        return c.len();
    }
    if c[at] == b'\'' {
        return comments::past_next(c, at + 1, b'\'');
    }
    at + 1
}

// Where the text of the tree begins that a command gives, behind its `=`; none where it gives none.
fn text_from(c: &[u8]) -> Option<usize>
    ensures { LineAs c.now result }
{
    let w = tokens::first_token(c, 0);
    if !tokens::is_word(c, w.from, w.end, b"TREE") {
        return None;
    }
    let name = comments::skip(c, w.end);
    let end = tokens::name_end(c, name);
    if end == name {
        return None;
    }
    let equals = comments::skip(c, end);
    if !text::has_byte(c, equals, b'=') {
        return None;
    }
    Some(equals + 1)
}

// Whether a command ends the TREES block: END alone.
fn is_end(c: &[u8]) -> bool
    ensures { result ≡ is_end (uncommented false c.now) }
{
    let w = tokens::first_token(c, 0);
    if !tokens::is_word(c, w.from, w.end, b"END") {
        return false;
    }
    comments::skip(c, w.end) == c.len()
}

// A command of the TREES block behind its list: its end, a tree with the place of its text, or wrong.
#[derive(Clone, Copy)]
pub(crate) enum Line {
    End,
    Text(usize),
    Wrong,
}

// What a command of the TREES block is, behind its list.
pub(crate) fn read_line(c: &[u8]) -> Line
    ensures { LineMoves c.now result }
{
    if is_end(c) {
        return Line::End;
    }
    let Some(from) = text_from(c) else {
        return Line::Wrong;
    };
    Line::Text(from)
}
