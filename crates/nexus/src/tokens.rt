// Tokens and keywords.
ghost use Rattle.std.specs.Prelude.{◌≡◌, map, ◌≤◌, length};
ghost use Rattle.trees.specs.Plain.{same_bytes};
ghost use Rattle.trees.specs.Nexus.{capital as capitalOf, is_name_byte};
ghost use Rattle.nexus.specs.Places.{part, TokenAt, NameEnd};

use crate::comments;

// The place of a token or a label: its bytes from `from` up to `end`; none, where they are the same.
#[derive(Clone, Copy)]
pub(crate) struct Token {
    pub from: usize,
    pub end: usize,
}

// The first token from `from` on, behind blanks and comments.
pub(crate) fn first_token(s: &[u8], from: usize) -> Token
    requires { from ≤ length s.now }
    ensures { TokenAt s.now from result }
{
    let at = comments::skip(s, from);
    Token {
        from: at,
        end: text::token_end(s, at),
    }
}

// Whether the bytes of s from b up to e are the keyword k, in any case.
pub(crate) fn is_word(s: &[u8], b: usize, e: usize, k: &[u8]) -> bool
    requires b_le_e { b ≤ e }
    requires e_in_bounds { e ≤ length s.now }
    ensures { result ≡ same_bytes (map capitalOf (part b e s.now)) k.now }
{
    if e - b != k.len() {
        return false;
    }
    for i in 0..k.len() {
        if capital(s[b + i]) != k[i] {
            return false;
        }
    }
    true
}

// A small letter as a capital.
fn capital(b: u8) -> u8
    ensures { result ≡ capitalOf b }
{
    if b < b'a' {
        return b;
    }
    if b'z' < b {
        return b;
    }
    b - 32
}

// Past the bytes of a tree's name from `from` on.
pub(crate) fn name_end(s: &[u8], from: usize) -> usize
    requires { from ≤ length s.now }
    ensures { NameEnd s.now from result }
{
    for at in from..s.len() {
        if !is_name_byte(s[at]) {
            return at;
        }
    }
    s.len()
}

// Whether b may stand in a tree's name: a label byte but `=`.
fn is_name_byte(b: u8) -> bool
    ensures { result ≡ is_name_byte b }
{
    if b == b'=' {
        return false;
    }
    text::is_label_byte(b)
}
