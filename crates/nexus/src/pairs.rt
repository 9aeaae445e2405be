// The pairs of keys and names that a TRANSLATE command lists.
ghost use Rattle.std.specs.Prelude.{◌≡◌, ◌+◌, ◌*◌, ◌≤◌, length};
ghost use Rattle.trees.specs.Nexus.{most_keys};
ghost use Rattle.nexus.specs.Commands.{LabelAt, PairsAs, NoneOf, placed_pair};

use crate::tokens::Token;
use crate::{comments, tokens};

// How many keys a file may list: `most_keys` of crate trees.
pub(crate) const MOST_KEYS: usize = 64;

// Reads the pairs from `from` on, with commas between, and puts the places of each: where its key and its name begin and end.
// Answers how many there are; none where they are no pairs, or too many.
pub(crate) fn read_pairs(c: &[u8], from: usize, places: &mut [usize]) -> Option<usize>
    requires from_in_bounds { from ≤ length c.now }
    requires most_keys_in_bounds { 4 * most_keys ≤ length places.old }
    ensures pairs_as { PairsAs c.now from places.new result }
    ensures places_len_unchanged { length places.new ≡ length places.old }
{
    let mut at = from;
    for n in 0..MOST_KEYS {
        let key = tokens::first_token(c, at);
        let name = first_label(c, key.end);
        if is_none(key, name) {
            return None;
        }
        put_pair(places, n, key, name);
        let end = comments::skip(c, name.end);
        if end == c.len() {
            return Some(n + 1);
        }
        if c[end] != b',' {
            return None;
        }
        at = end + 1;
    }
    None
}

// The first label from `from` on, behind blanks and comments, with its quotes, if it has any; none, where what stands there is no label.
fn first_label(c: &[u8], from: usize) -> Token
    requires { from ≤ length c.now }
    ensures { LabelAt c.now from result }
{
    let at = comments::skip(c, from);
    if !text::has_byte(c, at, b'\'') {
        return Token {
            from: at,
            end: text::token_end(c, at),
        };
    }
    let end = text::quoted_end(c, at);
    if c.len() < end {
        return Token { from: at, end: at };
    }
    Token { from: at, end }
}

// Whether a key or its name is none.
fn is_none(key: Token, name: Token) -> bool
    ensures { NoneOf key name result }
{
    if key.from == key.end {
        return true;
    }
    name.from == name.end
}

// Puts the places of pair n.
fn put_pair(places: &mut [usize], n: usize, key: Token, name: Token)
    requires { 4 * n + 4 ≤ length places.old }
    ensures { places.new ≡ placed_pair places.old n key name }
{
    places[4 * n] = key.from;
    places[4 * n + 1] = key.end;
    places[4 * n + 2] = name.from;
    places[4 * n + 3] = name.end;
}
