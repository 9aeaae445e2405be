// The keys that a TRANSLATE command lists: whether one comes twice, and looking a token up.
//
// The pairs are n pairs of a token and a label of a list, by their places: four for each, where its key and its name begin and end.
ghost use Rattle.std.specs.Prelude.{◌≡◌, not, ◌+◌, ◌*◌, ◌≤◌, ◌<◌, length, get_or, drop};
ghost use Rattle.trees.specs.Plain.{same_bytes, in_names};
ghost use Rattle.trees.specs.Names.{different};
ghost use Rattle.trees.specs.NexusCall.{keys_of};
ghost use Rattle.head.specs.Index.{Indexed};
ghost use Rattle.nexus.specs.Places.{part};
ghost use Rattle.nexus.specs.Commands.{pairs_in, Placed};
ghost use Rattle.nexus.specs.Keys.{key_in, FoundAs};

use crate::tokens::Token;
use head::KEYS;

// Whether a key is listed twice.
pub(crate) fn repeats(list: &[u8], n: usize, places: &[usize]) -> bool
    requires { Placed list.now n places.now }
    ensures { result ≡ not (different (keys_of (pairs_in list.now n places.now))) }
{
    for i in 0..n {
        if comes_again(list, n, places, i) {
            return true;
        }
    }
    false
}

// Whether the key of pair i comes again behind it.
fn comes_again(list: &[u8], n: usize, places: &[usize], i: usize) -> bool
    requires placed { Placed list.now n places.now }
    requires i_lt_n { i < n }
    ensures { result ≡ in_names (key_in list.now places.now i) (drop (i + 1) (keys_of (pairs_in list.now n places.now))) }
{
    let k = key_at(places, i);
    for j in i + 1..n {
        if is_key(list, places, j, list, k.from, k.end) {
            return true;
        }
    }
    false
}

// Where the key of pair i stands.
fn key_at(places: &[usize], i: usize) -> Token
    requires { 4 * i + 4 ≤ length places.now }
    ensures { (result.from ≡ get_or places.now (4 * i) 0) × (result.end ≡ get_or places.now (4 * i + 1) 0) }
{
    Token {
        from: places[4 * i],
        end: places[4 * i + 1],
    }
}

// Where the name of pair i stands.
pub(crate) fn name_at(places: &[usize], i: usize) -> Token
    requires { 4 * i + 4 ≤ length places.now }
    ensures { (result.from ≡ get_or places.now (4 * i + 2) 0) × (result.end ≡ get_or places.now (4 * i + 3) 0) }
{
    Token {
        from: places[4 * i + 2],
        end: places[4 * i + 3],
    }
}

// Whether the key of pair i is the bytes of the text from b up to e.
fn is_key(list: &[u8], places: &[usize], i: usize, text: &[u8], b: usize, e: usize) -> bool
    requires i_in_bounds { 4 * i + 4 ≤ length places.now }
    requires i_bound { (get_or places.now (4 * i) 0 ≤ get_or places.now (4 * i + 1) 0) × (get_or places.now (4 * i + 1) 0 ≤ length list.now) }
    requires b_le_e { b ≤ e }
    requires e_in_bounds { e ≤ length text.now }
    ensures { result ≡ same_bytes (key_in list.now places.now i) (part b e text.now) }
{
    let k = key_at(places, i);
    let a = k.from;
    let z = k.end;
    if z - a != e - b {
        return false;
    }
    head::same_runs(list, a, z, text, b, e)
}

// Makes the index of the keys, whatever the two arrays held, from the last pair down to the first.
pub(crate) fn index_keys(
    list: &[u8],
    n: usize,
    places: &[usize],
    starts: &mut [u8; KEYS],
    links: &mut [u8; 64],
)
    requires { Placed list.now n places.now }
    ensures { Indexed (keys_of (pairs_in list.now n places.now)) starts.new links.new }
{
    *starts = [0; KEYS];
    *links = [0; 64];
    for i in (0..n).rev() {
        let t = key_at(places, i);
        let k = head::key_of(list, t.from, t.end);
        links[i] = starts[k];
        starts[k] = (i + 1) as u8;
    }
}

// The pair whose key is the bytes of the text from b up to e; none where they are no key.
pub(crate) fn find_key(
    list: &[u8],
    n: usize,
    places: &[usize],
    starts: &[u8; KEYS],
    links: &[u8; 64],
    text: &[u8],
    b: usize,
    e: usize,
) -> Option<usize>
    requires placed { Placed list.now n places.now }
    requires indexed { Indexed (keys_of (pairs_in list.now n places.now)) starts.now links.now }
    requires b_le_e { b ≤ e }
    requires e_in_bounds { e ≤ length text.now }
    ensures { FoundAs (keys_of (pairs_in list.now n places.now)) (part b e text.now) result }
{
    let k = head::key_of(text, b, e);
    let mut number = starts[k];
    // The links lead from pair to pair, in no range.
    while number != 0 {
        let i = (number - 1) as usize;
        if is_key(list, places, i, text, b, e) {
            return Some(i);
        }
        number = links[i];
    }
    None
}
