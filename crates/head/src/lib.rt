// The head of a store, its first 4,096 bytes: the opening's numbers and constants, and the search
// for the taxon that a leaf label names.
//
// Its contracts cite `specs/Head.antt` (`numbers_at`, `names_at`) and `specs/Index.antt` (`Indexed`,
// `found_of`); crate trees, `specs/Names.antt`, says what `taxon_of` is. The laws that callers use
// stand in `HeadLaws` and `FindLaws`.
#![tactic(auto)]

ghost use Rattle.std.specs.Prelude.{◌≡◌, ◌+◌, ◌*◌, ◌%◌, ◌^◌, ◌<◌, ◌≤◌, length, slice_index};
ghost use Rattle.std.proofs.Math.Seq.{slice};
ghost use Rattle.trees.specs.Opening.{head_bytes};
ghost use Rattle.trees.specs.Plain.{same_bytes};
ghost use Rattle.trees.specs.Names.{taxon_from, taxon_of};
ghost use Rattle.fields.specs.Field.{number};
ghost use Rattle.head.specs.Head.{numbers_at, name_at, names_at};
ghost use Rattle.head.specs.Index.{keys, key, Indexed, found_of, Below};

use answers::Taxon;

// The number of taxa.
pub fn taxa(s: &[u8]) -> u32
    requires { head_bytes ≤ length s.now }
    ensures value { result ≡ (numbers_at s.now).taxa }
    ensures upper_bound { result < 65536 }
{
    number16(s, 0)
}

// The number of lanes.
pub fn lanes(s: &[u8]) -> u32
    requires { head_bytes ≤ length s.now }
    ensures value { result ≡ (numbers_at s.now).lanes }
    ensures upper_bound { result < 65536 }
{
    number16(s, 2)
}

// How many trees there is room for.
pub fn tree_room(s: &[u8]) -> u32
    requires { head_bytes ≤ length s.now }
    ensures value { result ≡ (numbers_at s.now).tree_room }
    ensures upper_bound { result < 65536 }
{
    number16(s, 4)
}

// How many splits there is room for.
pub fn split_room(s: &[u8]) -> u32
    requires { head_bytes ≤ length s.now }
    ensures value { result ≡ (numbers_at s.now).split_room }
    ensures upper_bound { result < 65536 }
{
    number16(s, 6)
}

// The number of places.
pub fn places(s: &[u8]) -> u32
    requires { head_bytes ≤ length s.now }
    ensures value { result ≡ (numbers_at s.now).places }
    ensures upper_bound { result < 65536 }
{
    number16(s, 8)
}

// 1 where lengths are kept, else 0.
pub fn kept(s: &[u8]) -> u32
    requires { head_bytes ≤ length s.now }
    ensures value { result ≡ (numbers_at s.now).kept }
    ensures upper_bound { result < 65536 }
{
    number16(s, 14)
}

// The number in the 2 bytes of s from at, in 32 bits.
fn number16(s: &[u8], at: usize) -> u32
    requires { at + 2 ≤ length s.now }
    ensures value { result ≡ number 2 s.now at }
    ensures upper_bound { result < 65536 }
{
    u32::from(fields::get16(s, at))
}

// The first list's constant of taxon i.
pub fn first_constant(s: &[u8], i: Taxon) -> u64
    requires head_bytes_in_bounds { head_bytes ≤ length s.now }
    requires i_bound { i.0 < 64 }
    ensures value { result ≡ number 2 s.now (2128 + 2 * i.0) }
    ensures upper_bound { result < 65536 }
{
    u64::from(number16(s, 2128 + 2 * i.0 as usize))
}

// The second list's constant of taxon i.
pub fn second_constant(s: &[u8], i: Taxon) -> u64
    requires head_bytes_in_bounds { head_bytes ≤ length s.now }
    requires i_bound { i.0 < 64 }
    ensures { result ≡ number 8 s.now (2256 + 8 * i.0) }
{
    fields::get64(s, 2256 + 8 * i.0 as usize)
}

// How many keys names and labels have.
pub const KEYS: usize = 128;

// Makes the index of the names, whatever the two arrays held, from the last taxon down to the first.
pub fn build_index(s: &[u8], starts: &mut [u8; KEYS], links: &mut [u8; 64])
    requires head_bytes_in_bounds { head_bytes ≤ length s.now }
    requires s_bound { (numbers_at s.now).taxa ≤ 64 }
    ensures { Indexed (names_at s.now) starts.new links.new }
{
    *starts = [0; KEYS];
    *links = [0; 64];
    for i in (0..taxa(s) as usize).rev() {
        let k = name_key(s, i);
        links[i] = starts[k];
        starts[k] = (i + 1) as u8;
    }
}

// The most bytes of a name that a head can hold: its length is a byte.
const MOST_HELD: usize = 255;

// The taxon whose name the label from b up to e of the text reads as.
pub fn find_taxon(
    s: &[u8],
    starts: &[u8; KEYS],
    links: &[u8; 64],
    text: &[u8],
    b: usize,
    e: usize,
) -> Option<Taxon>
    requires head_bytes_in_bounds { head_bytes ≤ length s.now }
    requires s_bound { (numbers_at s.now).taxa ≤ 64 }
    requires indexed { Indexed (names_at s.now) starts.now links.now }
    requires b_le_e { b ≤ e }
    requires e_in_bounds { e ≤ length text.now }
    ensures value { result ≡ found_of (taxon_of (names_at s.now) (slice b e text.now)) }
    ensures below { Below (numbers_at s.now).taxa result }
{
    if text::is_plain_label(text, b, e) {
        return find_name(s, starts, links, text, b, e);
    }
    let mut name = [0u8; MOST_HELD];
    let n = text::read_up_to(text, b, e, &mut name, 0, MOST_HELD);
    if MOST_HELD < n {
        return None;
    }
    find_name(s, starts, links, &name, 0, n)
}

// The taxon whose name is the bytes of the text from b up to e: the names of their key, in list order. A link is a taxon and one
// more, or 0 at the end, as `Indexed` of specs/Index.antt has it.
fn find_name(
    s: &[u8],
    starts: &[u8; KEYS],
    links: &[u8; 64],
    text: &[u8],
    b: usize,
    e: usize,
) -> Option<Taxon>
    requires head_bytes_in_bounds { head_bytes ≤ length s.now }
    requires s_bound { (numbers_at s.now).taxa ≤ 64 }
    requires indexed { Indexed (names_at s.now) starts.now links.now }
    requires b_le_e { b ≤ e }
    requires e_in_bounds { e ≤ length text.now }
    ensures { result ≡ found_of (taxon_from 0 (names_at s.now) (slice b e text.now)) }
{
    let k = key_of(text, b, e);
    let mut number = starts[k];
    while number != 0 {
        let i = (number - 1) as usize;
        if name_is(s, i, text, b, e) {
            return Some(Taxon(i as u32));
        }
        number = links[i];
    }
    None
}

// Whether taxon i has this name.
pub fn has_name(s: &[u8], i: Taxon, name: &[u8]) -> bool
    requires head_bytes_in_bounds { head_bytes ≤ length s.now }
    requires i_bound { i.0 < 64 }
    ensures { result ≡ same_bytes (name_at s.now i.0) name.now }
{
    name_is(s, i.0 as usize, name, 0, name.len())
}

// Whether the name of taxon i is the bytes of the text from b up to e.
fn name_is(s: &[u8], i: usize, text: &[u8], b: usize, e: usize) -> bool
    requires head_bytes_in_bounds { head_bytes ≤ length s.now }
    requires i_bound { i < 64 }
    requires b_le_e { b ≤ e }
    requires e_in_bounds { e ≤ length text.now }
    ensures { result ≡ same_bytes (name_at s.now i) (slice b e text.now) }
{
    let n = name_length(s, i);
    if e - b != n {
        return false;
    }
    let a = 17 + 33 * i;
    same_runs(s, a, a + n, text, b, e)
}

// Whether the bytes of s from a up to z are those of the text from b up to e, which are as many: a word of 8 bytes at a time,
// the last word from their end.
pub fn same_runs(s: &[u8], a: usize, z: usize, text: &[u8], b: usize, e: usize) -> bool
    requires a_le_z { a ≤ z }
    requires z_in_bounds { z ≤ length s.now }
    requires e_in_bounds { e ≤ length text.now }
    requires z_value { b + z ≡ e + a }
    ensures { result ≡ same_bytes (slice a z s.now) (slice b e text.now) }
{
    if z - a < 8 {
        return first_word(s, a, z) == first_word(text, b, e);
    }
    let words = (z - a - 1) / 8;
    for k in 0..words {
        if fields::get64(s, a + 8 * k) != fields::get64(text, b + 8 * k) {
            return false;
        }
    }
    fields::get64(s, z - 8) == fields::get64(text, e - 8)
}

// The key of the name of taxon i.
fn name_key(s: &[u8], i: usize) -> usize
    requires head_bytes_in_bounds { head_bytes ≤ length s.now }
    requires i_bound { i < 64 }
    ensures { (result ≡ key (name_at s.now i)) × (result < keys) }
{
    let a = 17 + 33 * i;
    key_of(s, a, a + name_length(s, i))
}

// The length of the name of taxon i.
fn name_length(s: &[u8], i: usize) -> usize
    requires head_bytes_in_bounds { head_bytes ≤ length s.now }
    requires i_bound { i < 64 }
    ensures { (result ≡ slice_index s.now (16 + 33 * i)) × (result < 256) }
{
    usize::from(s[16 + 33 * i])
}

// The key of the bytes of s from b up to e.
pub fn key_of(s: &[u8], b: usize, e: usize) -> usize
    requires b_le_e { b ≤ e }
    requires e_in_bounds { e ≤ length s.now }
    ensures { (result ≡ key (slice b e s.now)) × (result < keys) }
{
    let first = first_word(s, b, e);
    let n = e - b;
    if n <= 8 {
        return fold(first, first, first);
    }
    fold(
        first,
        fields::get64(s, b + (n / 2 - 4)),
        fields::get64(s, e - 8),
    )
}

// The key of a first, a middle and a last word.
fn fold(first: u64, middle: u64, last: u64) -> usize
    ensures { (result ≡ (first + middle + last) % 2 ^ 64 % 113) × (result < keys) }
{
    (first.wrapping_add(middle).wrapping_add(last) % 113) as usize
}

// The first 8 of the bytes of s from b up to e, as a number; where they are fewer, all of them. A run is given by its places in all
// of s and not as a slice, since a word is read past its end where s goes on.
fn first_word(s: &[u8], b: usize, e: usize) -> u64
    requires b_le_e { b ≤ e }
    requires e_in_bounds { e ≤ length s.now }
    ensures { result ≡ number 8 (slice b e s.now) 0 }
{
    let n = e - b;
    if 8 <= n {
        return fields::get64(s, b);
    }
    if 8 <= s.len() - b {
        return fields::get64(s, b) % (1 << (8 * n));
    }
    short_word(s, b, n)
}

// The n bytes of s from b, as a number, where s may end behind them.
fn short_word(s: &[u8], b: usize, n: usize) -> u64
    requires n_bound { n ≤ 8 }
    requires n_in_bounds { b + n ≤ length s.now }
    ensures { result ≡ number 8 (slice b (b + n) s.now) 0 }
{
    let mut word = [0u8; 8];
    fields::copy_from(&mut word, 0, s, b, n);
    fields::get64(&word, 0)
}
