// The checks of an opening's arguments, and the writing of a store's head.
//
// Its contracts cite `specs/Given.antt` (`numbers_of`, `opening_with`) and `specs/Places.antt`
// (`first_names`); crate trees, `specs/Opening.antt` and `specs/Names.antt`, says what an opening is and
// what is refused, and crate head, `specs/Head.antt`, how it lies in the bytes. The laws that callers
// use stand in `GivenLaws`; `Walk` and `Writing` say what the functions between the public ones do.
#![tactic(auto)]

ghost use Rattle.std.specs.Prelude.{◌≡◌, Bool, true, ℕ, ◌≤◌, ◌<◌, ltb, length, get_or, drop};
ghost use Rattle.trees.specs.Plain.{every};
ghost use Rattle.trees.specs.Names.{good_names};
ghost use Rattle.trees.specs.Opening.{between, in_range, store_size, good_constants, head_bytes};
ghost use Rattle.theorems.specs.OpeningLaws.{InRange};
ghost use Rattle.fields.specs.Field.{number};
ghost use Rattle.head.specs.Head.{name_at, opening_at};
ghost use Rattle.opening.specs.Given.{flag_of, numbers_of, opening_with};
ghost use Rattle.opening.specs.Places.{first_names};
ghost use Rattle.opening.specs.Writing.{puts, with_name, with_names, with_numbers};
ghost use Rattle.opening.specs.HeadWriting.{written};

use layout::{BRANCH_BYTES, HEAD_BYTES, LANE_BYTES, MOST_ROOM, TREE_BYTES};

mod names;

pub use names::{names_good, read_names};

// Whether the numbers of an opening are in their ranges.
pub fn numbers_in_range(taxa: u32, lanes: u32, tree_room: u32, split_room: u32, places: u32) -> bool
    ensures { (kept : Bool) → result ≡ in_range (numbers_of taxa lanes tree_room split_room places kept) }
{
    if !is_between(4, 64, taxa) {
        return false;
    }
    if !is_between(1, 8, lanes) {
        return false;
    }
    if !is_between(1, 1024, tree_room) {
        return false;
    }
    if !is_between(1, MOST_ROOM as u32, split_room) {
        return false;
    }
    is_between(1, 2 * split_room, places)
}

// Whether x is at least `least` and at most `most`.
fn is_between(least: u32, most: u32, x: u32) -> bool
    ensures { result ≡ between least most x }
{
    if x < least {
        return false;
    }
    x <= most
}

// How many bytes a store of these numbers takes.
pub fn store_size(
    taxa: u32,
    lanes: u32,
    tree_room: u32,
    split_room: u32,
    places: u32,
    kept: bool,
) -> usize
    requires { in_range (numbers_of taxa lanes tree_room split_room places kept) ≡ true }
    ensures { result ≡ store_size (numbers_of taxa lanes tree_room split_room places kept) }
{
    let size = HEAD_BYTES
        + LANE_BYTES * lanes as usize
        + TREE_BYTES * tree_room as usize
        + 24 * split_room as usize
        + 2 * places as usize;
    if kept {
        return size + BRANCH_BYTES * tree_room as usize;
    }
    size
}

// Whether both lists are as long as there are taxa, and the first list's constants below the places.
pub fn constants_good(places: u32, taxa: u32, first: &[u64], second: &[u64]) -> bool
    ensures { (lanes tree_room split_room : ℕ) (kept : Bool) →
        result ≡ good_constants (numbers_of taxa lanes tree_room split_room places kept) first.now second.now }
{
    let n = taxa as usize;
    if first.len() != n {
        return false;
    }
    if second.len() != n {
        return false;
    }
    all_below(first, u64::from(places))
}

// Whether every number of the list is below `most`.
fn all_below(list: &[u64], most: u64) -> bool
    ensures { result ≡ every (λ c. ltb c most) list.now }
{
    list.iter().all(|c| *c < most)
}

// Writes an opening, with the names that lie in their places, into the head of a store, where nothing is counted yet.
pub fn write_head(
    s: &mut [u8],
    taxa: u32,
    lanes: u32,
    tree_room: u32,
    split_room: u32,
    places: u32,
    kept: bool,
    names: &[u8],
    first: &[u64],
    second: &[u64],
)
    requires head_bytes_in_bounds { head_bytes ≤ length s.old }
    requires kept_value { in_range (numbers_of taxa lanes tree_room split_room places kept) ≡ true }
    requires second_value { good_constants (numbers_of taxa lanes tree_room split_room places kept) first.now second.now ≡ true }
    requires head_bytes_in_bounds_2 { head_bytes ≤ length names.now }
    requires names_value { good_names taxa (first_names taxa names.now) ≡ true }
    ensures s_after { s.new ≡ written s.old
        (opening_with (numbers_of taxa lanes tree_room split_room places kept) (first_names taxa names.now) first.now second.now) }
    ensures s_after_2 { opening_at s.new
        ≡ opening_with (numbers_of taxa lanes tree_room split_room places kept) (first_names taxa names.now) first.now second.now }
    ensures s_after_3 { number 2 s.new 10 ≡ 0 }
    ensures s_after_4 { number 2 s.new 12 ≡ 0 }
    ensures s_unchanged { drop head_bytes s.new ≡ drop head_bytes s.old }
    ensures s_len_unchanged { length s.new ≡ length s.old }
{
    fields::clear_run(s, 0, HEAD_BYTES);
    write_numbers(s, taxa, lanes, tree_room, split_room, places, kept);
    write_names(s, names, taxa as usize);
    write_first(s, first);
    write_second(s, second);
}

// Writes the numbers, two bytes each, and behind the places for how many trees and splits are held
// whether lengths are kept.
fn write_numbers(
    s: &mut [u8],
    taxa: u32,
    lanes: u32,
    tree_room: u32,
    split_room: u32,
    places: u32,
    kept: bool,
)
    requires head_bytes_in_bounds { head_bytes ≤ length s.old }
    requires in_range { InRange (numbers_of taxa lanes tree_room split_room places kept) }
    ensures { s.new ≡ with_numbers s.old (numbers_of taxa lanes tree_room split_room places kept) }
{
    fields::put16(s, 0, taxa as u16);
    fields::put16(s, 2, lanes as u16);
    fields::put16(s, 4, tree_room as u16);
    fields::put16(s, 6, split_room as u16);
    fields::put16(s, 8, places as u16);
    fields::put16(s, 14, flag(kept));
}

// 1 where lengths are kept, else 0. The library makes no number of a truth value.
fn flag(kept: bool) -> u16
    ensures { result ≡ flag_of kept }
{
    if kept {
        return 1;
    }
    0
}

// Writes the first n names, each into its place.
fn write_names(s: &mut [u8], names: &[u8], n: usize)
    requires head_bytes_in_bounds { head_bytes ≤ length s.old }
    requires head_bytes_in_bounds_2 { head_bytes ≤ length names.now }
    requires n_bound { n ≤ 64 }
    ensures { s.new ≡ with_names s.old 0 (first_names n names.now) }
{
    for i in 0..n {
        write_name(s, names, i);
    }
}

// Writes the name in place i, the byte of its length before it.
fn write_name(s: &mut [u8], names: &[u8], i: usize)
    requires head_bytes_in_bounds { head_bytes ≤ length s.old }
    requires head_bytes_in_bounds_2 { head_bytes ≤ length names.now }
    requires i_bound { i < 64 }
    ensures { s.new ≡ with_name s.old i (name_at names.now i) }
{
    let from = 16 + 33 * i;
    let n = names::name_length(names, i);
    fields::copy_from(s, from, names, from, n + 1);
}

// Writes the first list's constants, two bytes each.
fn write_first(s: &mut [u8], list: &[u64])
    requires head_bytes_in_bounds { head_bytes ≤ length s.old }
    requires list_len_bound { length list.now ≤ 64 }
    requires by_index { (i : ℕ) → get_or list.now i 0 < 65536 }
    ensures { s.new ≡ puts 2 s.old 2128 list.now }
{
    for i in 0..list.len() {
        fields::put16(s, 2128 + 2 * i, list[i] as u16);
    }
}

// Writes the second list's constants, eight bytes each.
fn write_second(s: &mut [u8], list: &[u64])
    requires head_bytes_in_bounds { head_bytes ≤ length s.old }
    requires list_len_bound { length list.now ≤ 64 }
    ensures { s.new ≡ puts 8 s.old 2256 list.now }
{
    for i in 0..list.len() {
        fields::put64(s, 2256 + 8 * i, list[i]);
    }
}
