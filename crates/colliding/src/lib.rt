// The collision number of a whole store. The place of each row is noted once, along the chains, and
// with the stored identifier it goes into two lists by the splits' numbers; pairs are compared there.
//
// `collisions` is defined in crate trees, `specs/Hash.antt`, and `masks_at` in crate layout,
// `specs/Store.antt`; the functions between cite `specs/Collisions.antt`.
#![tactic(auto)]

ghost use Rattle.std.specs.Prelude.{◌≡◌, true, ◌&&◌, ◌+◌, ◌-◌, ◌≤◌, ◌<◌, eqb};
ghost use Rattle.trees.specs.Opening.{most_room};
ghost use Rattle.trees.specs.Hash.{collisions};
ghost use Rattle.head.specs.Head.{numbers_at, first_at, second_at};
ghost use Rattle.layout.specs.Store.{splits_held_at, masks_at};
ghost use Rattle.layout.specs.WholeStore.{whole_at};
ghost use Rattle.layout.specs.UpToLaws.{one_if};
ghost use Rattle.colliding.specs.Collisions.{Placed, Numbered, alike, count_from, pairs_from};

use answers::Split;
use layout::MOST_ROOM;

// The count of unordered pairs of different recorded splits equal in place and identifier.
pub fn collision_number(s: &[u8]) -> usize
    requires { whole_at s.now ≡ true }
    ensures { result ≡ collisions (first_at s.now) (second_at s.now) (numbers_at s.now).places (masks_at s.now) }
{
    let mut rows = [0u16; MOST_ROOM];
    note_places(s, &mut rows);
    let mut places = [0u16; MOST_ROOM];
    let mut identifiers = [0u64; MOST_ROOM];
    list_by_number(s, &rows, &mut places, &mut identifiers);
    count_pairs(&places, &identifiers, layout::splits_held(s))
}

// Notes the place of every row, a place at a time.
fn note_places(s: &[u8], rows: &mut [u16; MOST_ROOM])
    requires s_value { whole_at s.now ≡ true }
    requires placed { Placed s.now 0 rows.old }
    ensures { Placed s.now (numbers_at s.now).places rows.new }
{
    let places = head::places(s) as usize;
    for p in 0..places {
        note_place(s, p, rows);
    }
}

// Notes the place p at every row that is met along it.
fn note_place(s: &[u8], p: usize, rows: &mut [u16; MOST_ROOM])
    requires s_value { whole_at s.now ≡ true }
    requires p_bound { p < (numbers_at s.now).places }
    requires placed { Placed s.now p rows.old }
    ensures { Placed s.now (p + 1) rows.new }
{
    let mut entry = rows::start_at(s, p);
    while entry != 0 {
        let row = entry - 1;
        rows[row] = p as u16;
        entry = rows::link_at(s, row);
    }
}

// Lists the places and the identifiers of the splits by their numbers.
fn list_by_number(
    s: &[u8],
    rows: &[u16; MOST_ROOM],
    places: &mut [u16; MOST_ROOM],
    identifiers: &mut [u64; MOST_ROOM],
)
    requires s_value { whole_at s.now ≡ true }
    requires placed { Placed s.now (numbers_at s.now).places rows.now }
    requires numbered { Numbered s.now 0 places.old identifiers.old }
    ensures { Numbered s.now (splits_held_at s.now) places.new identifiers.new }
{
    let held = layout::splits_held(s);
    for k in 0..held {
        let row = rows::row_of(s, Split(k));
        places[k] = rows[row];
        identifiers[k] = rows::identifier_at(s, row);
    }
}

// The pairs of the first n numbers that are equal in both lists. The lists are given whole, as `pairs_from` of specs/Collisions.antt
// has them.
fn count_pairs(places: &[u16; MOST_ROOM], identifiers: &[u64; MOST_ROOM], n: usize) -> usize
    requires { n ≤ most_room }
    ensures { result ≡ pairs_from places.now identifiers.now 0 n }
{
    let mut sum = 0;
    for k in 0..n {
        sum += count_alike(places, identifiers, k + 1, n, places[k], identifiers[k]);
    }
    sum
}

// How many numbers from `from` up to n have the place p and the identifier x.
fn count_alike(
    places: &[u16; MOST_ROOM],
    identifiers: &[u64; MOST_ROOM],
    from: usize,
    n: usize,
    p: u16,
    x: u64,
) -> usize
    requires from_le_n { from ≤ n }
    requires n_le_most_room { n ≤ most_room }
    ensures { result ≡ count_from (alike places.now identifiers.now p x) from (n - from) }
{
    let mut count = 0;
    for j in from..n {
        count += one_if_equal(p, places[j], x, identifiers[j]);
    }
    count
}

// 1 where the places p and q are equal and the identifiers x and y too, and 0 otherwise. The library makes no number of a truth value.
fn one_if_equal(p: u16, q: u16, x: u64, y: u64) -> usize
    ensures value { result ≡ one_if (eqb p q && eqb x y) }
    ensures upper_bound { result ≤ 1 }
{
    if p != q {
        return 0;
    }
    if x == y {
        return 1;
    }
    0
}
