// Whether the trees' lists, the counts and the lanes of lent bytes with a good head are in order: the
// tests of `specs/WholeStore.antt`, exactly.
ghost use Rattle.std.specs.Prelude.{◌≡◌, ◌+◌, ◌^◌, ◌<◌, true, ◌&&◌, bit_and, bit_or, slice_index};
ghost use Rattle.trees.specs.Mask.{without, lowest};
ghost use Rattle.head.specs.Head.{numbers_at};
ghost use Rattle.layout.specs.Store.{trees_held_at, splits_held_at};
ghost use Rattle.layout.specs.WholeStore.{all_below, good_splits, good_list, good_count, good_lane_at};
ghost use Rattle.layout.specs.WholeFacts.{HeadAt};
ghost use Rattle.store.specs.ListTests.{Counted};
ghost use Rattle.store.specs.Outer.{UnionAt, PlaceOf, LowestIn, Vacant, Takes};

use answers::{Lane, Tree};
use layout::{MOST_ROOM, MOST_SPLITS, RAN_OVER_OPEN};

// Whether every tree's list is in order, and every split's count is the number of trees that list it,
// at least 1.
pub(crate) fn trees_good(s: &[u8]) -> bool
    requires head_at { HeadAt s.now }
    requires s_value { good_splits s.now ≡ true }
    ensures { result ≡ (all_below (good_list s.now) (trees_held_at s.now) && all_below (good_count s.now) (splits_held_at s.now)) }
{
    let mut counts = [0; MOST_ROOM];
    if !lists_good(s, &mut counts) {
        return false;
    }
    counts_match(s, &counts)
}

// Whether every tree's list is in order. Where they are, each split's count has how many trees list it.
fn lists_good(s: &[u8], counts: &mut [u16; MOST_ROOM]) -> bool
    requires head_at { HeadAt s.now }
    requires s_value { good_splits s.now ≡ true }
    requires counted { Counted s.now 0 counts.old }
    ensures value { result ≡ all_below (good_list s.now) (trees_held_at s.now) }
    ensures counted_2 { result ≡ true → Counted s.now (trees_held_at s.now) counts.new }
{
    let trees = layout::trees_held(s);
    let mut outer = [0; 65];
    for i in 0..trees {
        if !list_good(s, i, &mut outer, counts) {
            return false;
        }
    }
    true
}

// Whether tree i lists at most 62 recorded splits, whose masks rise and agree in pairs. Where it does,
// each of their counts has one more.
//
// Of the masks passed, `outer` has those that no later one took in, each at its lowest taxon, its head.
fn list_good(s: &[u8], i: usize, outer: &mut [u64; 65], counts: &mut [u16; MOST_ROOM]) -> bool
    requires head_at { HeadAt s.now }
    requires s_value { good_splits s.now ≡ true }
    requires i_bound { i < trees_held_at s.now }
    requires vacant { Vacant outer.old }
    requires counted { Counted s.now i counts.old }
    ensures value { result ≡ good_list s.now i }
    ensures vacant_2 { Vacant outer.new }
    ensures counted_2 { result ≡ true → Counted s.now (i + 1) counts.new }
{
    let from = rows::tree_from(s, Tree(i));
    let n = layout::number16(s, from);
    if MOST_SPLITS < n {
        return false;
    }
    let held = layout::splits_held(s);
    let mut heads = 0;
    let mut covered = 0;
    let mut last = 0;
    for j in 0..n {
        let k = rows::row_in(s, Tree(i), from, j);
        if held <= k {
            return false;
        }
        let x = rows::mask_at(s, k);
        if !masks::comes_before(last, x) {
            return false;
        }
        if !agrees(outer, heads, covered, x) {
            return false;
        }
        counts[k] += 1;
        let at = masks::lowest_taxon(x).0 as usize;
        outer[at] = x;
        heads = heads_with(heads, x);
        covered = masks::union_of(covered, x);
        last = x;
    }
    true
}

// Whether x agrees with all masks passed, which are below it: it does when it takes in each outer one
// whose head it has, and is apart from the others.
fn agrees(outer: &[u64; 65], heads: u64, covered: u64, x: u64) -> bool
    requires { slice_index outer.now 64 ≡ 0 }
    ensures { Takes outer.now heads covered x result }
{
    let inner = union_at(outer, common(heads, x));
    masks::is_same(common(covered, x), inner)
}

// The taxa that are in a and in b.
fn common(a: u64, b: u64) -> u64
    ensures { result ≡ bit_and a b }
{
    masks::taxa_without(a, masks::taxa_without(a, b))
}

// The heads of the outer masks with x: those that it does not take in, and its own.
fn heads_with(heads: u64, x: u64) -> u64
    ensures { result ≡ bit_or (without heads x) (2 ^ lowest x) }
{
    masks::union_of(
        masks::taxa_without(heads, x),
        masks::only_taxon(masks::lowest_taxon(x)),
    )
}

// The taxa of the masks that stand in `outer` at these taxa: of two of them without a branch, since at
// place 64, where the search ends when no taxon is left, no mask stands.
fn union_at(outer: &[u64; 65], taxa: u64) -> u64
    requires { slice_index outer.now 64 ≡ 0 }
    ensures { UnionAt outer.now taxa result }
{
    let next = masks::without_lowest(taxa);
    let mut all = masks::union_of(lowest_in(outer, taxa), lowest_in(outer, next));
    let mut rest = masks::without_lowest(next);
    while !masks::is_empty(rest) {
        all = masks::union_of(all, lowest_in(outer, rest));
        rest = masks::without_lowest(rest);
    }
    all
}

// The mask that stands in `outer` at the lowest of these taxa; none where there is none.
fn lowest_in(outer: &[u64; 65], taxa: u64) -> u64
    requires { slice_index outer.now 64 ≡ 0 }
    ensures { LowestIn outer.now taxa result }
{
    let at = lowest_place(taxa);
    outer[at]
}

// The lowest of these taxa; 64 where there is none.
fn lowest_place(taxa: u64) -> usize
    ensures { PlaceOf taxa result }
{
    if masks::is_empty(taxa) {
        return 64;
    }
    masks::lowest_taxon(taxa).0 as usize
}

// Whether every split's count is the one that was added up, at least 1.
fn counts_match(s: &[u8], counts: &[u16; MOST_ROOM]) -> bool
    requires head_at { HeadAt s.now }
    requires counted { Counted s.now (trees_held_at s.now) counts.now }
    ensures { result ≡ all_below (good_count s.now) (splits_held_at s.now) }
{
    let splits = layout::splits_held(s);
    for k in 0..splits {
        let count = rows::count_at(s, k);
        if count == 0 {
            return false;
        }
        if count != usize::from(counts[k]) {
            return false;
        }
    }
    true
}

// Whether every lane's length is in range.
pub(crate) fn lanes_good(s: &[u8]) -> bool
    requires { HeadAt s.now }
    ensures { result ≡ all_below (good_lane_at s.now) (numbers_at s.now).lanes }
{
    let lanes = head::lanes(s) as usize;
    for l in 0..lanes {
        let from = layout::lane_from(Lane(l));
        if RAN_OVER_OPEN < layout::number16(s, from) {
            return false;
        }
    }
    true
}
