// The lines of the stand-ins of a taxon.
//
// Its contracts cite `specs/GroupLines.antt` (`stand_in_line`, `stand_in_lines`) and crate trees, `specs/Groups.antt`
// (`sharing`, `stand_ins`).
ghost use Rattle.std.specs.Prelude.{◌≡◌, true, ◌&&◌, not, map, ◌+◌, ◌*◌, ◌≤◌, ◌<◌, eqb, length};
ghost use Rattle.trees.specs.Mask.{ones_below};
ghost use Rattle.trees.specs.Whole.{good_tree};
ghost use Rattle.trees.specs.Consensus.{count, majority};
ghost use Rattle.trees.specs.Groups.{group_of, sharing};
ghost use Rattle.head.specs.Head.{numbers_at};
ghost use Rattle.layout.specs.Store.{held_at};
ghost use Rattle.layout.specs.WholeStore.{whole_at};
ghost use Rattle.putting.specs.Put.{Put};
ghost use Rattle.putting.specs.Lines.{bytes_of};
ghost use Rattle.grouping.specs.GroupLines.{stand_in_line, stand_in_lines};

use crate::majority::majority_groups;
use crate::{labels, nearest};
use answers::Taxon;
use putting::put_word;

// Puts a line for each stand-in of taxon i from `at` on, the farthest first, and answers where they end.
pub fn put_stand_ins(s: &[u8], i: Taxon, out: &mut [u8], at: usize) -> usize
    requires s_value { whole_at s.now ≡ true }
    requires i_bound { i.0 < (numbers_at s.now).taxa }
    requires at_bound { at ≤ 1000000 }
    ensures put { Put out.old at (bytes_of (stand_in_lines (held_at s.now) i.0)) out.new result }
    ensures upper_bound { result ≤ at + 300000 }
{
    let mut list = [0; 64];
    let mut counts = [0; 64];
    let k = majority_groups(s, &mut list, &mut counts);
    put_all(s, &list[..k], &counts[..k], i, out, at)
}

// Puts the lines of all stand-ins, those with the largest groups first.
fn put_all(s: &[u8], list: &[u64], counts: &[u32], i: Taxon, out: &mut [u8], at: usize) -> usize
    requires s_value { whole_at s.now ≡ true }
    requires list_value { list.now ≡ majority (held_at s.now).trees }
    requires counts_value { counts.now ≡ map (count (held_at s.now).trees) list.now }
    requires i_bound { i.0 < (numbers_at s.now).taxa }
    requires at_bound { at ≤ 1000000 }
    ensures put { Put out.old at (bytes_of (stand_in_lines (held_at s.now) i.0)) out.new result }
    ensures upper_bound { result ≤ at + 300000 }
{
    let n = head::taxa(s);
    let mut e = at;
    for less in 0..n {
        e = put_sharing(s, list, counts, i, n - less, out, e);
    }
    e
}

// Puts the lines of the stand-ins whose group with taxon i has k taxa.
fn put_sharing(
    s: &[u8],
    list: &[u64],
    counts: &[u32],
    i: Taxon,
    k: u32,
    out: &mut [u8],
    at: usize,
) -> usize
    requires s_value { whole_at s.now ≡ true }
    requires list_value { list.now ≡ majority (held_at s.now).trees }
    requires counts_value { counts.now ≡ map (count (held_at s.now).trees) list.now }
    requires i_bound { i.0 < (numbers_at s.now).taxa }
    requires at_bound { at ≤ 1300000 }
    ensures put { Put out.old at (bytes_of (map (stand_in_line (held_at s.now) i.0) (sharing (numbers_at s.now).taxa i.0 list.now k))) out.new result }
    ensures upper_bound { result ≤ at + 4370 * length (sharing (numbers_at s.now).taxa i.0 list.now k) }
{
    let n = head::taxa(s);
    let mut e = at;
    for j in 0..n {
        if shares(list, n, i, Taxon(j), k) {
            e = put_line(s, list, counts, i, Taxon(j), out, e);
        }
    }
    e
}

// Whether taxon j is another than i, and their group has k taxa.
fn shares(list: &[u64], n: u32, i: Taxon, j: Taxon, k: u32) -> bool
    requires list_value { good_tree n list.now ≡ true }
    requires n_bound { n ≤ 64 }
    requires i_lt_n { i.0 < n }
    requires j_lt_n { j.0 < n }
    ensures { result ≡ (not (eqb j.0 i.0) && eqb (ones_below n (group_of n i.0 j.0 list.now)) k) }
{
    if j.0 == i.0 {
        return false;
    }
    nearest::group_size(list, n, i, j) == k
}

// Puts the line of taxon j as a stand-in for taxon i.
fn put_line(
    s: &[u8],
    list: &[u64],
    counts: &[u32],
    i: Taxon,
    j: Taxon,
    out: &mut [u8],
    at: usize,
) -> usize
    requires s_value { whole_at s.now ≡ true }
    requires list_value { list.now ≡ majority (held_at s.now).trees }
    requires counts_value { counts.now ≡ map (count (held_at s.now).trees) list.now }
    requires i_bound { i.0 < (numbers_at s.now).taxa }
    requires j_bound { j.0 < (numbers_at s.now).taxa }
    requires at_bound { at ≤ 1700000 }
    ensures put { Put out.old at (stand_in_line (held_at s.now) i.0 j.0) out.new result }
    ensures upper_bound { result ≤ at + 4370 }
{
    let b = put_word(out, at, b"apart");
    let e = labels::put_label(s, j, out, b);
    let p = nearest::nearest_place(list, i, j);
    if p < list.len() {
        return labels::put_group(s, list[p], counts[p], out, e);
    }
    put_word(out, e, b" none\n")
}
