// The group of two taxa, by its place in the list of groups. The masks rise, and the first of them that has both taxa
// is the smallest that has.
//
// Its contracts cite `specs/Nearest.antt` (`place_of`) and crate trees, `specs/Groups.antt` (`group_of`).
ghost use Rattle.std.specs.Prelude.{◌≡◌, true, ◌≤◌, ◌<◌, length};
ghost use Rattle.trees.specs.Groups.{has_both, group_of};
ghost use Rattle.trees.specs.Mask.{ones_below};
ghost use Rattle.trees.specs.Whole.{good_tree};
ghost use Rattle.grouping.specs.Nearest.{place_of};

use answers::Taxon;

// The place of the first mask that has the taxa i and j; behind the last, where none has both.
pub(crate) fn nearest_place(list: &[u64], i: Taxon, j: Taxon) -> usize
    requires i_bound { i.0 < 64 }
    requires j_bound { j.0 < 64 }
    ensures value { result ≡ place_of i.0 j.0 list.now }
    ensures upper_bound { result ≤ length list.now }
{
    for k in 0..list.len() {
        if has_both(list[k], i, j) {
            return k;
        }
    }
    list.len()
}

// Whether m has the taxa i and j.
fn has_both(m: u64, i: Taxon, j: Taxon) -> bool
    requires i_bound { i.0 < 64 }
    requires j_bound { j.0 < 64 }
    ensures { result ≡ has_both i.0 j.0 m }
{
    masks::has_taxon(m, i) && masks::has_taxon(m, j)
}

// How many taxa the group of the taxa i and j has, of n; all, where they share none.
pub(crate) fn group_size(list: &[u64], n: u32, i: Taxon, j: Taxon) -> u32
    requires list_value { good_tree n list.now ≡ true }
    requires n_bound { n ≤ 64 }
    requires i_lt_n { i.0 < n }
    requires j_lt_n { j.0 < n }
    ensures { result ≡ ones_below n (group_of n i.0 j.0 list.now) }
{
    let p = nearest_place(list, i, j);
    if p < list.len() {
        return masks::count_taxa(list[p]);
    }
    n
}
