// What is read of a store whose head is in order: the row of a split, by its number or by its place in
// a tree, the fields of a row, where the chain of a place starts, and the masks and lengths of a tree.
//
// Its contracts cite crate layout, `specs/Store.antt`.
#![tactic(auto)]

ghost use Rattle.std.specs.Prelude.{◌≡◌, true, ◌++◌, ◌+◌, ◌≤◌, ◌<◌, length, get_or, drop};
ghost use Rattle.std.proofs.Math.Option.{none};
ghost use Rattle.trees.specs.Opening.{tree_bytes};
ghost use Rattle.trees.specs.Whole.{good_length};
ghost use Rattle.doubles.specs.Stored.{branch_given};
ghost use Rattle.head.specs.Head.{numbers_at};
ghost use Rattle.layout.specs.Store.{tree_from, trees_held_at, splits_held_at, mask_at, identifier_at, count_at, link_at, start_at, order_at, list_at, tree_at, branches_at, most_splits};
ghost use Rattle.layout.specs.WholeFacts.{HeadAt};
ghost use Rattle.rows.specs.Rows.{RowsAt};

use answers::{Split, Tree};

// The row of split number k.
pub fn row_of(s: &[u8], k: Split) -> usize
    requires head_at { HeadAt s.now }
    requires k_bound { k.0 < splits_held_at s.now }
    ensures { result ≡ order_at s.now k.0 }
{
    layout::number16(s, layout::order_from(s) + 2 * k.0)
}

// The mask of the split in a row.
pub fn mask_at(s: &[u8], row: usize) -> u64
    requires head_at { HeadAt s.now }
    requires row_bound { row < splits_held_at s.now }
    ensures { result ≡ mask_at s.now row }
{
    fields::get64(s, layout::masks_from(s) + 8 * row)
}

// The identifier of the split in a row.
pub fn identifier_at(s: &[u8], row: usize) -> u64
    requires head_at { HeadAt s.now }
    requires row_bound { row < splits_held_at s.now }
    ensures { result ≡ identifier_at s.now row }
{
    fields::get64(s, layout::identifiers_from(s) + 8 * row)
}

// The count of the split in a row.
pub fn count_at(s: &[u8], row: usize) -> usize
    requires head_at { HeadAt s.now }
    requires row_bound { row < splits_held_at s.now }
    ensures { result ≡ count_at s.now row }
{
    fields::get32(s, layout::counts_from(s) + 4 * row) as usize
}

// The link of the split in a row.
pub fn link_at(s: &[u8], row: usize) -> usize
    requires head_at { HeadAt s.now }
    requires row_bound { row < splits_held_at s.now }
    ensures { result ≡ link_at s.now row }
{
    layout::number16(s, layout::links_from(s) + 2 * row)
}

// Where the chain of place p starts.
pub fn start_at(s: &[u8], p: usize) -> usize
    requires head_at { HeadAt s.now }
    requires p_bound { p < (numbers_at s.now).places }
    ensures { result ≡ start_at s.now p }
{
    layout::number16(s, layout::places_from(s) + 2 * p)
}

// Where tree i begins, 128 bytes of which are lent.
pub fn tree_from(s: &[u8], i: Tree) -> usize
    requires head_at { HeadAt s.now }
    requires i_bound { i.0 < trees_held_at s.now }
    ensures value { result ≡ tree_from (numbers_at s.now) i.0 }
    ensures tree_bytes_in_bounds { result + tree_bytes ≤ length s.now }
{
    layout::tree_from(s, i)
}

// How many splits tree i has.
pub fn splits_in(s: &[u8], i: Tree) -> usize
    requires head_at { HeadAt s.now }
    requires i_bound { i.0 < trees_held_at s.now }
    ensures { result ≡ length (list_at s.now i.0) }
{
    layout::number16(s, tree_from(s, i))
}

// The row of the split that stands in place j of tree i, which begins at `from`.
pub fn row_in(s: &[u8], i: Tree, from: usize, j: usize) -> usize
    requires head_at { HeadAt s.now }
    requires i_bound { i.0 < trees_held_at s.now }
    requires from_value { from ≡ tree_from (numbers_at s.now) i.0 }
    requires j_in_bounds { j < length (list_at s.now i.0) }
    requires j_lt_most_splits { j < most_splits }
    ensures { result ≡ get_or (list_at s.now i.0) j 0 }
{
    layout::number16(s, from + 2 + 2 * j)
}

// The length of the split that stands in place j of tree i, where lengths are kept.
pub fn length_in(s: &[u8], i: Tree, j: usize) -> Option<f64>
    requires head_at { HeadAt s.now }
    requires i_bound { i.0 < trees_held_at s.now }
    requires j_in_bounds { j < length (branches_at s.now i.0) }
    requires j_lt_most_splits { j < most_splits }
    requires none_value { good_length (get_or (branches_at s.now i.0) j none) ≡ true }
    ensures { branch_given result ≡ get_or (branches_at s.now i.0) j none }
{
    doubles::get_length(s, layout::lengths_from(s, i) + 8 * j)
}

// Copies the masks of tree i to the front of a buffer.
pub fn copy_tree(s: &[u8], i: Tree, masks: &mut [u64])
    requires head_at { HeadAt s.now }
    requires i_bound { i.0 < trees_held_at s.now }
    requires rows_at { RowsAt s.now i.0 }
    requires i_in_bounds { length (list_at s.now i.0) ≤ length masks.old }
    ensures { masks.new ≡ tree_at s.now i.0 ++ drop (length (list_at s.now i.0)) masks.old }
{
    let from = tree_from(s, Tree(i.0));
    let first = layout::masks_from(s);
    let n = layout::number16(s, from);
    for j in 0..n {
        let row = row_in(s, Tree(i.0), from, j);
        masks[j] = fields::get64(s, first + 8 * row);
    }
}
