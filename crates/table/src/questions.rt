// The questions that a collection answers of itself: its trees and splits, how many there are, and
// the lists of them. None of them writes into the store.
//
// `specs/Asked.antt` says what each answers; crate store, `specs/Counts.antt`, has the list of the counts.
ghost use Rattle.std.specs.Prelude.{◌≡◌, true, ◌++◌, ◌≤◌, length, drop};
ghost use Rattle.answers.specs.Answers.{number_given, split_given};
ghost use Rattle.answers.specs.Filled.{length_given, front, first_of, second_of};
ghost use Rattle.layout.specs.Store.{splits_held_at, masks_at};
ghost use Rattle.layout.specs.WholeStore.{whole_at};
ghost use Rattle.store.specs.Counts.{counts_at};
ghost use Rattle.table.specs.Asked.{trees_asked, splits_asked, split_asked, split_list_asked, tree_asked};

use answers::{Refusal, Split, Tree};

// How many trees are accepted.
pub fn tree_count(s: &[u8]) -> Result<usize, Refusal>
    ensures { number_given result ≡ trees_asked s.now }
{
    if !store::is_whole(s) {
        return Err(Refusal::NotWhole);
    }
    let trees = layout::trees_held(s);
    Ok(trees)
}

// How many splits are recorded.
pub fn split_count(s: &[u8]) -> Result<usize, Refusal>
    ensures { number_given result ≡ splits_asked s.now }
{
    if !store::is_whole(s) {
        return Err(Refusal::NotWhole);
    }
    let splits = layout::splits_held(s);
    Ok(splits)
}

// Every recorded split and its count, in order of mask, at the fronts of two buffers.
pub fn split_list(s: &[u8], masks: &mut [u64], counts: &mut [u32]) -> Result<usize, Refusal>
    ensures result_value { number_given result ≡ length_given (first_of (split_list_asked s.now (length masks.old) (length counts.old))) }
    ensures masks_after { masks.new ≡ front (first_of (split_list_asked s.now (length masks.old) (length counts.old))) masks.old }
    ensures counts_after { counts.new ≡ front (second_of (split_list_asked s.now (length masks.old) (length counts.old))) counts.old }
{
    if !store::is_whole(s) {
        return Err(Refusal::NotWhole);
    }
    let held = layout::splits_held(s);
    if masks.len() < held {
        return Err(Refusal::TooShort);
    }
    if counts.len() < held {
        return Err(Refusal::TooShort);
    }
    copy_splits(s, masks, counts);
    Ok(held)
}

// The splits of tree number i, in order of mask, at the front of a buffer.
pub fn tree_splits(s: &[u8], i: Tree, masks: &mut [u64]) -> Result<usize, Refusal>
    ensures result_value { number_given result ≡ length_given (tree_asked s.now i.0 (length masks.old)) }
    ensures masks_after { masks.new ≡ front (tree_asked s.now i.0 (length masks.old)) masks.old }
{
    if !store::is_whole(s) {
        return Err(Refusal::NotWhole);
    }
    if layout::trees_held(s) <= i.0 {
        return Err(Refusal::NoSuchNumber);
    }
    let n = rows::splits_in(s, i);
    if masks.len() < n {
        return Err(Refusal::TooShort);
    }
    rows::copy_tree(s, i, masks);
    Ok(n)
}

// Copies the recorded splits and their counts, in order of mask, to the fronts of the buffers.
fn copy_splits(s: &[u8], masks: &mut [u64], counts: &mut [u32])
    requires s_value { whole_at s.now ≡ true }
    requires s_in_bounds { splits_held_at s.now ≤ length masks.old }
    requires s_in_bounds_2 { splits_held_at s.now ≤ length counts.old }
    ensures masks_after { masks.new ≡ masks_at s.now ++ drop (splits_held_at s.now) masks.old }
    ensures counts_after { counts.new ≡ counts_at s.now ++ drop (splits_held_at s.now) counts.old }
{
    let held = layout::splits_held(s);
    for k in 0..held {
        let row = rows::row_of(s, Split(k));
        masks[k] = rows::mask_at(s, row);
        counts[k] = rows::count_at(s, row) as u32;
    }
}
