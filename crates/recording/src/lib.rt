// The tree of a text that was judged: whether there is room for it and for its new splits, and recording it. Whether there is
// room is known before the first byte is stored.
//
// Its contracts cite `specs/Recording.antt`; what one split more and one tree more make of a store's parts stands in `specs/Added.antt`.
#![tactic(auto)]

ghost use Rattle.std.specs.Prelude.{◌≡◌, true, ◌+◌, ◌≤◌, length};
ghost use Rattle.trees.specs.Held.{room_for};
ghost use Rattle.records.specs.Records.{masks_of};
ghost use Rattle.head.specs.Head.{numbers_at};
ghost use Rattle.layout.specs.Store.{parts_at, splits_held_at, held_at};
ghost use Rattle.layout.specs.WholeStore.{whole_at};
ghost use Rattle.recording.specs.Recording.{SplitsOf, LengthsOf, tree_given, new_in, RowsOf, Accepts, Grown};

use answers::{Refusal, Tree};

mod adding;
mod finding;
mod listing;

// Records the tree whose splits stand in the first n records and, where lengths are kept, its lengths, unless there is no room for it
// (11) or for its new splits (12).
pub fn accept(
    s: &mut [u8],
    n: usize,
    records: &[u64],
    lengths: &[u64],
) -> Result<Option<Tree>, Refusal>
    requires s_value { whole_at s.old ≡ true }
    requires splits_of { SplitsOf s.old n records.now }
    requires lengths_of { LengthsOf s.old n lengths.now }
    ensures { Accepts (room_for (held_at s.old) (tree_given s.old n records.now lengths.now)) s.old result s.new }
{
    let trees = layout::trees_held(s);
    if trees == head::tree_room(s) as usize {
        return Err(Refusal::NoTreeRoom);
    }
    let mut rows = [0u64; 64];
    let new = finding::find_rows(s, n, records, &mut rows);
    if (head::split_room(s) as usize) < layout::splits_held(s) + new {
        return Err(Refusal::NoSplitRoom);
    }
    add_new(s, n, records, &rows);
    listing::put_lengths(s, n, lengths);
    listing::list_tree(s, n, &rows);
    Ok(Some(Tree(trees)))
}

// Puts in the new ones of the first n splits: those whose rows the store does not have yet.
fn add_new(s: &mut [u8], n: usize, records: &[u64], rows: &[u64])
    requires s_value { whole_at s.old ≡ true }
    requires splits_of { SplitsOf s.old n records.now }
    requires rows_of { RowsOf (parts_at s.old) n records.now rows.now }
    requires records_bound { splits_held_at s.old + length (new_in (parts_at s.old) (masks_of n records.now)) ≤ (numbers_at s.old).split_room }
    ensures { Grown s.old (new_in (parts_at s.old) (masks_of n records.now)) s.new }
{
    let held = layout::splits_held(s) as u64;
    for j in 0..n {
        if held <= rows[j] {
            let m = records::mask_of(records, j);
            adding::add_split(
                s,
                m,
                records::place_of(records, j),
                records::identifier_of(records, j),
            );
        }
    }
}
