// Entering one more tree, given by the rows of its splits and by its lengths, into a store in lent bytes.
ghost use Rattle.std.specs.Prelude.{◌≤◌, ◌<◌, length, take};
ghost use Rattle.head.specs.Head.{numbers_at, opening_at};
ghost use Rattle.layout.specs.Store.{branches_of, parts_at, trees_held_at, most_splits};
ghost use Rattle.layout.specs.WholeFacts.{HeadAt};
ghost use Rattle.layout.specs.Sound.{Sound};
ghost use Rattle.recording.specs.Added.{LengthsPut, Listed, Rows};

use answers::Tree;

// Puts the lengths of a tree of n splits where those of the next tree belong; none where lengths are not kept.
pub(crate) fn put_lengths(s: &mut [u8], n: usize, words: &[u64])
    requires head_at { HeadAt s.old × Sound (opening_at s.old) (parts_at s.old) }
    requires s_bound { trees_held_at s.old < (numbers_at s.old).tree_room }
    requires n_le_most_splits { n ≤ most_splits }
    requires n_in_bounds { branches_of (numbers_at s.old) n ≤ length words.now }
    ensures { LengthsPut s.old n words.now s.new }
{
    if head::kept(s) == 0 {
        return;
    }
    let from = layout::lengths_from(s, Tree(layout::trees_held(s)));
    for j in 0..n {
        fields::put64(s, from + 8 * j, words[j]);
    }
}

// Enters the tree whose splits stand in the first n of the rows; its lengths stand where they belong.
pub(crate) fn list_tree(s: &mut [u8], n: usize, rows: &[u64])
    requires head_at { HeadAt s.old × Sound (opening_at s.old) (parts_at s.old) }
    requires s_bound { trees_held_at s.old < (numbers_at s.old).tree_room }
    requires n_le_most_splits { (n ≤ most_splits) × (n ≤ length rows.now) }
    requires rows { Rows (parts_at s.old) (take n rows.now) }
    ensures { Listed s.old (take n rows.now) s.new }
{
    let trees = layout::trees_held(s);
    let from = layout::tree_from(s, Tree(trees));
    let counts = layout::counts_from(s);
    for j in 0..n {
        let row = rows[j];
        let at = counts + 4 * row as usize;
        fields::put16(s, from + 2 + 2 * j, row as u16);
        fields::put32(s, at, fields::get32(s, at) + 1);
    }
    fields::put16(s, from, n as u16);
    fields::put16(s, 10, (trees + 1) as u16);
}
