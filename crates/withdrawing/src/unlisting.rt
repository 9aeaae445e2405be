// Taking a tree from the lists of a store in lent bytes; the rows of its splits stay.
ghost use Rattle.std.specs.Prelude.{◌≡◌, true, suc, ◌+◌, ◌<◌};
ghost use Rattle.head.specs.Head.{numbers_at};
ghost use Rattle.layout.specs.Store.{parts_at, trees_held_at};
ghost use Rattle.layout.specs.WholeStore.{whole_at};
ghost use Rattle.layout.specs.WholeFacts.{HeadAt};
ghost use Rattle.withdrawing.specs.Left.{without_list, Turned};
ghost use Rattle.withdrawing.specs.Unlisted.{CountedLess, lengths_moved, TreesMoved};

use answers::Tree;

// Takes tree k from the lists; each of its splits counts one less.
pub(crate) fn unlist(s: &mut [u8], k: Tree)
    requires s_value { whole_at s.old ≡ true }
    requires k_bound { k.0 < trees_held_at s.old }
    ensures { Turned s.old (without_list k.0 (parts_at s.old)) s.new }
{
    count_less(s, k);
    move_trees(s, k);
}

// Makes the count of each split of tree k one less.
fn count_less(s: &mut [u8], k: Tree)
    requires s_value { whole_at s.old ≡ true }
    requires k_bound { k.0 < trees_held_at s.old }
    ensures { CountedLess s.old k.0 s.new }
{
    let from = layout::tree_from(s, k);
    let counts = layout::counts_from(s);
    let n = layout::number16(s, from);
    for j in 0..n {
        let at = counts + 4 * layout::number16(s, from + 2 + 2 * j);
        fields::put32(s, at, fields::get32(s, at) - 1);
    }
}

// Moves the trees behind tree k, and their lengths, down by one number, over tree k.
fn move_trees(s: &mut [u8], k: Tree)
    requires head_at { HeadAt s.old }
    requires k_bound { k.0 < trees_held_at s.old }
    ensures { TreesMoved s.old k.0 s.new }
{
    let last = layout::trees_held(s) - 1;
    let later = last - k.0;
    let to = layout::tree_from(s, k);
    move_lengths(s, k, later);
    fields::copy_within(s, to + layout::TREE_BYTES, to, layout::TREE_BYTES * later);
    fields::put16(s, 10, last as u16);
}

// Moves the lengths of the m trees behind tree k down by one number, where lengths are kept.
fn move_lengths(s: &mut [u8], k: Tree, m: usize)
    requires head_at { HeadAt s.old }
    requires m_value { suc (k.0 + m) ≡ trees_held_at s.old }
    ensures { s.new ≡ lengths_moved (numbers_at s.old) k.0 m s.old }
{
    if head::kept(s) == 0 {
        return;
    }
    let to = layout::lengths_from(s, k);
    fields::copy_within(s, to + layout::BRANCH_BYTES, to, layout::BRANCH_BYTES * m);
}
