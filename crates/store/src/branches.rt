// Whether the stored lengths of lent bytes with a good head and good lists are in order: the test
// `branches_good` of `specs/WholeStore.antt`, exactly.
ghost use Rattle.std.specs.Prelude.{◌≡◌, ◌<◌, ◌≤◌, true, length};
ghost use Rattle.head.specs.Head.{numbers_at};
ghost use Rattle.layout.specs.Store.{trees_held_at, list_at, most_splits};
ghost use Rattle.layout.specs.WholeStore.{all_below, good_list, good_branches_at};
ghost use Rattle.layout.specs.WholeFacts.{HeadAt};

use answers::Tree;

// Whether every tree's lengths, where they are kept, are none, or finite and not minus zero.
pub(crate) fn branches_good(s: &[u8]) -> bool
    requires head_at { HeadAt s.now }
    requires s_value { all_below (good_list s.now) (trees_held_at s.now) ≡ true }
    ensures { result ≡ all_below (good_branches_at s.now) (trees_held_at s.now) }
{
    if head::kept(s) == 0 {
        return true;
    }
    let trees = layout::trees_held(s);
    for i in 0..trees {
        if !lengths_good(s, i) {
            return false;
        }
    }
    true
}

// Whether the lengths of tree i are so, where lengths are kept.
fn lengths_good(s: &[u8], i: usize) -> bool
    requires head_at { HeadAt s.now }
    requires i_bound { i < trees_held_at s.now }
    requires i_len_bound { length (list_at s.now i) ≤ most_splits }
    requires bound { 1 ≤ (numbers_at s.now).kept }
    ensures { result ≡ good_branches_at s.now i }
{
    let from = layout::lengths_from(s, Tree(i));
    let n = rows::splits_in(s, Tree(i));
    for j in 0..n {
        if !doubles::holds_length(s, from + 8 * j) {
            return false;
        }
    }
    true
}
