// The weighted distance of two trees of a whole store that keeps lengths.
//
// Its contracts cite `specs/Weighed.antt` and, of crate trees, `specs/Questions.antt` (`all_given`) and
// `specs/Weighted.antt`.
ghost use Rattle.std.specs.Prelude.{◌≡◌, true, ◌≤◌, ◌<◌, length};
ghost use Rattle.trees.specs.Questions.{all_given};
ghost use Rattle.trees.specs.Weighted.{weighted};
ghost use Rattle.answers.specs.Answers.{weight_given};
ghost use Rattle.head.specs.Head.{numbers_at};
ghost use Rattle.layout.specs.Store.{trees_held_at, list_at, tree_at, branches_at};
ghost use Rattle.layout.specs.WholeStore.{whole_at};
ghost use Rattle.comparing.specs.Weighed.{if_copied, weighted_kept};

use answers::{Refusal, Tree};

// More than the most splits of a tree.
const ROOM: usize = 64;

// The weighted distance between the trees a and b, or 18 where a split of either has no length.
pub(crate) fn weigh(s: &[u8], a: Tree, b: Tree) -> Result<f64, Refusal>
    requires s_value { whole_at s.now ≡ true }
    requires bound { 1 ≤ (numbers_at s.now).kept }
    requires a_bound { (a.0 < trees_held_at s.now) × (b.0 < trees_held_at s.now) }
    ensures { weight_given result ≡ weighted_kept s.now a.0 b.0 }
{
    let mut xs = [0.0; ROOM];
    if !copy_lengths(s, a, &mut xs) {
        return Err(Refusal::NoLength);
    }
    let mut ys = [0.0; ROOM];
    if !copy_lengths(s, b, &mut ys) {
        return Err(Refusal::NoLength);
    }
    let n = rows::splits_in(s, a);
    let m = rows::splits_in(s, b);
    Ok(weigh_given(s, a, &xs[..n], b, &ys[..m]))
}

// Copies the lengths of tree i to the front of `lengths`, and says whether every split has one.
fn copy_lengths(s: &[u8], i: Tree, lengths: &mut [f64]) -> bool
    requires s_value { whole_at s.now ≡ true }
    requires bound { 1 ≤ (numbers_at s.now).kept }
    requires i_bound { i.0 < trees_held_at s.now }
    requires i_in_bounds { length (list_at s.now i.0) ≤ length lengths.old }
    ensures { all_given (branches_at s.now i.0) ≡ if_copied result (length (list_at s.now i.0)) lengths.new }
{
    let n = rows::splits_in(s, i);
    for j in 0..n {
        let Some(x) = rows::length_in(s, i, j) else {
            return false;
        };
        lengths[j] = x;
    }
    true
}

// The weighted distance between the trees a and b with the lengths xs and ys.
fn weigh_given(s: &[u8], a: Tree, xs: &[f64], b: Tree, ys: &[f64]) -> f64
    requires s_value { whole_at s.now ≡ true }
    requires a_bound { (a.0 < trees_held_at s.now) × (b.0 < trees_held_at s.now) }
    requires xs_len { (length xs.now ≡ length (list_at s.now a.0)) × (length ys.now ≡ length (list_at s.now b.0)) }
    ensures { result ≡ weighted (tree_at s.now a.0) xs.now (tree_at s.now b.0) ys.now }
{
    let mut first = [0; ROOM];
    rows::copy_tree(s, a, &mut first);
    let mut second = [0; ROOM];
    rows::copy_tree(s, b, &mut second);
    let n = xs.len();
    let m = ys.len();
    weighing::weighted(&first[..n], xs, &second[..m], ys)
}
