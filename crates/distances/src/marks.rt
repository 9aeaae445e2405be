// Marks for the splits that one tree lists, a byte for each row: 0 where the tree has it, 1 where it lacks
// it. The distance of any tree from that one is then a sum of marks, one for each split it lists.
//
// Its contracts cite `specs/Marks.antt`.
ghost use Rattle.std.specs.Prelude.{◌≡◌, ◌<◌, ◌≤◌, true, length};
ghost use Rattle.trees.specs.Opening.{most_room};
ghost use Rattle.trees.specs.Distance.{one_sided, doubled};
ghost use Rattle.layout.specs.Store.{trees_held_at, list_at, tree_at, most_splits};
ghost use Rattle.layout.specs.WholeStore.{whole_at};
ghost use Rattle.distances.specs.Marks.{marked, marks_of, mark_sum};

use answers::Tree;
use layout::MOST_ROOM;

// Marks each row that tree i lists.
pub(crate) fn mark_tree(s: &[u8], i: usize, marks: &mut [u8; MOST_ROOM])
    requires s_value { whole_at s.now ≡ true }
    requires i_bound { i < trees_held_at s.now }
    requires marks_len { length marks.old ≡ most_room }
    ensures { marks.new ≡ marked 0 (list_at s.now i) marks.old }
{
    let from = rows::tree_from(s, Tree(i));
    let n = rows::splits_in(s, Tree(i));
    for j in 0..n {
        let k = rows::row_in(s, Tree(i), from, j);
        marks[k] = 0;
    }
}

// The doubled distance of tree j from tree i, whose rows are marked.
pub(crate) fn distance(s: &[u8], i: usize, marks: &[u8; MOST_ROOM], j: usize) -> u16
    requires s_value { whole_at s.now ≡ true }
    requires i_bound { i < trees_held_at s.now }
    requires marks_value { marks.now ≡ marks_of (list_at s.now i) }
    requires j_bound { j < trees_held_at s.now }
    ensures { result ≡ doubled (tree_at s.now i) (tree_at s.now j) }
{
    let here = lacking(s, i, marks, j);
    let there = rows::splits_in(s, Tree(i)) + here - rows::splits_in(s, Tree(j));
    (there + here) as u16
}

// The number of splits of tree j that tree i lacks, whose rows are marked.
pub(crate) fn lacking(s: &[u8], i: usize, marks: &[u8; MOST_ROOM], j: usize) -> usize
    requires s_value { whole_at s.now ≡ true }
    requires i_bound { i < trees_held_at s.now }
    requires marks_value { marks.now ≡ marks_of (list_at s.now i) }
    requires j_bound { j < trees_held_at s.now }
    ensures value { result ≡ one_sided (tree_at s.now j) (tree_at s.now i) }
    ensures upper_bound { result ≤ most_splits }
{
    sum_marks(s, marks, j)
}

// The sum of the marks of the rows that tree j lists.
fn sum_marks(s: &[u8], marks: &[u8; MOST_ROOM], j: usize) -> usize
    requires s_value { whole_at s.now ≡ true }
    requires marks_len { length marks.now ≡ most_room }
    requires j_bound { j < trees_held_at s.now }
    ensures { result ≡ mark_sum marks.now (list_at s.now j) }
{
    let from = rows::tree_from(s, Tree(j));
    let n = rows::splits_in(s, Tree(j));
    let mut sum = 0;
    for at in 0..n {
        let k = rows::row_in(s, Tree(j), from, at);
        sum += usize::from(marks[k]);
    }
    sum
}
