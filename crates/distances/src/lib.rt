// The distances between the trees of a whole store, and their matrix.
//
// Its contracts cite, of crate trees, `specs/Distance.antt` (`one_sided`, `doubled`, `matrix`) and, of crate
// layout, `specs/Store.antt` (`tree_at`, `held_at`); `specs/Marks.antt`, `specs/Short.antt`, `specs/Entries.antt` and
// `specs/Eight.antt` say what the functions between do.
#![tactic(auto)]

ghost use Rattle.std.specs.Prelude.{◌≡◌, ◌*◌, ◌<◌, ◌≤◌, true, ◌++◌, map, length, drop};
ghost use Rattle.trees.specs.Distance.{one_sided, doubled, matrix};
ghost use Rattle.layout.specs.Store.{trees_held_at, tree_at, held_at};
ghost use Rattle.layout.specs.WholeStore.{whole_at};

use answers::Tree;
use layout::MOST_ROOM;

mod eight;
mod entries;
mod marks;
mod short;

pub use eight::{EIGHT_ROWS, write_eight};
pub use short::{MOST_TREES, PLACES, shorten};

// The number of splits of tree a that tree b lacks.
pub fn one_sided(s: &[u8], a: Tree, b: Tree) -> u16
    requires s_value { whole_at s.now ≡ true }
    requires a_bound { (a.0 < trees_held_at s.now) × (b.0 < trees_held_at s.now) }
    ensures { result ≡ one_sided (tree_at s.now a.0) (tree_at s.now b.0) }
{
    let mut marks = [1; MOST_ROOM];
    marks::mark_tree(s, b.0, &mut marks);
    marks::lacking(s, b.0, &marks, a.0) as u16
}

// The doubled distance between the trees a and b.
pub fn doubled(s: &[u8], a: Tree, b: Tree) -> u16
    requires s_value { whole_at s.now ≡ true }
    requires a_bound { (a.0 < trees_held_at s.now) × (b.0 < trees_held_at s.now) }
    ensures { result ≡ doubled (tree_at s.now a.0) (tree_at s.now b.0) }
{
    let mut marks = [1; MOST_ROOM];
    marks::mark_tree(s, a.0, &mut marks);
    marks::distance(s, a.0, &marks, b.0)
}

// Writes the doubled distances of tree i from all trees, in their order, to the front of `out`.
pub fn write_row(s: &[u8], i: Tree, out: &mut [u16])
    requires s_value { whole_at s.now ≡ true }
    requires i_bound { i.0 < trees_held_at s.now }
    requires s_in_bounds { trees_held_at s.now ≤ length out.old }
    ensures { out.new ≡ map (doubled (tree_at s.now i.0)) (held_at s.now).trees ++ drop (trees_held_at s.now) out.old }
{
    let trees = layout::trees_held(s);
    let mut marks = [1; MOST_ROOM];
    marks::mark_tree(s, i.0, &mut marks);
    for j in 0..trees {
        out[j] = marks::distance(s, i.0, &marks, j);
    }
}

// Writes the doubled distances of all pairs of trees to the front of `out`, row by row.
pub fn write_matrix(s: &[u8], out: &mut [u16])
    requires s_value { whole_at s.now ≡ true }
    requires s_in_bounds { trees_held_at s.now * trees_held_at s.now ≤ length out.old }
    ensures { out.new ≡ matrix (held_at s.now).trees ++ drop (trees_held_at s.now * trees_held_at s.now) out.old }
{
    let trees = layout::trees_held(s);
    let mut short = [0; PLACES];
    let mut sizes = [0; MOST_TREES];
    short::shorten(s, trees, &mut short, &mut sizes);
    entries::write_entries(s, trees, &short, &sizes, out);
}
