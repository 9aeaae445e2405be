// The rows of the matrix, which are made eight at once.
//
// Its contracts cite crate distances, `specs/Eight.antt` (`Block`), and `specs/Writing.antt` (`Kept`).
ghost use Rattle.std.specs.Prelude.{◌≡◌, true, ◌*◌, ◌%◌, ◌≤◌, ◌<◌, length, take, drop};
ghost use Rattle.layout.specs.Store.{trees_held_at};
ghost use Rattle.layout.specs.WholeStore.{whole_at};
ghost use Rattle.distances.specs.Short.{Shortened};
ghost use Rattle.distances.specs.Eight.{Block};
ghost use Rattle.phylip.specs.Writing.{Kept};

use answers::Tree;
use distances::{EIGHT_ROWS, MOST_TREES, PLACES};

// Makes the next eight rows where tree i is the first of eight; else its row is there.
pub(crate) fn renew(
    s: &[u8],
    i: usize,
    short: &[u16; PLACES],
    sizes: &[u16; MOST_TREES],
    rows: &mut [u16; EIGHT_ROWS],
)
    requires s_value { whole_at s.now ≡ true }
    requires i_bound { i < trees_held_at s.now }
    requires shortened { Shortened s.now (trees_held_at s.now) short.now sizes.now }
    requires kept { Kept s.now i rows.old }
    ensures { Block s.now i rows.new }
{
    if i % 8 == 0 {
        distances::write_eight(s, Tree(i), short, sizes, rows);
    }
}

// The row of tree i, of so many trees.
pub(crate) fn row_of(rows: &[u16; EIGHT_ROWS], i: usize, trees: usize) -> &[u16]
    requires rows_len { length rows.now ≡ 8192 }
    requires trees_bound { trees ≤ 1024 }
    ensures { result.now ≡ take trees (drop (1024 * (i % 8)) rows.now) }
{
    let from = 1024 * (i % 8);
    let end = from + trees;
    let all = &rows[..];
    &all[from..end]
}
