// The entries of the matrix, from the short lists of the trees. A row is written from its own tree on, and each
// distance into the column too, so that every pair of trees is compared once.
//
// Its contracts cite `specs/Entries.antt` and `specs/Short.antt`.
ghost use Rattle.std.specs.Prelude.{◌≡◌, ◌+◌, ◌*◌, ◌<◌, ◌≤◌, true, ◌++◌, length, drop, slice_set};
ghost use Rattle.trees.specs.Distance.{matrix};
ghost use Rattle.layout.specs.Store.{trees_held_at, held_at};
ghost use Rattle.layout.specs.WholeStore.{whole_at};
ghost use Rattle.distances.specs.Marks.{marks_of};
ghost use Rattle.distances.specs.Entries.{Filled};
ghost use Rattle.distances.specs.Short.{short_list, Shortened};

use crate::short::{MOST_TREES, PLACES, distance, mark_rows, rows_of};
use layout::MOST_ROOM;

// Writes the distances of all pairs of trees to the front of `out`, row by row.
pub(crate) fn write_entries(
    s: &[u8],
    trees: usize,
    short: &[u16; PLACES],
    sizes: &[u16; MOST_TREES],
    out: &mut [u16],
)
    requires s_value { whole_at s.now ≡ true }
    requires trees_value { trees ≡ trees_held_at s.now }
    requires shortened { Shortened s.now (trees_held_at s.now) short.now sizes.now }
    requires s_in_bounds { trees_held_at s.now * trees_held_at s.now ≤ length out.old }
    ensures { out.new ≡ matrix (held_at s.now).trees ++ drop (trees_held_at s.now * trees_held_at s.now) out.old }
{
    let mut marks = [1; MOST_ROOM];
    for i in 0..trees {
        let rows = rows_of(short, sizes, i);
        mark_rows(rows, 0, &mut marks);
        write_pairs(s, i, rows, &marks, short, sizes, out);
        mark_rows(rows, 1, &mut marks);
    }
}

// Writes the distances of tree i, whose rows are marked, from itself and the trees behind it.
fn write_pairs(
    s: &[u8],
    i: usize,
    rows: &[u16],
    marks: &[u8; MOST_ROOM],
    short: &[u16; PLACES],
    sizes: &[u16; MOST_TREES],
    out: &mut [u16],
)
    requires s_value { whole_at s.now ≡ true }
    requires i_bound { i < trees_held_at s.now }
    requires rows_value { rows.now ≡ short_list s.now i }
    requires marks_value { marks.now ≡ marks_of rows.now }
    requires shortened { Shortened s.now (trees_held_at s.now) short.now sizes.now }
    requires s_in_bounds { trees_held_at s.now * trees_held_at s.now ≤ length out.old }
    requires filled { Filled s.now i i out.old }
    ensures filled_2 { Filled s.now (i + 1) (i + 1) out.new }
    ensures out_len_unchanged { length out.new ≡ length out.old }
    ensures out_unchanged { drop (trees_held_at s.now * trees_held_at s.now) out.new ≡ drop (trees_held_at s.now * trees_held_at s.now) out.old }
{
    let trees = layout::trees_held(s);
    for j in i..trees {
        let d = distance(rows, marks, rows_of(short, sizes, j));
        put_pair(out, trees, i, j, d);
    }
}

// Puts d into row i at j and into row j at i, of rows that are n long.
fn put_pair(out: &mut [u16], n: usize, i: usize, j: usize, d: u16)
    requires n_bound { n ≤ 1024 }
    requires n_in_bounds { n * n ≤ length out.old }
    requires i_lt_n { i < n }
    requires j_lt_n { j < n }
    ensures { out.new ≡ slice_set (slice_set out.old (i * n + j) d) (j * n + i) d }
{
    let here = entry(n, i, j);
    out[here] = d;
    let there = entry(n, j, i);
    out[there] = d;
}

// Where entry j of row i is, in rows that are n long.
fn entry(n: usize, i: usize, j: usize) -> usize
    requires n_bound { n ≤ 1024 }
    requires i_lt_n { i < n }
    requires j_lt_n { j < n }
    ensures value { result ≡ i * n + j }
    ensures upper_bound { result < n * n }
{
    i * n + j
}
