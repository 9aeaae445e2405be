// The lists of rows without those of the splits that every tree has: no tree lacks such a split, so it adds
// nothing to a distance. They stand in a table that has 64 places for each tree.
//
// Its contracts cite `specs/Short.antt` and `specs/Marks.antt`.
ghost use Rattle.std.specs.Prelude.{◌≡◌, ◌+◌, ◌*◌, ◌<◌, ◌≤◌, true, length, slice_index};
ghost use Rattle.std.proofs.lemmas.List.Edits.{sets};
ghost use Rattle.trees.specs.Opening.{most_room};
ghost use Rattle.trees.specs.Distance.{doubled};
ghost use Rattle.layout.specs.Store.{trees_held_at};
ghost use Rattle.layout.specs.WholeStore.{whole_at};
ghost use Rattle.distances.specs.Marks.{marked, marks_of, mark_sum};
ghost use Rattle.distances.specs.Short.{Rows, short_list, rows_in, Shortened};

use answers::Tree;
use layout::MOST_ROOM;

// How many trees the table has room for.
pub const MOST_TREES: usize = 1024;

// How many places the table has.
pub const PLACES: usize = 65536;

// Puts the short lists of the first n trees into the table.
pub fn shorten(s: &[u8], n: usize, short: &mut [u16; PLACES], sizes: &mut [u16; MOST_TREES])
    requires s_value { whole_at s.now ≡ true }
    requires n_bound { n ≤ trees_held_at s.now }
    requires short_len { length short.old ≡ 65536 }
    requires sizes_len { length sizes.old ≡ 1024 }
    ensures { Shortened s.now n short.new sizes.new }
{
    for i in 0..n {
        let size = shorten_tree(s, i, short);
        sizes[i] = size as u16;
    }
}

// Puts the short list of tree i into its places, and answers its length.
fn shorten_tree(s: &[u8], i: usize, short: &mut [u16; PLACES]) -> usize
    requires s_value { whole_at s.now ≡ true }
    requires i_bound { i < trees_held_at s.now }
    requires short_len { length short.old ≡ 65536 }
    ensures value { result ≡ length (short_list s.now i) }
    ensures short_after { short.new ≡ sets short.old (64 * i) (short_list s.now i) }
{
    let trees = layout::trees_held(s);
    let from = rows::tree_from(s, Tree(i));
    let n = rows::splits_in(s, Tree(i));
    let first = 64 * i;
    let mut at = first;
    for j in 0..n {
        let k = rows::row_in(s, Tree(i), from, j);
        if rows::count_at(s, k) != trees {
            short[at] = k as u16;
            at += 1;
        }
    }
    at - first
}

// The rows of tree i that stand in the table.
pub(crate) fn rows_of<'a, 'b>(
    short: &'a [u16; PLACES],
    sizes: &'b [u16; MOST_TREES],
    i: usize,
) -> &'a [u16]
    requires short_len { length short.now ≡ 65536 }
    requires sizes_len { length sizes.now ≡ 1024 }
    requires i_bound { i < 1024 }
    requires i_bound_2 { slice_index sizes.now i ≤ 64 }
    ensures { result.now ≡ rows_in short.now sizes.now i }
{
    let from = 64 * i;
    let end = from + usize::from(sizes[i]);
    let all = &short[..];
    &all[from..end]
}

// Puts v at each of the rows.
pub(crate) fn mark_rows(rows: &[u16], v: u8, marks: &mut [u8; MOST_ROOM])
    requires rows { Rows rows.now }
    requires marks_len { length marks.old ≡ most_room }
    ensures { marks.new ≡ marked v rows.now marks.old }
{
    for row in rows {
        let k = usize::from(*row);
        marks[k] = v;
    }
}

// The doubled distance of the rows b from the rows a, which are marked.
pub(crate) fn distance(a: &[u16], marks: &[u8; MOST_ROOM], b: &[u16]) -> u16
    requires rows { Rows a.now }
    requires marks_value { marks.now ≡ marks_of a.now }
    requires rows_2 { Rows b.now }
    ensures { result ≡ doubled a.now b.now }
{
    let here = sum_rows(b, marks);
    let there = a.len() + here - b.len();
    (there + here) as u16
}

// The sum of the marks of the rows.
fn sum_rows(rows: &[u16], marks: &[u8; MOST_ROOM]) -> usize
    requires rows { Rows rows.now }
    requires marks_len { length marks.now ≡ most_room }
    ensures { result ≡ mark_sum marks.now rows.now }
{
    let mut sum = 0;
    for row in rows {
        let k = usize::from(*row);
        sum += usize::from(marks[k]);
    }
    sum
}
