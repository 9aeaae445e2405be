// Rows of the matrix, eight at once, from the short lists of the trees. A word for each split has a byte for each of
// the eight trees, so that one walk over a tree's list adds up what it shares with all of them: at most 62 splits, so
// that no byte runs over.
//
// Its contracts cite `specs/Eight.antt` and `specs/Short.antt`.
ghost use Rattle.std.specs.Prelude.{◌≡◌, ◌+◌, ◌-◌, ◌*◌, ◌<◌, ◌≤◌, true, length};
ghost use Rattle.trees.specs.Opening.{most_room};
ghost use Rattle.layout.specs.Store.{trees_held_at};
ghost use Rattle.layout.specs.WholeStore.{whole_at};
ghost use Rattle.distances.specs.Marks.{mark_sum};
ghost use Rattle.distances.specs.Short.{Rows, Shortened};
ghost use Rattle.distances.specs.Eight.{byte_one, added, SmallWords, Table, Words, Fits, Column, Columns, Few, Block};

use crate::short::{MOST_TREES, PLACES, rows_of};
use answers::Tree;
use layout::MOST_ROOM;

// How many places eight rows take.
pub const EIGHT_ROWS: usize = 8192;

// Writes the doubled distances of tree i, and of the seven that are counted with it, from all trees: those of tree a
// from 1,024 times a % 8 on.
pub fn write_eight(
    s: &[u8],
    i: Tree,
    short: &[u16; PLACES],
    sizes: &[u16; MOST_TREES],
    out: &mut [u16; EIGHT_ROWS],
)
    requires s_value { whole_at s.now ≡ true }
    requires i_bound { i.0 < trees_held_at s.now }
    requires shortened { Shortened s.now (trees_held_at s.now) short.now sizes.now }
    requires out_len { length out.old ≡ 8192 }
    ensures { Block s.now i.0 out.new }
{
    let trees = layout::trees_held(s);
    let first = i.0 - i.0 % 8;
    let n = up_to_eight(trees - first);
    let mut words = [0u64; MOST_ROOM];
    mark_lists(short, sizes, first, n, &mut words);
    write_columns(short, sizes, trees, first, n, &words, out);
}

// At most eight of so many.
fn up_to_eight(n: usize) -> usize
    ensures { Few n result }
{
    n.min(8)
}

// Puts the words of the n trees from tree i on.
fn mark_lists(
    short: &[u16; PLACES],
    sizes: &[u16; MOST_TREES],
    i: usize,
    n: usize,
    words: &mut [u64; MOST_ROOM],
)
    requires table { Table (i + n) short.now sizes.now }
    requires n_bound { n ≤ 8 }
    requires words { Words short.now sizes.now i 0 words.old }
    ensures { Words short.now sizes.now i n words.new }
{
    for b in 0..n {
        let rows = rows_of(short, sizes, i + b);
        mark_words(rows, byte_one(b), words);
    }
}

// 1 in byte b of a word.
fn byte_one(b: usize) -> u64
    requires { b < 8 }
    ensures { result ≡ byte_one b }
{
    let k = 8 * b;
    1 << k
}

// Adds v to the word of each of the rows.
fn mark_words(rows: &[u16], v: u64, words: &mut [u64; MOST_ROOM])
    requires rows { Rows rows.now }
    requires words_len { length words.old ≡ most_room }
    ensures { words.new ≡ added v rows.now words.old }
{
    for row in rows {
        let k = usize::from(*row);
        words[k] = words[k].wrapping_add(v);
    }
}

// Writes what the words say, a column of n rows for each tree.
fn write_columns(
    short: &[u16; PLACES],
    sizes: &[u16; MOST_TREES],
    trees: usize,
    i: usize,
    n: usize,
    words: &[u64; MOST_ROOM],
    out: &mut [u16; EIGHT_ROWS],
)
    requires table { Table trees short.now sizes.now }
    requires n_bound { i + n ≤ trees }
    requires n_bound_2 { n ≤ 8 }
    requires words { Words short.now sizes.now i n words.now }
    requires out_len { length out.old ≡ 8192 }
    ensures { Columns short.now sizes.now i n trees out.new }
{
    for j in 0..trees {
        let w = sum_words(rows_of(short, sizes, j), words);
        put_column(sizes, i, n, j, w, out);
    }
}

// The sum of the words of the rows.
fn sum_words(rows: &[u16], words: &[u64; MOST_ROOM]) -> u64
    requires rows { Rows rows.now }
    requires small_words { SmallWords words.now }
    ensures { result ≡ mark_sum words.now rows.now }
{
    let mut sum = 0;
    for row in rows {
        let k = usize::from(*row);
        sum += words[k];
    }
    sum
}

// Puts the distances of n trees from i on from tree j, of whose splits the bytes of w are how many each of them has.
fn put_column(
    sizes: &[u16; MOST_TREES],
    i: usize,
    n: usize,
    j: usize,
    w: u64,
    out: &mut [u16; EIGHT_ROWS],
)
    requires fits { Fits sizes.now i n j w }
    requires out_len { length out.old ≡ 8192 }
    ensures { Column sizes.now i n j w out.old out.new }
{
    let mut rest = w;
    for b in 0..n {
        let both = (rest % 256) as u16;
        out[1024 * b + j] = sizes[i + b] + sizes[j] - 2 * both;
        rest /= 256;
    }
}
