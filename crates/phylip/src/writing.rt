// Writing the doubled distances of a collection's trees.
//
// `specs/Writing.antt` says what is answered (`phylip_asked`); crate trees, `specs/PhylipCall.antt`, what the text is
// (`phylip_text`).
ghost use Rattle.std.specs.Prelude.{◌≡◌, true, ◌≤◌, leb, length};
ghost use Rattle.trees.specs.Phylip.{row_texts};
ghost use Rattle.trees.specs.PhylipCall.{phylip_text};
ghost use Rattle.answers.specs.Filled.{FilledAs};
ghost use Rattle.layout.specs.Store.{trees_held_at, held_at};
ghost use Rattle.layout.specs.WholeStore.{whole_at};
ghost use Rattle.distances.specs.Short.{Shortened};
ghost use Rattle.putting.specs.Put.{Put};
ghost use Rattle.phylip.specs.Writing.{phylip_asked, distance_rows, most_bytes};

use crate::{digits, eight, line};
use answers::Refusal;
use distances::{EIGHT_ROWS, MOST_TREES, PLACES};

// Writes the doubled distances of all pairs of trees in PHYLIP's square layout to the front of out.
pub fn write_matrix(s: &[u8], out: &mut [u8]) -> Result<usize, Refusal>
    ensures { FilledAs (phylip_asked s.now (length out.old)) result out.old out.new }
{
    if !store::is_whole(s) {
        return Err(Refusal::NotWhole);
    }
    if !has_room(s, out.len()) {
        return Err(Refusal::TooShort);
    }
    let n = put_matrix(s, out);
    Ok(n)
}

// Whether the text has at most `room` bytes. Its length is asked only where the longest text of so many trees has more.
fn has_room(s: &[u8], room: usize) -> bool
    requires { whole_at s.now ≡ true }
    ensures { result ≡ leb (length (phylip_text (held_at s.now).trees)) room }
{
    if most_bytes(layout::trees_held(s)) <= room {
        return true;
    }
    text_length(s) <= room
}

// How many bytes the text of so many trees has at most.
fn most_bytes(trees: usize) -> usize
    requires { trees ≤ 1024 }
    ensures { result ≡ most_bytes trees }
{
    5 + trees * (4 * trees + 11)
}

// The text's length, found by writing it where there is no room for it.
fn text_length(s: &[u8]) -> usize
    requires { whole_at s.now ≡ true }
    ensures { result ≡ length (phylip_text (held_at s.now).trees) }
{
    let mut nothing = [0u8; 1];
    put_matrix(s, &mut nothing)
}

// Writes the text, as far as out reaches, and answers its length.
fn put_matrix(s: &[u8], out: &mut [u8]) -> usize
    requires { whole_at s.now ≡ true }
    ensures { Put out.old 0 (phylip_text (held_at s.now).trees) out.new result }
{
    let trees = layout::trees_held(s);
    let mut short = [0; PLACES];
    let mut sizes = [0; MOST_TREES];
    distances::shorten(s, trees, &mut short, &mut sizes);
    let e = digits::put_number(out, 0, trees as u16);
    putting::put_byte(out, e, b'\n');
    put_lines(s, &short, &sizes, out, e + 1)
}

// Writes the lines of all trees from `at` on.
fn put_lines(
    s: &[u8],
    short: &[u16; PLACES],
    sizes: &[u16; MOST_TREES],
    out: &mut [u8],
    at: usize,
) -> usize
    requires s_value { whole_at s.now ≡ true }
    requires shortened { Shortened s.now (trees_held_at s.now) short.now sizes.now }
    requires at_bound { at ≤ 5 }
    ensures { Put out.old at (row_texts 0 (distance_rows (held_at s.now).trees)) out.new result }
{
    let trees = layout::trees_held(s);
    let mut rows = [0u16; EIGHT_ROWS];
    let mut e = at;
    for i in 0..trees {
        eight::renew(s, i, short, sizes, &mut rows);
        e = line::put_line(out, e, i, eight::row_of(&rows, i, trees));
    }
    e
}
