// The first line of the input, taken piece by piece, and the collection that it opens.
//
// `specs/FirstLine.antt` says what is kept of the line; `specs/Summary.antt` what it opens.
ghost use Rattle.std.specs.Prelude.{◌≡◌, ◌≤◌, ◌<◌, length, set};
ghost use Rattle.trees.specs.Text.{turned};
ghost use Rattle.head.specs.Head.{up_to};
ghost use Rattle.table.specs.Promises.{OpenedAs};
ghost use Rattle.summary.specs.Summary.{first_line, first_constant, second_constant, names_opening};
ghost use Rattle.summary.specs.FirstLine.{kept_of, kept_after, spaces_with, used_with, TakenAs, kept_opening};

use crate::{LinePart, Taken};
use answers::{Refusal, Taxon};

// Takes a piece up to its line end, and keeps what fits into the buffer.
pub(crate) fn take_line(line: LinePart, out: &mut [u8], piece: &[u8]) -> Taken
    ensures { TakenAs (kept_of line out.old) piece.now result out.new }
{
    let n = line_end(piece);
    let next = keep_bytes(line, out, &piece[..n]);
    if n == piece.len() {
        return Taken {
            taken: n,
            ended: false,
            line: next,
        };
    }
    Taken {
        taken: n + 1,
        ended: true,
        line: next,
    }
}

// How many bytes stand before the first LF: all, where there is none.
fn line_end(piece: &[u8]) -> usize
    ensures value { result ≡ length (first_line piece.now) }
    ensures upper_bound { result ≤ length piece.now }
{
    for i in 0..piece.len() {
        if piece[i] == 10 {
            return i;
        }
    }
    piece.len()
}

// Keeps the bytes of a piece that has no line end.
fn keep_bytes(line: LinePart, out: &mut [u8], piece: &[u8]) -> LinePart
    ensures { kept_of result out.new ≡ kept_after (kept_of line out.old) piece.now }
{
    let mut used = line.used;
    let mut spaces = line.spaces;
    let mut quoted = line.quoted;
    for b in piece {
        spaces = count_space(spaces, quoted, *b);
        quoted = turn_quotes(quoted, *b);
        used = keep_byte(out, used, *b);
    }
    LinePart {
        used,
        spaces,
        quoted,
    }
}

// One more, where b is a space outside quotes and there are fewer than 64.
fn count_space(spaces: usize, quoted: bool, b: u8) -> usize
    ensures { result ≡ spaces_with spaces quoted b }
{
    if quoted {
        return spaces;
    }
    if b != 32 {
        return spaces;
    }
    if 64 <= spaces {
        return spaces;
    }
    spaces + 1
}

// Whether quotes are open behind b.
fn turn_quotes(quoted: bool, b: u8) -> bool
    ensures { result ≡ turned quoted b }
{
    if b == 39 {
        return !quoted;
    }
    quoted
}

// Keeps a byte, where it fits.
fn keep_byte(out: &mut [u8], used: usize, b: u8) -> usize
    ensures value { result ≡ used_with used out.old }
    ensures out_after { out.new ≡ set out.old used b }
{
    if out.len() <= used {
        return used;
    }
    out[used] = b;
    used + 1
}

// Opens the collection that the line asks for in the lent bytes s.
pub(crate) fn open_line(s: &mut [u8], line: LinePart, out: &[u8]) -> Result<(), Refusal>
    ensures { OpenedAs (kept_opening (kept_of line out.now) (length s.old)) result s.old s.new }
{
    let spaces = line.spaces;
    if 63 < spaces {
        return Err(Refusal::OutOfRange);
    }
    let used = line.used.min(out.len());
    open_names(s, spaces + 1, &out[..used])
}

// Opens a collection of n names, which keeps no lengths.
fn open_names(s: &mut [u8], n: usize, list: &[u8]) -> Result<(), Refusal>
    requires { n ≤ 64 }
    ensures { OpenedAs (names_opening n list.now (length s.old)) result s.old s.new }
{
    let mut first = [0u64; 64];
    let mut second = [0u64; 64];
    fill_constants(&mut first, &mut second);
    table::open(
        s,
        n as u32,
        1,
        48,
        256,
        512,
        false,
        list,
        &first[..n],
        &second[..n],
    )
}

// Puts the constants of every taxon.
fn fill_constants(first: &mut [u64], second: &mut [u64])
    requires { (length first.old ≡ 64) × (length second.old ≡ 64) }
    ensures first_after { first.new ≡ up_to first_constant 64 }
    ensures second_after { second.new ≡ up_to second_constant 64 }
{
    for i in 0..64 {
        first[i] = first_constant(i as u64);
        second[i] = masks::only_taxon(Taxon(i as u32));
    }
}

// The first constant of taxon i.
fn first_constant(i: u64) -> u64
    requires { i < 64 }
    ensures { result ≡ first_constant i }
{
    37 * (i * i) % 512
}
