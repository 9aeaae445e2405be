// Labels, and what they are read as. A label stands in a text with its quotes, if it has any; where it reads as its own bytes, it need
// not be read. Crate trees, specs/Text.antt, says what `read_as` is; specs/Labels.antt here what a reading leaves.
ghost use Rattle.std.specs.Prelude.{◌≡◌, true, ◌&&◌, map, ◌+◌, ◌≤◌, eqb, length};
ghost use Rattle.std.proofs.Math.Seq.{slice};
ghost use Rattle.trees.specs.Plain.{same_bytes};
ghost use Rattle.trees.specs.Text.{apostrophe, spaced as spacedByte, unquoted, read_as};
ghost use Rattle.trees.specs.Names.{most_name};
ghost use Rattle.text.specs.Labels.{opens_quotes, ReadUpTo, ReadInto};

use crate::turned;

// The most bytes of a name.
const MOST_NAME: usize = 32;

// Reads the label from b up to e into out, from `at` on and as far as a name reaches, and answers how many bytes it is read as, or one
// more than a name has where these are too many.
pub fn read_label(text: &[u8], b: usize, e: usize, out: &mut [u8], at: usize) -> usize
    requires b_le_e { b ≤ e }
    requires e_in_bounds { e ≤ length text.now }
    requires most_name_in_bounds { at + most_name ≤ length out.old }
    ensures { ReadInto out.old at (read_as (slice b e text.now)) result out.new }
{
    read_up_to(text, b, e, out, at, MOST_NAME)
}

// Reads a label as `read_label` does, as far as `most` bytes.
pub fn read_up_to(text: &[u8], b: usize, e: usize, out: &mut [u8], at: usize, most: usize) -> usize
    requires b_le_e { b ≤ e }
    requires e_in_bounds { e ≤ length text.now }
    requires most_in_bounds { at + most ≤ length out.old }
    ensures { ReadUpTo most out.old at (read_as (slice b e text.now)) result out.new }
{
    if opens_quotes(text, b, e) {
        return read_quoted(text, b + 1, e, out, at, most);
    }
    read_unquoted(text, b, e, out, at, most)
}

// Whether the label from b up to e reads as its own bytes.
pub fn is_plain_label(text: &[u8], b: usize, e: usize) -> bool
    requires b_le_e { b ≤ e }
    requires e_in_bounds { e ≤ length text.now }
    ensures { result ≡ same_bytes (read_as (slice b e text.now)) (slice b e text.now) }
{
    if opens_quotes(text, b, e) {
        return false;
    }
    for i in b..e {
        if text[i] == b'_' {
            return false;
        }
    }
    true
}

// Whether the bytes from b up to e begin with a quote.
fn opens_quotes(text: &[u8], b: usize, e: usize) -> bool
    requires b_le_e { b ≤ e }
    requires e_in_bounds { e ≤ length text.now }
    ensures { result ≡ opens_quotes (slice b e text.now) }
{
    if b < e {
        return text[b] == b'\'';
    }
    false
}

// Reads a label without quotes.
fn read_unquoted(text: &[u8], b: usize, e: usize, out: &mut [u8], at: usize, most: usize) -> usize
    requires b_le_e { b ≤ e }
    requires e_in_bounds { e ≤ length text.now }
    requires most_in_bounds { at + most ≤ length out.old }
    ensures { ReadUpTo most out.old at (map spacedByte (slice b e text.now)) result out.new }
{
    for n in 0..e - b {
        if n == most {
            return most + 1;
        }
        out[at + n] = spaced(text[b + n]);
    }
    e - b
}

// Reads a label in quotes, from behind the first of them on.
fn read_quoted(text: &[u8], b: usize, e: usize, out: &mut [u8], at: usize, most: usize) -> usize
    requires b_le_e { b ≤ e }
    requires e_in_bounds { e ≤ length text.now }
    requires most_in_bounds { at + most ≤ length out.old }
    ensures { ReadUpTo most out.old at (unquoted true (slice b e text.now)) result out.new }
{
    let mut inside = true;
    let mut n = 0;
    for i in b..e {
        let x = text[i];
        if closes(inside, x) {
            inside = false;
            continue;
        }
        if n == most {
            return most + 1;
        }
        out[at + n] = x;
        n += 1;
        inside = turned(inside, x);
    }
    n
}

// What a byte of a label without quotes is read as.
fn spaced(b: u8) -> u8
    ensures { result ≡ spacedByte b }
{
    if b == b'_' {
        return b' ';
    }
    b
}

// Whether b closes the quotes, if they are open.
fn closes(inside: bool, b: u8) -> bool
    ensures { result ≡ inside && eqb b apostrophe }
{
    if inside {
        return b == b'\'';
    }
    false
}
