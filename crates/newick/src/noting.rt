// The lengths in a text that is a tree, from left to right. Those behind closing brackets are noted, in the order of the brackets: so the
// spans of inner nodes were noted too (shape.rt).
ghost use Rattle.std.specs.Prelude.{◌≡◌, ◌-◌, ◌<◌, ◌≤◌, true, false, length, slice_set, if◌then◌else◌};
ghost use Rattle.trees.specs.Text.{symbols};
ghost use Rattle.trees.specs.Held.{most_text};
ghost use Rattle.text.specs.Read.{symbols_at};
ghost use Rattle.newick.specs.Noting.{Fine, is_stop as stopsAt, NextStop, MeasuredBehind, LengthsNoted};

use crate::shape::put;

// The words of 64 lengths: `most_lengths` of specs/Words.antt.
pub(crate) const MOST_LENGTHS: usize = 64;

// The word of no length.
const NO_LENGTH: u64 = 0xffff_ffff_ffff_ffff;

// Notes the lengths of all inner nodes; answers whether all lengths of the text, those of leaves too, are in the exact range.
pub(crate) fn note_lengths(text: &[u8], words: &mut [u64; MOST_LENGTHS]) -> bool
    requires text_len_bound { length text.now ≤ most_text }
    requires fine { Fine false (symbols text.now) }
    ensures { LengthsNoted text.now words.old result words.new }
{
    let mut inner = false;
    let mut n = 0;
    let mut at = next_stop(text, 0);
    // No range counts these places: each is the next stop behind a length, a byte or a label.
    while at < text.len() {
        let b = text[at];
        if b == b':' {
            let m = length_behind(text, at + 1);
            let Some((e, x)) = m else {
                return false;
            };
            note_last(words, inner, n, x);
            at = next_stop(text, e);
            continue;
        }
        if b == b')' {
            put(words, n, NO_LENGTH);
            n += 1;
            inner = true;
            at = next_stop(text, at + 1);
            continue;
        }
        if b == b',' {
            inner = false;
            at = next_stop(text, at + 1);
            continue;
        }
        at = next_stop(text, text::label_end(text, at));
    }
    true
}

// The first place from `from` on where a colon, a closing bracket, a comma or a quote stands. What is passed byte by byte has no length:
// opening brackets, blanks, and labels without quotes.
fn next_stop(text: &[u8], from: usize) -> usize
    requires from_in_bounds { from ≤ length text.now }
    requires fine { Fine false (symbols_at text.now from) }
    ensures { NextStop text.now from result }
{
    for at in from..text.len() {
        if is_stop(text[at]) {
            return at;
        }
    }
    text.len()
}

// Whether b is a colon, a closing bracket, a comma or a quote.
fn is_stop(b: u8) -> bool
    ensures { result ≡ stopsAt b }
{
    if b == b':' {
        return true;
    }
    if b == b')' {
        return true;
    }
    if b == b',' {
        return true;
    }
    b == b'\''
}

// The length behind a colon.
fn length_behind(text: &[u8], at: usize) -> Option<(usize, u64)>
    requires at_in_bounds { (at ≤ length text.now) × (length text.now ≤ most_text) }
    requires fine { Fine true (symbols_at text.now at) }
    ensures { MeasuredBehind text.now at result }
{
    let b = text::skip_blanks(text, at);
    let t = lengths::length_at(text, b);
    let x = t.value?;
    Some((t.at, f64::to_bits(x)))
}

// Notes x as the last of n words, if the node that ended is an inner one.
fn note_last(words: &mut [u64], inner: bool, n: usize, x: u64)
    requires { inner ≡ true → 0 < n }
    ensures { words.new ≡ (if inner then slice_set words.old (n - 1) x else words.old) }
{
    if !inner {
        return;
    }
    put(words, n - 1, x);
}
