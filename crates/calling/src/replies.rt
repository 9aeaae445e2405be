// Answer lines.
use crate::output::{Output, mark, spaced};
use answers::{Refusal, Tree};

// An answer, with what its line gives. Doubles are given by their bits.
#[derive(Clone, Copy)]
pub(crate) enum Reply<'a> {
    BadLine,
    Done,
    Same,
    Number(usize),
    Size(usize),
    Agree(bool),
    More(usize),
    Accepted(usize, Tree),
    FedRefused(usize, Refusal),
    InText(u64),
    InMajority(u64),
    Split(u64, u32),
    Double(u64),
    Lengths(u64, u64, u64),
    // Masks with their counts, for a split file with its number of trees before them.
    Splits(&'a [u64], &'a [u32]),
    Records(usize, &'a [u64], &'a [u32]),
    // Masks.
    Tree(&'a [u64]),
    // Distances, row by row.
    Matrix(&'a [u16]),
    // Verdicts, of a batch with the bytes taken.
    Nexus(&'a [u32]),
    Batch(&'a [u32], usize),
    // Texts as they are, and bytes in hex.
    Text(&'a [u8]),
    Both(&'a [u8], &'a [u8]),
    Bytes(&'a [u8]),
}

impl Reply<'_> {
    // Puts the answer's line.
    pub(crate) fn put(self, out: &mut Output) {
        match self {
            Reply::BadLine => out.bytes(b"bad line"),
            Reply::Done => out.bytes(b"done"),
            Reply::Same => out.bytes(b"same"),
            Reply::Number(n) => numbered(out, b"number", n as u64),
            Reply::Size(n) => numbered(out, b"bytes", n as u64),
            Reply::Agree(agree) => numbered(out, b"agree", u64::from(agree)),
            Reply::More(taken) => numbered(out, b"more", taken as u64),
            Reply::Accepted(taken, tree) => {
                numbered_twice(out, b"accepted", taken as u64, tree.0 as u64)
            }
            Reply::FedRefused(taken, refusal) => {
                numbered_twice(out, b"refused", taken as u64, number_of(refusal))
            }
            Reply::InText(mask) => numbered(out, b"text", mask),
            Reply::InMajority(mask) => numbered(out, b"majority", mask),
            Reply::Split(mask, count) => numbered_twice(out, b"split", mask, u64::from(count)),
            Reply::Double(bits) => {
                out.bytes(b"double");
                out.double(bits);
            }
            Reply::Lengths(shortest, longest, sum) => lengths(out, shortest, longest, sum),
            _ => self.put_list(out),
        }
        out.byte(b'\n');
    }

    // Puts an answer of lists, texts or bytes, without its line's end.
    fn put_list(self, out: &mut Output) {
        match self {
            Reply::Splits(masks, counts) => {
                out.bytes(b"splits");
                out.counted(masks, counts);
            }
            Reply::Records(trees, masks, counts) => records(out, trees, masks, counts),
            Reply::Tree(masks) => {
                out.bytes(b"tree");
                out.runs(masks, mask);
            }
            Reply::Matrix(distances) => matrix(out, distances),
            Reply::Nexus(verdicts) => {
                out.bytes(b"nexus");
                out.runs(verdicts, verdict);
            }
            Reply::Batch(verdicts, taken) => {
                out.bytes(b"batch");
                out.runs(verdicts, verdict);
                numbered(out, b" taken", taken as u64);
            }
            Reply::Text(text) => {
                out.bytes(b"text ");
                out.bytes(text);
            }
            Reply::Both(strict, majority) => both(out, strict, majority),
            Reply::Bytes(bytes) => {
                out.bytes(b"bytes ");
                out.hex(bytes);
            }
            _ => {}
        }
    }
}

// Puts a refusal's line.
pub(crate) fn put_refusal(refusal: Refusal, out: &mut Output) {
    numbered(out, b"refused", number_of(refusal));
    out.byte(b'\n');
}

// The number of a refusal.
fn number_of(refusal: Refusal) -> u64 {
    u64::from(answers::refusal_number(refusal))
}

// Puts a word and a number.
fn numbered(out: &mut Output, word: &[u8], n: u64) {
    out.bytes(word);
    out.number(n);
}

// Puts a word and two numbers.
fn numbered_twice(out: &mut Output, word: &[u8], n: u64, m: u64) {
    numbered(out, word, n);
    out.number(m);
}

// Puts three doubles.
fn lengths(out: &mut Output, shortest: u64, longest: u64, sum: u64) {
    out.bytes(b"lengths");
    out.double(shortest);
    out.double(longest);
    out.double(sum);
}

// Puts the records of a split file. One without records has no number of trees that is known.
fn records(out: &mut Output, trees: usize, masks: &[u64], counts: &[u32]) {
    if masks.is_empty() {
        // in two, as every other answer's word is put by itself
        out.bytes(b"records");
        out.bytes(b" -");
        return;
    }
    numbered(out, b"records", trees as u64);
    out.counted(masks, counts);
}

// Puts a matrix behind the number of its rows; it has as many columns.
fn matrix(out: &mut Output, distances: &[u16]) {
    numbered(out, b"matrix", distances.len().isqrt() as u64);
    out.byte(b':');
    out.runs(distances, |out, at, d| spaced(out, at, b' ', u64::from(d)));
}

// Puts two texts, with a space between.
fn both(out: &mut Output, strict: &[u8], majority: &[u8]) {
    out.bytes(b"both ");
    out.bytes(strict);
    out.byte(b' ');
    out.bytes(majority);
}

// Puts a mask at `at` and answers where it ends.
fn mask(out: &mut [u8], at: usize, mask: u64) -> usize {
    spaced(out, at, b' ', mask)
}

// Puts a verdict at `at` and answers where it ends: a refusal's number behind a minus, or a tree's, which the library gives with 256 added.
fn verdict(out: &mut [u8], at: usize, v: u32) -> usize {
    let v = u64::from(v);
    if v < 256 {
        let place = mark(out, at, b' ');
        return spaced(out, place, b'-', v);
    }
    spaced(out, at, b' ', v - 256)
}
