// The parts that are timed, each named by its first letter, or x for `withdraw`. Matrices as text are timed in matrices.rt.
use crate::files::Made;
use crate::{clock, files, measured, opened};
use answers::{Lane, Tree};
use std::time::CpuClock;

// Fills the collection, makes a part n times, and answers the nanoseconds of one time.
pub(crate) fn time_part(
    rt: &impl CpuClock,
    part: u8,
    n: u64,
    kept: bool,
    names: &[u8],
    texts: &[u8],
    s: &mut [u8; 778760],
    matrix: &mut [u16; 1048576],
) -> u64 {
    opened::fill(s, kept, names, texts);
    clock::time(rt, n, |i| make_part(part, i, kept, names, texts, s, matrix))
}

// Fills the collection, makes a part of split files n times, and answers the nanoseconds of one time.
pub(crate) fn time_files(
    rt: &impl CpuClock,
    part: u8,
    n: u64,
    kept: bool,
    names: &[u8],
    texts: &[u8],
    s: &mut [u8; 778760],
) -> u64 {
    opened::fill(s, kept, names, texts);
    let made: Made = files::make_files(rt, part, n, names, s);
    keep(made.sum, s);
    made.time
}

// Makes a part for the i-th time: opening; opening and a batch; opening and each text by a call of its own; all pairs of trees; or a part
// that leaves the collection as it is.
fn make_part(
    part: u8,
    i: u64,
    kept: bool,
    names: &[u8],
    texts: &[u8],
    s: &mut [u8; 778760],
    matrix: &mut [u16; 1048576],
) {
    match part {
        b'o' => opened::open(s, kept, names),
        b'b' => opened::fill(s, kept, names, texts),
        b's' => opened::fill_singly(s, kept, names, texts),
        b'm' => {
            let _ = comparing::matrix(s, matrix);
        }
        _ => ask(part, i as usize, texts, s),
    }
}

// Both consensus trees; the weighted distance between the first tree and tree i; the lengths of split i; a text that a full collection
// refuses with 11; withdrawing the first tree, which leaves one fewer each time; the test that every call makes first; or a
// plain pass over the store.
fn ask(part: u8, i: usize, texts: &[u8], s: &mut [u8; 778760]) {
    match part {
        b'c' => write_both(s),
        b'd' => keep(measured::lengths_word(part, s, i), s),
        b'l' => keep(measured::lengths_word(part, s, i), s),
        b'f' => {
            feeding::feed(s, Lane(0), opened::first_text(texts));
        }
        b'x' => {
            let _ = withdrawing::withdraw(s, Tree(0));
        }
        b'w' => test(s),
        _ => pass(s),
    }
}

// Both consensus trees.
fn write_both(s: &[u8]) {
    let mut strict = [0u8; 4352];
    let mut majority = [0u8; 4352];
    let _ = consensus::both(s, &mut strict, &mut majority);
}

// Writes a byte that no lane holds, so that the compiler cannot leave out what x was made by, nor make one of many.
fn keep(x: u64, s: &mut [u8; 778760]) {
    if x != 0 {
        s[5000] = 1;
    }
}

// The test that every call makes first.
fn test(s: &mut [u8; 778760]) {
    if store::is_whole(s) {
        s[5000] = 1;
    }
}

// A plain pass over the store as it is without lengths.
fn pass(s: &mut [u8; 778760]) {
    keep(word_sum(s), s);
}

// The sum of the first 31,809 words of the store, modulo 2^64.
fn word_sum(s: &[u8; 778760]) -> u64 {
    let mut sum = 0u64;
    for i in 0..31809 {
        sum = sum.wrapping_add(fields::get64(s, 8 * i));
    }
    sum
}
