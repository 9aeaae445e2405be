// What the calls answer, in a few numbers and the two consensus trees.
use crate::{files, measured, opened};
use answers::Refusal;
use std::time::CpuClock;

// The number that the system gives standard output.
pub(crate) const STDOUT: i32 = 1;

// Opens the collection, makes each call once and writes what it answered.
pub(crate) fn write_answers(
    rt: &impl CpuClock,
    kept: bool,
    names: &[u8],
    texts: &[u8],
    s: &mut [u8; 778760],
    matrix: &mut [u16; 1048576],
) {
    opened::open(s, kept, names);
    write_batch(s, texts);
    write_matrix(s, matrix);
    write_consensus(s);
    if kept {
        write_lengths(s);
    }
    write_files(rt, kept, names, texts, s);
}

// The collection's split file, what it reads as, and two files of its records merged.
fn write_files(rt: &impl CpuClock, kept: bool, names: &[u8], texts: &[u8], s: &mut [u8; 778760]) {
    write_number(b"file ", files::make_files(rt, b'e', 1, names, s).sum);
    write_number(b"read ", files::make_files(rt, b'r', 1, names, s).sum);
    opened::fill(s, kept, names, texts);
    write_number(b"merged ", files::make_files(rt, b'u', 1, names, s).sum);
}

// How many texts, trees and splits there are, and the verdicts.
fn write_batch(s: &mut [u8], texts: &[u8]) {
    let mut verdicts = [0u32; 2048];
    let n = given(opened::take_texts(s, texts, &mut verdicts));
    write_number(b"texts ", n as u64);
    write_counts(s);
    write_number(b"verdicts ", sum_of_sums(front(&verdicts, n)));
}

// How many trees and splits there are.
fn write_counts(s: &[u8]) {
    write_number(b"trees ", given(table::tree_count(s)) as u64);
    write_number(b"splits ", given(table::split_count(s)) as u64);
}

// All distances.
fn write_matrix(s: &[u8], matrix: &mut [u16]) {
    let n = given(comparing::matrix(s, matrix));
    write_number(b"matrix ", sum_of_sums(front(matrix, n)));
}

// Both consensus trees.
fn write_consensus(s: &[u8]) {
    let mut strict = [0u8; 4352];
    let mut majority = [0u8; 4352];
    let lengths = consensus::both(s, &mut strict, &mut majority);
    let Ok((a, b)) = lengths else {
        return;
    };
    write_text(b"strict ", &strict, a);
    write_text(b"majority ", &majority, b);
}

// The weighted distances between the first tree and each, and the lengths of each split.
fn write_lengths(s: &[u8]) {
    let trees = given(table::tree_count(s));
    let splits = given(table::split_count(s));
    write_number(b"weighted ", lengths_sum(b'd', s, trees));
    write_number(b"lengths ", lengths_sum(b'l', s, splits));
}

// The number that a call gives; 0 where it refuses.
pub(crate) fn given(x: Result<usize, Refusal>) -> usize {
    x.unwrap_or(0)
}

// Writes a number behind its name.
pub(crate) fn write_number(name: &[u8], x: u64) {
    io::write_all(STDOUT, name);
    io::print_decimal(STDOUT, x);
    io::write_all(STDOUT, b"\n");
}

// Writes the first n bytes of a text behind its name.
fn write_text(name: &[u8], text: &[u8], n: usize) {
    io::write_all(STDOUT, name);
    io::write_all(STDOUT, front(text, n));
    io::write_all(STDOUT, b"\n");
}

// A sum modulo 2^64, and the sum of the sums until then, which tells the order too.
#[derive(Clone, Copy)]
struct Sums {
    sum: u64,
    sums: u64,
}

// Those with x behind what was added.
fn with(all: Sums, x: u64) -> Sums {
    let sum = all.sum.wrapping_add(x);
    Sums {
        sum,
        sums: all.sums.wrapping_add(sum),
    }
}

// The sum of the sums of the first 1, 2, .. numbers.
pub(crate) fn sum_of_sums<T: Copy + Into<u64>>(numbers: &[T]) -> u64 {
    let mut all = Sums { sum: 0, sums: 0 };
    for x in numbers {
        all = with(all, (*x).into());
    }
    all.sums
}

// The same of the first n answers on lengths.
fn lengths_sum(part: u8, s: &[u8], n: usize) -> u64 {
    let mut all = Sums { sum: 0, sums: 0 };
    for i in 0..n {
        all = with(all, measured::lengths_word(part, s, i));
    }
    all.sums
}

// The first n items; all of them, where there are not so many.
pub(crate) fn front<T: Copy>(items: &[T], n: usize) -> &[T] {
    if items.len() < n {
        return items;
    }
    &items[..n]
}
