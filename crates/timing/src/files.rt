// The split files that are timed: the collection's own, and two made of its records. They are read and merged over an empty collection of
// the same names, so that the test of the store is small.
ghost use Rattle.std.specs.Prelude.{◌+◌, ◌≤◌, length};

use crate::{answered, clock, opened};
use std::time::CpuClock;

// What is made: the nanoseconds of one time, and a sum over what was left, so that the compiler cannot leave it out.
#[derive(Drop)]
pub(crate) struct Made {
    pub(crate) time: u64,
    pub(crate) sum: u64,
}

// Of a full collection, writes its file (`export`), reads it (`read`) or merges two files of its records (`unite`) n times.
pub(crate) fn make_files(
    rt: &impl CpuClock,
    part: u8,
    n: u64,
    names: &[u8],
    s: &mut [u8; 778760],
) -> Made {
    let mut file = [0u8; 65536];
    let mut k = 0;
    let time = clock::time(rt, times_written(part, n), |_| {
        k = answered::given(splitfile::write_splits(s, &mut file));
    });
    if part == b'e' {
        return Made {
            time,
            sum: answered::sum_of_sums(&file),
        };
    }
    opened::open_empty(s, names);
    if part == b'r' {
        return read_file(rt, n, s, answered::front(&file, k));
    }
    merge_parts(rt, n, s, answered::front(&file, k))
}

// How often the file is written: once, where that is not what is timed.
fn times_written(part: u8, n: u64) -> u64 {
    if part == b'e' { n } else { 1 }
}

// Reads a file n times.
fn read_file(rt: &impl CpuClock, n: u64, s: &[u8], file: &[u8]) -> Made {
    let mut masks = [0u64; 4096];
    let mut counts = [0u32; 4096];
    let time = clock::time(rt, n, |_| {
        let _ = splitfile::read_splits(s, file, &mut masks, &mut counts);
    });
    let sum = answered::sum_of_sums(&masks).wrapping_add(answered::sum_of_sums(&counts));
    Made { time, sum }
}

// Merges two files n times: the first has the records of a file without some of them, the second without some others.
fn merge_parts(rt: &impl CpuClock, n: u64, s: &[u8], file: &[u8]) -> Made {
    let mut first = [0u8; 65536];
    let k = some_records(file, 1, &mut first);
    merge_with(rt, n, s, file, answered::front(&first, k))
}

// Makes the second file, and merges the first with it n times.
fn merge_with(rt: &impl CpuClock, n: u64, s: &[u8], file: &[u8], first: &[u8]) -> Made {
    let mut second = [0u8; 65536];
    let k = some_records(file, 2, &mut second);
    merge_both(rt, n, s, first, answered::front(&second, k))
}

// Merges two files n times.
fn merge_both(rt: &impl CpuClock, n: u64, s: &[u8], first: &[u8], second: &[u8]) -> Made {
    let mut out = [0u8; 131072];
    let time = clock::time(rt, n, |_| {
        let _ = splitfile::merge(s, first, second, &mut out);
    });
    Made {
        time,
        sum: answered::sum_of_sums(&out),
    }
}

// Copies about two in three records of a file, irregularly; those that are left out differ by the number `without`, 1 or 2. Answers their bytes.
fn some_records(file: &[u8], without: u64, out: &mut [u8]) -> usize {
    let mut x = 3u64;
    let mut k = 0;
    for i in 0..file.len() / 16 {
        x = opened::next(x);
        k = copy_record(file, 16 * i, out, k, x % 3 != without);
    }
    k
}

// Copies the record at `from` to `to`, if it is wanted and there is room, and answers where the next goes.
fn copy_record(file: &[u8], from: usize, out: &mut [u8], to: usize, wanted: bool) -> usize
    requires { from + 16 ≤ length file.now }
{
    if !wanted {
        return to;
    }
    if out.len() < 16 {
        return to;
    }
    if out.len() - 16 < to {
        return to;
    }
    fields::put64(out, to, fields::get64(file, from));
    fields::put64(out, to + 8, fields::get64(file, from + 8));
    to + 16
}
