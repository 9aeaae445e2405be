// Makes the library's calls on a whole collection, for bench/run. Input: a line that says what is wanted, a line of names, then texts or
// a NEXUS file, all without quotes.
// For the line `answers` every call is made once, and what they answered is written. For a line `PART N` the collection is filled, a part
// is made N times, and the nanoseconds of one time are written. Behind the word `kept` lengths are kept. docs/BENCH.md says what the parts are.
#![tactic(auto)]

use lines::Wanted;
use std::time::CpuClock;

mod answered;
mod clock;
mod files;
mod lines;
mod matrices;
mod measured;
mod opened;
mod parts;

// The number that the system gives standard input.
const STDIN: i32 = 0;

fn main(rt: HostRuntime) {
    let mut input = [0u8; 4206592];
    let mut store = [0u8; 778760];
    take_input(&rt, &mut input, &mut store);
}

// Takes standard input, as much as the buffer holds. A matrix as text has no room beside the input: it is written over it, when the
// collection has been filled.
fn take_input(rt: &impl CpuClock, input: &mut [u8; 4206592], store: &mut [u8; 778760]) {
    let n = io::read_full(STDIN, input);
    let wanted = take_bytes(rt, input, n, store);
    matrices::write_over(rt, wanted, store, input);
}

// Takes the first n bytes.
fn take_bytes(rt: &impl CpuClock, input: &[u8], n: usize, store: &mut [u8; 778760]) -> Wanted {
    if input.len() < n {
        return lines::nothing();
    }
    take_lines(rt, &input[..n], store)
}

// Takes the line that says what is wanted.
fn take_lines(rt: &impl CpuClock, input: &[u8], store: &mut [u8; 778760]) -> Wanted {
    let Some(e) = lines::place_of(b'\n', input) else {
        return lines::nothing();
    };
    take_names(rt, &input[..e], &input[e + 1..], store)
}

// Takes the line of names and the texts behind it.
fn take_names(rt: &impl CpuClock, wanted: &[u8], input: &[u8], store: &mut [u8; 778760]) -> Wanted {
    let Some(e) = lines::place_of(b'\n', input) else {
        return lines::nothing();
    };
    take_kept(rt, wanted, &input[..e], &input[e + 1..], store)
}

// Takes the word `kept`, where it stands before the others.
fn take_kept(
    rt: &impl CpuClock,
    wanted: &[u8],
    names: &[u8],
    texts: &[u8],
    store: &mut [u8; 778760],
) -> Wanted {
    let kept = lines::first_byte(wanted) == b'k';
    if kept {
        return take_wanted(rt, lines::past_word(wanted), kept, names, texts, store);
    }
    take_wanted(rt, wanted, kept, names, texts, store)
}

// Makes the calls that are wanted but for those that write over the input, for which it leaves the collection full.
fn take_wanted(
    rt: &impl CpuClock,
    line: &[u8],
    kept: bool,
    names: &[u8],
    texts: &[u8],
    store: &mut [u8; 778760],
) -> Wanted {
    let wanted = lines::wanted_in(line);
    if wanted.part != b'h' {
        make_calls(rt, wanted.part, wanted.times, kept, names, texts, store);
    }
    if lines::is_written_over(wanted.part) {
        opened::fill(store, kept, names, texts);
    }
    wanted
}

// Makes the calls of a part n times.
fn make_calls(
    rt: &impl CpuClock,
    part: u8,
    n: u64,
    kept: bool,
    names: &[u8],
    texts: &[u8],
    store: &mut [u8; 778760],
) {
    let mut matrix = [0u16; 1048576];
    if part == b'a' {
        answered::write_answers(rt, kept, names, texts, store, &mut matrix);
        return;
    }
    if lines::is_of_files(part) {
        clock::write_time(parts::time_files(rt, part, n, kept, names, texts, store));
        return;
    }
    clock::write_time(parts::time_part(rt, part, n, kept, names, texts, store, &mut matrix));
}
