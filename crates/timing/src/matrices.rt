// The collection's distances as text, in PHYLIP's layout, up to 4,205,573 bytes.
use crate::lines::Wanted;
use crate::{answered, clock};
use std::time::CpuClock;

// Writes the text of a full collection over the input, if it is wanted: once for its length and a sum over its bytes, or for the
// nanoseconds of one time.
pub(crate) fn write_over(rt: &impl CpuClock, wanted: Wanted, s: &[u8], input: &mut [u8]) {
    if wanted.part == b'a' {
        write_answer(s, input);
        return;
    }
    if wanted.part == b'h' {
        write_time(rt, wanted.times, s, input);
    }
}

// Writes how long the text is, and a sum over its bytes.
fn write_answer(s: &[u8], out: &mut [u8]) {
    let k = answered::given(phylip::write_matrix(s, out));
    answered::write_number(b"phylip ", k as u64);
    answered::write_number(b"bytes ", answered::sum_of_sums(answered::front(out, k)));
}

// Writes the nanoseconds of one of n times.
fn write_time(rt: &impl CpuClock, n: u64, s: &[u8], out: &mut [u8]) {
    clock::write_time(time_text(rt, n, s, out));
}

// Writes the text n times, and answers the nanoseconds of one time.
fn time_text(rt: &impl CpuClock, n: u64, s: &[u8], out: &mut [u8]) -> u64 {
    clock::time(rt, n, |_| {
        let _ = phylip::write_matrix(s, out);
    })
}
