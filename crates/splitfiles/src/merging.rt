// `splitfiles merge OUT NAMES A B`.
use answers::Refusal;
use filing::Done;
use std::rt::{Env, Files};

// The arguments.
const OUT: usize = 2;

const FIRST: usize = 4;

const SECOND: usize = 5;

// Merges the bytes of the first file and the second file, which is read once the first is known to be a split file.
pub(crate) fn merge<R: Env + Files + Input>(
    rt: &R,
    first: &[u8],
    lent: &[u8],
    second: &mut [u8],
    file: &mut [u8],
) -> Option<Done> {
    if !is_split_file(rt, FIRST, first, lent) {
        return None;
    }
    let n = filing::read_file(rt, b"splitfiles", SECOND, false, second)?;
    let second = &second[..n];
    if !is_split_file(rt, SECOND, second, lent) {
        return None;
    }
    let answer = splitfile::merge(lent, first, second, file);
    filing::save_answer(rt, b"splitfiles", OUT, b"merge", answer, file).then_some(Done::All)
}

// Whether the bytes of the file that argument i names are a split file, and tells where they are none. Buffers that are too short are the
// last to be refused.
fn is_split_file(rt: &impl Env, i: usize, bytes: &[u8], lent: &[u8]) -> bool {
    let mut masks = [0u64; 1];
    let mut counts = [0u32; 1];
    match splitfile::read_splits(lent, bytes, &mut masks, &mut counts) {
        Ok(_) | Err(Refusal::TooShort) => true,
        Err(r) => {
            filing::tell_refused_argument(rt, i, answers::refusal_number(r));
            false
        }
    }
}
