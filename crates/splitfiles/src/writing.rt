// `splitfiles write OUT NAMES TREES`.
use crate::candidates;
use filing::Done;
use std::rt::{Env, Files};

// The arguments.
const OUT: usize = 2;

const TREES: usize = 4;

// Feeds the trees to the open collection, and writes its splits.
pub(crate) fn write<R: Env + Files>(
    rt: &R,
    trees: &[u8],
    lent: &mut [u8],
    verdicts: &mut [u32],
    file: &mut [u8],
) -> Option<Done> {
    let done = candidates::feed_all(rt, TREES, trees, lent, verdicts)?;
    let answer = splitfile::write_splits(lent, file);
    filing::save_answer(rt, b"splitfiles", OUT, b"write", answer, file).then_some(done)
}
