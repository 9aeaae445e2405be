// What becomes of texts: those that are refused are told and counted, and of the first ones of each file those that were accepted are
// withdrawn again.
use crate::dropping;
use answers::{Lane, Refusal};
use filing::STDERR_FILENO;

// The file that texts come from: its name, the lane that it is fed to, and how many of its first texts are dropped.
#[derive(Clone, Copy)]
pub(crate) struct Origin<'a> {
    pub name: &'a [u8],
    pub lane: Lane,
    pub dropped: usize,
}

// How many texts of the file that is being read there were, and how many of all files are refused and withdrawn. A refused file counts as
// one text.
#[derive(Clone, Copy)]
pub(crate) struct Tally {
    pub texts: usize,
    pub refused: usize,
    pub withdrawn: usize,
}

// No text is read.
pub(crate) const NOTHING: Tally = Tally {
    texts: 0,
    refused: 0,
    withdrawn: 0,
};

// Takes what a call answered of texts of the file.
pub(crate) fn take(
    from: Origin,
    answer: Result<usize, Refusal>,
    lent: &mut [u8],
    verdicts: &[u32],
    before: Tally,
) -> Tally {
    match answer {
        Ok(k) => {
            let n = filing::numbers_within(k, verdicts);
            take_verdicts(from, lent, &verdicts[..n], before)
        }
        Err(r) => {
            filing::tell_refused(from.name, answers::refusal_number(r));
            with_refused(before, 1)
        }
    }
}

// Takes the verdicts on the next texts of the file.
fn take_verdicts(from: Origin, lent: &mut [u8], verdicts: &[u32], before: Tally) -> Tally {
    let refused = tell(from.name, before.texts, verdicts);
    let dropped = from.dropped.saturating_sub(before.texts);
    let withdrawn = dropping::withdraw_first(dropped, verdicts, lent);
    Tally {
        texts: before.texts.wrapping_add(verdicts.len()),
        refused: before.refused.wrapping_add(refused),
        withdrawn: before.withdrawn.wrapping_add(withdrawn),
    }
}

// Takes the end of a file that was fed to the lane, in which a text may be unfinished.
pub(crate) fn take_end(from: Origin, lent: &mut [u8], before: Tally) -> Tally {
    let answer = feeding::close(lent, from.lane);
    with_refused(before, tell_closing(from.name, before.texts, answer))
}

// So many more are refused.
fn with_refused(before: Tally, n: usize) -> Tally {
    let mut next = before;
    next.refused = before.refused.wrapping_add(n);
    next
}

// Tells the verdicts that are refusals, behind so many texts, and answers how many they are.
fn tell(name: &[u8], texts: usize, verdicts: &[u32]) -> usize {
    let mut out = filing::nothing_waits(STDERR_FILENO);
    let refused = filing::put_verdicts(&mut out, name, texts, verdicts);
    filing::flush(&mut out);
    refused
}

// Tells a closing that is refused, behind so many texts, and answers how many are: 1, or 0.
fn tell_closing(name: &[u8], texts: usize, answer: Result<(), Refusal>) -> usize {
    let mut out = filing::nothing_waits(STDERR_FILENO);
    let refused = filing::put_closing(&mut out, name, texts, answer);
    filing::flush(&mut out);
    refused
}
