// Calls that leave the lent memory as it is and give numbers, or a mask with the set that has it.
use crate::opens::Sizes;
use crate::replies::Reply;
use answers::{Claim, Refusal, Split, Tree};

// A call that gives numbers.
#[derive(Clone, Copy)]
pub(crate) enum Question<'a> {
    Trees,
    Count,
    Collisions,
    Size(Sizes, bool),
    One(Tree, Tree),
    Two(Tree, Tree),
    Weighted(Tree, Tree),
    Agree(u64, u64),
    Split(Split),
    Lengths(Split),
    Claim(&'a [u8]),
}

impl Question<'_> {
    // Makes the call.
    pub(crate) fn made(self, lent: &[u8]) -> Result<Reply<'static>, Refusal> {
        Ok(match self {
            Question::Trees => Reply::Number(table::tree_count(lent)?),
            Question::Count => Reply::Number(table::split_count(lent)?),
            Question::Collisions => Reply::Number(comparing::collisions(lent)?),
            Question::Size(sizes, kept) => Reply::Size(sizes.bytes(kept)?),
            Question::One(a, b) => Reply::Number(comparing::one_sided(lent, a, b)?),
            Question::Two(a, b) => Reply::Number(comparing::doubled(lent, a, b)?),
            Question::Weighted(a, b) => weighted(lent, a, b)?,
            Question::Agree(a, b) => Reply::Agree(masks::agree(a, b)),
            Question::Split(s) => split(lent, s)?,
            Question::Lengths(s) => lengths(lent, s)?,
            Question::Claim(text) => claim(lent, text)?,
        })
    }
}

// `split S`.
fn split(lent: &[u8], s: Split) -> Result<Reply<'static>, Refusal> {
    let (mask, count) = table::one_split(lent, s)?;
    Ok(Reply::Split(mask, count))
}

// `weighted A B`. A distance is no NaN, so it has bits.
fn weighted(lent: &[u8], a: Tree, b: Tree) -> Result<Reply<'static>, Refusal> {
    let x = comparing::weighted(lent, a, b)?;
    Ok(Reply::Double(f64::to_bits(x)))
}

// `lengths S`. None of the three is a NaN.
fn lengths(lent: &[u8], s: Split) -> Result<Reply<'static>, Refusal> {
    let x = table::split_lengths(lent, s)?;
    let shortest = f64::to_bits(x.shortest);
    let longest = f64::to_bits(x.longest);
    let sum = f64::to_bits(x.sum);
    Ok(Reply::Lengths(shortest, longest, sum))
}

// `claim HEX`.
fn claim(lent: &[u8], text: &[u8]) -> Result<Reply<'static>, Refusal> {
    Ok(match claiming::claim(lent, text)? {
        Claim::Same => Reply::Same,
        Claim::Text(mask) => Reply::InText(mask),
        Claim::Majority(mask) => Reply::InMajority(mask),
    })
}
