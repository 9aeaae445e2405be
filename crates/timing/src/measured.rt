// What the calls on lengths answer, each in a word.
use answers::{Lengths, Refusal, Split, Tree};

// The answer to one of the two parts that ask on lengths, for the number i.
pub(crate) fn lengths_word(part: u8, s: &[u8], i: usize) -> u64 {
    if part == b'd' {
        return weight_of(comparing::weighted(s, Tree(0), Tree(i)));
    }
    sums_of(table::split_lengths(s, Split(i)))
}

// A weighted distance: its bits, or the refusal's number.
fn weight_of(x: Result<f64, Refusal>) -> u64 {
    match x {
        Ok(d) => bits_of(d),
        Err(r) => refused(r),
    }
}

// The lengths of a split: a sum of their bits that tells them apart, or the refusal's number.
fn sums_of(x: Result<Lengths, Refusal>) -> u64 {
    match x {
        Ok(y) => sum_of_sums(y),
        Err(r) => refused(r),
    }
}

// Three times the bits of the shortest, twice those of the longest and those of the sum, modulo 2^64.
fn sum_of_sums(x: Lengths) -> u64 {
    let one = bits_of(x.shortest);
    let two = one.wrapping_add(bits_of(x.longest));
    let three = two.wrapping_add(bits_of(x.sum));
    one.wrapping_add(two).wrapping_add(three)
}

// The bits of x; 0 where it is no number, which the calls never give.
fn bits_of(x: f64) -> u64 {
    if x == x {
        return f64::to_bits(x);
    }
    0
}

// A refusal's number in 64 bits.
fn refused(r: Refusal) -> u64 {
    u64::from(answers::refusal_number(r))
}
