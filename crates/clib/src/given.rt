// Answers as numbers, for C and Rust, which have no answers with cases. In each, `refusal` is 0, and the others are the answer; or it is
// the refusal's number, and the others are 0, but for the bytes that feeding took.
//
//   Given, Pair, OneSplit, OneLengths, Double, OneClaim, Taken, Summed     a number, two numbers, a split, its lengths, a double, what came of
//                                                                          a claim and of feeding, how far a summary is
//   finish, number, two, split, lengths, weight, claimed, fed, reached     an answer of the library as such numbers
ghost use Rattle.clib.specs.Answers.{FinishAs, NumberAs, TwoAs, SplitAs, LengthsAs, WeightAs, ClaimAs, TakenAs, SummedAs};

use answers::{Claim, Fed, Lengths, Refusal};
use summary::Summing;

#[repr(C)]
#[derive(Drop)]
pub struct Given {
    pub value: usize,
    pub refusal: u32,
}

#[repr(C)]
#[derive(Drop)]
pub struct Pair {
    pub first: usize,
    pub second: usize,
    pub refusal: u32,
}

#[repr(C)]
#[derive(Drop)]
pub struct OneSplit {
    pub mask: u64,
    pub count: u32,
    pub refusal: u32,
}

#[repr(C)]
#[derive(Drop)]
pub struct OneLengths {
    pub shortest: f64,
    pub longest: f64,
    pub sum: f64,
    pub refusal: u32,
}

#[repr(C)]
#[derive(Drop)]
pub struct Double {
    pub value: f64,
    pub refusal: u32,
}

// Whose split the mask is that makes the difference: 1 for the text's, 2 for the majority's; 0 where they have the same splits.
#[repr(C)]
#[derive(Drop)]
pub struct OneClaim {
    pub mask: u64,
    pub owner: u32,
    pub refusal: u32,
}

// How many bytes were taken, and the verdict: the number of the accepted tree or the refusal; neither where more is wanted.
#[repr(C)]
#[derive(Drop)]
pub struct Taken {
    pub taken: usize,
    pub tree: usize,
    pub refusal: u32,
    pub accepted: bool,
}

// How far an input is taken that is summed up: in its first line, of which so much is kept; or, if that is opened, behind it, with so many
// refused texts.
#[repr(C)]
#[derive(Drop)]
pub struct Summed {
    pub used: usize,
    pub spaces: usize,
    pub refused: usize,
    pub refusal: u32,
    pub quoted: bool,
    pub opened: bool,
}

// 0, or the refusal's number.
pub(crate) fn finish(answer: Result<(), Refusal>) -> u32
    ensures { FinishAs result answer }
{
    match answer {
        Err(r) => answers::refusal_number(r),
        Ok(()) => 0,
    }
}

// A number.
pub(crate) fn number(answer: Result<usize, Refusal>) -> Given
    ensures { NumberAs result answer }
{
    match answer {
        Err(r) => Given {
            value: 0,
            refusal: answers::refusal_number(r),
        },
        Ok(n) => Given {
            value: n,
            refusal: 0,
        },
    }
}

// Two numbers.
pub(crate) fn two(answer: Result<(usize, usize), Refusal>) -> Pair
    ensures { TwoAs result answer }
{
    match answer {
        Err(r) => Pair {
            first: 0,
            second: 0,
            refusal: answers::refusal_number(r),
        },
        Ok((m, n)) => Pair {
            first: m,
            second: n,
            refusal: 0,
        },
    }
}

// A split's mask and count.
pub(crate) fn split(answer: Result<(u64, u32), Refusal>) -> OneSplit
    ensures { SplitAs result answer }
{
    match answer {
        Err(r) => OneSplit {
            mask: 0,
            count: 0,
            refusal: answers::refusal_number(r),
        },
        Ok((m, c)) => OneSplit {
            mask: m,
            count: c,
            refusal: 0,
        },
    }
}

// A split's lengths.
pub(crate) fn lengths(answer: Result<Lengths, Refusal>) -> OneLengths
    ensures { LengthsAs result answer }
{
    match answer {
        Err(r) => OneLengths {
            shortest: 0.0,
            longest: 0.0,
            sum: 0.0,
            refusal: answers::refusal_number(r),
        },
        Ok(l) => OneLengths {
            shortest: l.shortest,
            longest: l.longest,
            sum: l.sum,
            refusal: 0,
        },
    }
}

// A double.
pub(crate) fn weight(answer: Result<f64, Refusal>) -> Double
    ensures { WeightAs result answer }
{
    match answer {
        Err(r) => Double {
            value: 0.0,
            refusal: answers::refusal_number(r),
        },
        Ok(x) => Double {
            value: x,
            refusal: 0,
        },
    }
}

// What came of a claim.
pub(crate) fn claimed(answer: Result<Claim, Refusal>) -> OneClaim
    ensures { ClaimAs result answer }
{
    match answer {
        Err(r) => OneClaim {
            mask: 0,
            owner: 0,
            refusal: answers::refusal_number(r),
        },
        Ok(Claim::Same) => OneClaim {
            mask: 0,
            owner: 0,
            refusal: 0,
        },
        Ok(Claim::Text(m)) => OneClaim {
            mask: m,
            owner: 1,
            refusal: 0,
        },
        Ok(Claim::Majority(m)) => OneClaim {
            mask: m,
            owner: 2,
            refusal: 0,
        },
    }
}

// What came of feeding.
pub(crate) fn fed(answer: Fed) -> Taken
    ensures { TakenAs result answer }
{
    let bytes = answer.taken;
    let progress = answer.progress;
    match progress {
        Err(r) => Taken {
            taken: bytes,
            tree: 0,
            refusal: answers::refusal_number(r),
            accepted: false,
        },
        Ok(None) => Taken {
            taken: bytes,
            tree: 0,
            refusal: 0,
            accepted: false,
        },
        Ok(Some(t)) => Taken {
            taken: bytes,
            tree: t.0,
            refusal: 0,
            accepted: true,
        },
    }
}

// How far a summary is.
pub(crate) fn reached(state: Summing) -> Summed
    ensures { SummedAs result state }
{
    match state {
        Summing::Refused(r) => Summed {
            used: 0,
            spaces: 0,
            refused: 0,
            refusal: answers::refusal_number(r),
            quoted: false,
            opened: false,
        },
        Summing::Line(line) => Summed {
            used: line.used,
            spaces: line.spaces,
            refused: 0,
            refusal: 0,
            quoted: line.quoted,
            opened: false,
        },
        Summing::Texts(n) => Summed {
            used: 0,
            spaces: 0,
            refused: n,
            refusal: 0,
            quoted: false,
            opened: true,
        },
    }
}
