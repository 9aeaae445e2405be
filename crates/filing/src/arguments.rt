// The program's arguments. The first is its own name.
ghost use Rattle.std.specs.Prelude.{◌≤◌};
ghost use Rattle.io.specs.Counts.{IsPrefixLen};

use std::env::FillError;
use std::rt::Env;

// Puts argument i at the front of buf, and answers how many bytes it has: none, where there is no such argument, or where it does not fit
// and buf holds its first bytes alone.
pub fn argument(rt: &impl Env, i: usize, buf: &mut [u8]) -> usize
    ensures { IsPrefixLen result buf.new }
{
    bytes_of(rt, i, buf)
}

// How many arguments there are; more than `most` are counted as `most`.
pub fn arguments_within(rt: &impl Env, most: usize) -> usize
    ensures { result ≤ most }
{
    for i in 0..most {
        if !is_there(rt, i) {
            return i;
        }
    }
    most
}

// The same as `argument`, for the functions of this crate.
pub(crate) fn bytes_of(rt: &impl Env, i: usize, buf: &mut [u8]) -> usize
    ensures { IsPrefixLen result buf.new }
{
    rt.arg(i, buf).unwrap_or(0)
}

// Whether there is an argument i.
fn is_there(rt: &impl Env, i: usize) -> bool {
    let mut none = [0u8; 1];
    !matches!(rt.arg(i, &mut none), Err(FillError::NotPresent))
}
