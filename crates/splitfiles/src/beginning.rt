// What every use begins with: a collection is opened over the names, and the first file is read.
ghost use Rattle.std.specs.Prelude.{◌≤◌, length, IfSome};

use crate::arguments;
use crate::arguments::Use;
use std::rt::{Env, Files};

// The number of taxa, and how many bytes the first file has.
#[derive(Clone, Copy)]
pub(crate) struct Begun {
    pub taxa: u32,
    pub bytes: usize,
}

// Opens the collection in the lent bytes, and reads the first file. The names are read into `first` too: the collection keeps them. None,
// where that is told to be impossible.
pub(crate) fn begin<R: Env + Files + Input>(
    rt: &R,
    asked: Use,
    first: &mut [u8],
    lent: &mut [u8],
) -> Option<Begun>
    ensures { IfSome result (λ begun. begun.bytes ≤ length first.new) }
{
    let names = arguments::names_of(asked);
    let taxa = filing::open_names(rt, b"splitfiles", names, 1, first, lent)?;
    let may_be_input = asked == Use::Write;
    let bytes = filing::read_file(rt, b"splitfiles", names + 1, may_be_input, first)?;
    Some(Begun { taxa, bytes })
}
