// The body of the program `treecalls`, which makes calls of the library from lines of text: one call a line of standard input, one
// answer line each. docs/CALLS.md has every call and its answers. The lengths of the memory that is lent set the limits.
#![tactic(auto)]

mod calls;
mod changes;
mod input;
mod line;
mod lists;
mod opens;
mod output;
mod parse;
mod questions;
mod replies;
mod texts;

ghost use Rattle.std.specs.Prelude.{◌≤◌};

use calls::{Buffers, Session};
use input::Input;
use output::Output;
use std::io::Stdin;
use texts::TWO_TEXTS;

// Answers standard input up to its end, or until a read or a write fails: then the exit status is 1, else 0. The turns are so many that
// no run uses them up.
pub fn answer_all(
    stdin: Stdin,
    input: &mut [u8],
    memory: &mut [u8],
    out: &mut [u8],
    masks: &mut [u64],
    counts: &mut [u32],
    distances: &mut [u16],
    file: &mut [u8],
) -> u32
    ensures { result ≤ 1 }
{
    let mut input = Input::new(input);
    let mut out = Output::new(out);
    let mut session = Session::START;
    let mut places = [0u8; TWO_TEXTS];
    for _ in 0..u64::MAX {
        let Some(line) = input.next_line(stdin, &mut out) else {
            break;
        };
        let buffers = Buffers {
            texts: &mut places,
            masks: &mut *masks,
            counts: &mut *counts,
            distances: &mut *distances,
            file: &mut *file,
            room: session.room,
        };
        session.answer(line, memory, buffers, &mut out);
    }
    out.status()
}
