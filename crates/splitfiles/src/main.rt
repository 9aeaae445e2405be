// The program `splitfiles`. It reads and writes files; what they hold is decided by the calls of the library. `main` lends the memory: its
// lengths set the limits.
//
//     splitfiles write OUT NAMES TREES     the splits of the trees in TREES, as a split file OUT
//     splitfiles merge OUT NAMES A B       two split files, merged into OUT
//     splitfiles show NAMES FILE           what a split file holds, on standard output
//
// The exit status is 0 where all was done, 1 where something was refused and the rest was done, 2 where nothing could be done.
#![tactic(auto)]

mod arguments;
mod beginning;
mod candidates;
mod merging;
mod showing;
mod writing;

ghost use Rattle.std.specs.Prelude.{◌≤◌, IfOk};

use arguments::Use;
use filing::Done;
use std::alloc::AllocError;
use std::process::ExitCode;
use std::rt::{Env, Files};

// A file of as many bytes as its buffer is too long: 8 MiB is the longest. It has no more verdicts than bytes; two split files make one of
// no more bytes than both. The collection's bytes are enough for 64 taxa.
const LONGEST: usize = 8388608;

const RECORDS: usize = 524288;

const COLLECTION: usize = 1048576;

// What cannot be done without memory is not begun.
fn main(rt: HostRuntime) -> ExitCode {
    match run(&rt) {
        Ok(status) => ExitCode::from(status),
        Err(_) => ExitCode::from(2),
    }
}

// Lends the memory.
fn run<R: Env + Files + Input + AllocGlobal>(rt: &R) -> Result<u8, AllocError>
    ensures { IfOk result (λ status. status ≤ 2) }
{
    let mut first = vec![in rt.alloc(); 0u8; LONGEST + 1]?;
    let mut second = vec![in rt.alloc(); 0u8; LONGEST + 1]?;
    let mut lent = vec![in rt.alloc(); 0u8; COLLECTION]?;
    let mut masks = vec![in rt.alloc(); 0u64; RECORDS]?;
    let mut numbers = vec![in rt.alloc(); 0u32; LONGEST]?;
    let mut file = vec![in rt.alloc(); 0u8; 2 * LONGEST]?;
    Ok(splitfiles_main(
        rt,
        &mut first,
        &mut second,
        &mut lent,
        &mut masks,
        &mut numbers,
        &mut file,
    ))
}

// Does what the arguments ask for, and answers the exit status. Files are read into `first` and `second`; `lent` is for the collection;
// `masks` and `numbers` are for what calls answer. Where a second file is not read, `second` is for the bytes of the one to be written;
// where it is, `file` is.
pub fn splitfiles_main<R: Env + Files + Input>(
    rt: &R,
    first: &mut [u8],
    second: &mut [u8],
    lent: &mut [u8],
    masks: &mut [u64],
    numbers: &mut [u32],
    file: &mut [u8],
) -> u8
    ensures { result ≤ 2 }
{
    let done = go_on(rt, first, second, lent, masks, numbers, file);
    filing::exit_status(done)
}

// The same, and answers what was done; none, where nothing could be.
fn go_on<R: Env + Files + Input>(
    rt: &R,
    first: &mut [u8],
    second: &mut [u8],
    lent: &mut [u8],
    masks: &mut [u64],
    numbers: &mut [u32],
    file: &mut [u8],
) -> Option<Done> {
    let Some(asked) = arguments::asked(rt) else {
        arguments::tell_use();
        return None;
    };
    let begun = beginning::begin(rt, asked, first, lent)?;
    let first = &first[..begun.bytes];
    match asked {
        Use::Write => writing::write(rt, first, lent, numbers, second),
        Use::Merge => merging::merge(rt, first, lent, second, file),
        Use::Show => showing::show(rt, begun.taxa, first, lent, masks, numbers),
    }
}
