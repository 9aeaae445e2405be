// The program `treesheet`. It reads files of trees and prints the release sheet of the collection that they make; what is accepted, refused
// and printed is decided by the calls of the library. `main` lends the memory: its lengths set the limits.
//
//     treesheet [--matrix FILE] [--splits] [--drop N] [--newick] [--apart NAME] NAMES FILE..
//
// The exit status is 0 where all was taken, 1 where something was refused and the rest was taken, 2 where nothing could be done.
#![tactic(auto)]

mod arguments;
mod dropping;
mod files;
mod printing;
mod strains;
mod texts;
mod totals;

ghost use Rattle.std.specs.Prelude.{◌≤◌, IfOk};

use filing::Done;
use release::Wanted;
use std::alloc::AllocError;
use std::process::ExitCode;
use std::rt::{Env, Files};

// A file of as many bytes as its buffer is too long: 8 MiB is the longest. It has no more verdicts than bytes. The matrix of 1,024 trees and
// the longest sheet are shorter. The collection's bytes are enough for 64 taxa.
const LONGEST: usize = 8388608;

const COLLECTION: usize = 1048576;

// What cannot be done without memory is not begun.
fn main(rt: HostRuntime) -> ExitCode {
    match run(&rt) {
        Ok(status) => ExitCode::from(status),
        Err(_) => ExitCode::from(2),
    }
}

// Lends the memory.
fn run<R: Env + Files + Input + AllocGlobal>(rt: &R) -> Result<u8, AllocError>
    ensures { IfOk result (λ status. status ≤ 2) }
{
    let mut file = vec![in rt.alloc(); 0u8; LONGEST + 1]?;
    let mut lent = vec![in rt.alloc(); 0u8; COLLECTION]?;
    let mut verdicts = vec![in rt.alloc(); 0u32; LONGEST]?;
    Ok(treesheet_main(rt, &mut file, &mut lent, &mut verdicts))
}

// Does what the arguments ask for, and answers the exit status. Files are read into `file`, which is for what is printed and written behind
// the last of them; `lent` is for the collection; `verdicts` is for what calls answer of texts.
pub fn treesheet_main<R: Env + Files + Input>(
    rt: &R,
    file: &mut [u8],
    lent: &mut [u8],
    verdicts: &mut [u32],
) -> u8
    ensures { result ≤ 2 }
{
    let done = go_on(rt, file, lent, verdicts);
    filing::exit_status(done)
}

// The same, and answers what was done; none, where nothing could be.
fn go_on<R: Env + Files + Input>(
    rt: &R,
    file: &mut [u8],
    lent: &mut [u8],
    verdicts: &mut [u32],
) -> Option<Done> {
    let Some(asked) = arguments::read(rt) else {
        arguments::tell_use();
        return None;
    };
    let taxa = filing::open_names(rt, b"treesheet", asked.names, files::LANES, file, lent)?;
    let apart = match asked.apart {
        Some(i) => Some(strains::asked_for(rt, i, taxa, lent)?),
        None => None,
    };
    let dropped = asked.dropped.unwrap_or(0);
    let all = files::take_all(rt, asked.names, dropped, file, lent, verdicts)?;
    totals::tell(lent, all);
    if let Some(i) = asked.matrix {
        if !printing::save_matrix(rt, i, lent, file) {
            return None;
        }
    }
    let wanted = Wanted {
        newick: asked.newick,
        splits: asked.splits,
        apart,
    };
    printing::print_sheet(wanted, lent, all.refused, file)
}
