// The program `treecalls`: it lends the memory, whose lengths set the limits. All else is crate `calling`.
#![tactic(auto)]

ghost use Rattle.std.specs.Prelude.{◌≤◌, IfOk};

use std::alloc::{AllocError, Global};
use std::io::Stdin;
use std::process::ExitCode;

// The most bytes that are lent, and the longest line: `batch 0 ` or `records ` and so many bytes in hex.
const LENT: usize = 8388608;

const LINE: usize = 16777224;
// The answers that wait, the splits of a split file, of which a collection has fewer, and the entries of a matrix. A batch or a NEXUS file has
// no more verdicts than bytes, and a split file or a PHYLIP matrix that is written no more bytes than a line can hand in.
const WAITING: usize = 65536;

const SPLITS: usize = 524288;

const ENTRIES: usize = 1048576;

// Answers standard input up to its end, or until a read or a write fails: then the exit status is 1, else 0.
pub fn treecalls_main(
    stdin: Stdin,
    input: &mut [u8],
    memory: &mut [u8],
    out: &mut [u8],
    masks: &mut [u64],
    counts: &mut [u32],
    distances: &mut [u16],
    file: &mut [u8],
) -> u32
    ensures { result ≤ 1 }
{
    calling::answer_all(stdin, input, memory, out, masks, counts, distances, file)
}

// The exit status, of a run with memory from the system.
fn status(stdin: Stdin, alloc: Global) -> Result<u32, AllocError>
    ensures { IfOk result (λ status. status ≤ 1) }
{
    let mut input = vec![in alloc; 0u8; LINE + 1]?;
    let mut memory = vec![in alloc; 0u8; LENT]?;
    let mut out = vec![in alloc; 0u8; WAITING]?;
    let mut masks = vec![in alloc; 0u64; SPLITS]?;
    let mut counts = vec![in alloc; 0u32; LENT]?;
    let mut distances = vec![in alloc; 0u16; ENTRIES]?;
    let mut file = vec![in alloc; 0u8; LENT]?;
    Ok(treecalls_main(
        stdin,
        &mut input,
        &mut memory,
        &mut out,
        &mut masks,
        &mut counts,
        &mut distances,
        &mut file,
    ))
}

// Where the system gives no memory, the exit status is 2.
fn main(rt: HostRuntime) -> ExitCode {
    match status(rt.stdin(), rt.alloc()) {
        Ok(status) => ExitCode::from(status as u8),
        Err(_) => ExitCode::from(2),
    }
}
