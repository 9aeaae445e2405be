// The collection that a list of names opens. It has room for as many trees and splits as any may have, and keeps no lengths.
ghost use Rattle.std.specs.Prelude.{◌≡◌, ◌+◌, ◌≤◌, IfSome, IfOk};
ghost use Rattle.trees.specs.Text.{turned};
ghost use Rattle.trees.specs.Names.{name_count};
ghost use Rattle.filing.specs.Names.{taxa_of, spaces_at};

use crate::{parts, reading, telling};
use answers::Refusal;
use std::rt::{Env, Files};

// The rooms, and as many hash places as they allow.
const TREE_ROOM: u32 = 1024;

const SPLIT_ROOM: u32 = 4096;

const PLACES: u32 = 8192;

// Opens a collection of so many lanes in the lent bytes over the names in the first line of the file that argument i names. The file is
// read into `names`. Answers the number of taxa; none, where that is told to be impossible.
pub fn open_names<R: Env + Files + Input>(
    rt: &R,
    program: &[u8],
    i: usize,
    lanes: u32,
    names: &mut [u8],
    lent: &mut [u8],
) -> Option<u32>
    ensures { IfSome result (λ taxa. taxa ≤ 64) }
{
    let mut path = io::buffer();
    let n = reading::path_at(rt, program, i, &mut path)?;
    open_file(rt, &path[..n], lanes, names, lent)
}

// The same of the file of this name.
fn open_file<R: Files + Input>(
    rt: &R,
    path: &[u8],
    lanes: u32,
    names: &mut [u8],
    lent: &mut [u8],
) -> Option<u32>
    ensures { IfSome result (λ taxa. taxa ≤ 64) }
{
    let n = reading::read_named(rt, path, false, names)?;
    let end = parts::line_end(&names[..n]);
    match open(&names[..end], lanes, lent) {
        Ok(taxa) => Some(taxa),
        Err(r) => {
            telling::tell(path, answers::refusal_number(r));
            None
        }
    }
}

// Opens a collection of so many lanes over the names in this line, and answers how many they are.
fn open(line: &[u8], lanes: u32, lent: &mut [u8]) -> Result<u32, Refusal>
    ensures { IfOk result (λ taxa. taxa ≤ 64) }
{
    let taxa = taxa_in(line).ok_or(Refusal::OutOfRange)?;
    let mut constants = [0u64; 64];
    fill(&mut constants);
    let own = &constants[..taxa as usize];
    table::open(
        lent, taxa, lanes, TREE_ROOM, SPLIT_ROOM, PLACES, false, line, own, own,
    )?;
    Ok(taxa)
}

// How many names the line has, one more than its spaces outside quotes; none, where they are more than there can be taxa.
fn taxa_in(line: &[u8]) -> Option<u32>
    ensures upper_bound { IfSome result (λ taxa. taxa ≤ 64) }
    ensures value { result ≡ taxa_of (name_count line.now) }
{
    let mut spaces = 0;
    let mut quoted = false;
    for b in line {
        spaces += space_at(quoted, *b);
        quoted = turn_quotes(quoted, *b);
    }
    one_more(spaces)
}

// 1, where b is a space outside quotes; else 0.
#[tactic(auto, unfolding(crate::specs::Names::spaces_at))]
fn space_at(quoted: bool, b: u8) -> usize
    ensures { (result ≡ spaces_at quoted b) × (result ≤ 1) }
{
    usize::from(!quoted && b == b' ')
}

// Whether quotes are open behind b.
#[tactic(auto, unfolding(trees::specs::Text::turned))]
fn turn_quotes(quoted: bool, b: u8) -> bool
    ensures { result ≡ turned quoted b }
{
    if b == b'\'' { !quoted } else { quoted }
}

// One more than so many spaces; none, where that is more than there can be taxa.
#[tactic(auto, unfolding(crate::specs::Names::taxa_of))]
fn one_more(spaces: usize) -> Option<u32>
    ensures upper_bound { IfSome result (λ taxa. taxa ≤ 64) }
    ensures value { result ≡ taxa_of (spaces + 1) }
{
    if 63 < spaces {
        return None;
    }
    Some(spaces as u32 + 1)
}

// Puts numbers below the hash places. They decide nothing that is written or told.
fn fill(constants: &mut [u64]) {
    let mut x = 1;
    for constant in constants {
        x = x * 75 % 8191;
        *constant = x;
    }
}
