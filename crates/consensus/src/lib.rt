// The trees that a collection writes: the strict consensus, the majority consensus, and one accepted tree.
// None of the calls writes into the store, and each does its own checking, save those of a whole store.
//
// `specs/Consensus.antt` says what each answers; crate trees, `specs/Consensus.antt` and
// `specs/Written.antt`, says what the splits of a consensus and the text of a tree are.
#![tactic(auto)]

ghost use Rattle.std.specs.Prelude.{◌≡◌, length};
ghost use Rattle.answers.specs.Answers.{number_given};
ghost use Rattle.answers.specs.Filled.{length_given, front, BothFilledAs};
ghost use Rattle.consensus.specs.Consensus.{strict_asked, majority_asked, both_asked, written_asked};

use answers::{Refusal, Tree};

mod lists;
mod writing;

pub use writing::{write_majority, write_strict};

// Writes the tree of the splits that all trees have to the front of out.
pub fn strict(s: &[u8], out: &mut [u8]) -> Result<usize, Refusal>
    ensures result_value { number_given result ≡ length_given (strict_asked s.now (length out.old)) }
    ensures out_after { out.new ≡ front (strict_asked s.now (length out.old)) out.old }
{
    if !store::is_whole(s) {
        return Err(Refusal::NotWhole);
    }
    write_strict(s, out)
}

// Writes the tree of the splits that more than half of the trees have to the front of out.
pub fn majority(s: &[u8], out: &mut [u8]) -> Result<usize, Refusal>
    ensures result_value { number_given result ≡ length_given (majority_asked s.now (length out.old)) }
    ensures out_after { out.new ≡ front (majority_asked s.now (length out.old)) out.old }
{
    if !store::is_whole(s) {
        return Err(Refusal::NotWhole);
    }
    write_majority(s, out)
}

// Writes both of these trees, each to the front of a buffer of its own; neither, where one does not fit.
pub fn both(s: &[u8], strict: &mut [u8], majority: &mut [u8]) -> Result<(usize, usize), Refusal>
    ensures { BothFilledAs (both_asked s.now (length strict.old) (length majority.old)) result strict.old majority.old strict.new majority.new }
{
    if !store::is_whole(s) {
        return Err(Refusal::NotWhole);
    }
    writing::write_both(s, strict, majority)
}

// Writes accepted tree number i to the front of out.
pub fn write_accepted(s: &[u8], i: Tree, out: &mut [u8]) -> Result<usize, Refusal>
    ensures result_value { number_given result ≡ length_given (written_asked s.now i.0 (length out.old)) }
    ensures out_after { out.new ≡ front (written_asked s.now i.0 (length out.old)) out.old }
{
    if !store::is_whole(s) {
        return Err(Refusal::NotWhole);
    }
    if layout::trees_held(s) <= i.0 {
        return Err(Refusal::NoSuchNumber);
    }
    let mut list = [0; 64];
    rows::copy_tree(s, Tree(i.0), &mut list);
    let n = rows::splits_in(s, Tree(i.0));
    writing::write_list(s, &list, n, out)
}
