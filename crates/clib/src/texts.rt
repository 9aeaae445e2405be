// Consensus trees and accepted trees as texts, each at the front of a buffer.
//
//   jakku_strict, jakku_majority, jakku_both, jakku_write_accepted
ghost use Rattle.std.specs.Prelude.{◌≡◌, length};
ghost use Rattle.answers.specs.Filled.{FilledAs, BothFilledAs};
ghost use Rattle.consensus.specs.Consensus.{strict_asked, majority_asked, both_asked, written_asked};
ghost use Rattle.clib.specs.Answers.{number_of, number_out, both_of, both_out};

use crate::given;
use crate::given::{Given, Pair};
use answers::Tree;

// Writes the tree of the splits that all trees have.
#[unsafe(no_mangle)]
pub extern "C" fn jakku_strict(s: &[u8], out: &mut [u8]) -> Given
    ensures filled_as { FilledAs (strict_asked s.now (length out.old)) (number_of result) out.old out.new }
    ensures value { result ≡ number_out (number_of result) }
{
    given::number(consensus::strict(s, out))
}

// Writes the tree of the splits that more than half of the trees have.
#[unsafe(no_mangle)]
pub extern "C" fn jakku_majority(s: &[u8], out: &mut [u8]) -> Given
    ensures filled_as { FilledAs (majority_asked s.now (length out.old)) (number_of result) out.old out.new }
    ensures value { result ≡ number_out (number_of result) }
{
    given::number(consensus::majority(s, out))
}

// Writes both of these trees, each to a buffer of its own; neither, where one does not fit.
#[unsafe(no_mangle)]
pub extern "C" fn jakku_both(s: &[u8], strict: &mut [u8], majority: &mut [u8]) -> Pair
    ensures both_filled_as { BothFilledAs (both_asked s.now (length strict.old) (length majority.old)) (both_of result) strict.old majority.old strict.new majority.new }
    ensures value { result ≡ both_out (both_of result) }
{
    given::two(consensus::both(s, strict, majority))
}

// Writes accepted tree number i.
#[unsafe(no_mangle)]
pub extern "C" fn jakku_write_accepted(s: &[u8], i: usize, out: &mut [u8]) -> Given
    ensures filled_as { FilledAs (written_asked s.now i (length out.old)) (number_of result) out.old out.new }
    ensures value { result ≡ number_out (number_of result) }
{
    given::number(consensus::write_accepted(s, Tree(i), out))
}
