// Questions on the trees and the splits of a collection, and the refusals in words.
//
//   jakku_tree_count, jakku_split_count, jakku_one_split, jakku_split_lengths, jakku_split_list, jakku_tree_splits, jakku_reason
ghost use Rattle.std.specs.Prelude.{◌≡◌, length};
ghost use Rattle.answers.specs.Answers.{number_given, split_given, split_lengths_given};
ghost use Rattle.answers.specs.Filled.{FilledAs, length_given, front, first_of, second_of};
ghost use Rattle.reasons.specs.Reasons.{reason_asked};
ghost use Rattle.table.specs.Asked.{trees_asked, splits_asked, split_asked, split_lengths_asked, split_list_asked, tree_asked};
ghost use Rattle.clib.specs.Answers.{number_of, number_out, split_of, split_out, lengths_of, lengths_out};

use crate::given;
use crate::given::{Given, OneLengths, OneSplit};
use answers::{Split, Tree};

// How many trees are accepted.
#[unsafe(no_mangle)]
pub extern "C" fn jakku_tree_count(s: &[u8]) -> Given
    ensures result_value { number_given (number_of result) ≡ trees_asked s.now }
    ensures value { result ≡ number_out (number_of result) }
{
    given::number(table::tree_count(s))
}

// How many splits are recorded.
#[unsafe(no_mangle)]
pub extern "C" fn jakku_split_count(s: &[u8]) -> Given
    ensures result_value { number_given (number_of result) ≡ splits_asked s.now }
    ensures value { result ≡ number_out (number_of result) }
{
    given::number(table::split_count(s))
}

// The mask and the count of split number k.
#[unsafe(no_mangle)]
pub extern "C" fn jakku_one_split(s: &[u8], k: usize) -> OneSplit
    ensures result_value { split_given (split_of result) ≡ split_asked s.now k }
    ensures value { result ≡ split_out (split_of result) }
{
    given::split(table::one_split(s, Split(k)))
}

// The shortest, longest and summed length of split number k, over the trees having it.
#[unsafe(no_mangle)]
pub extern "C" fn jakku_split_lengths(s: &[u8], k: usize) -> OneLengths
    ensures result_value { split_lengths_given (lengths_of result) ≡ split_lengths_asked s.now k }
    ensures value { result ≡ lengths_out (lengths_of result) }
{
    given::lengths(table::split_lengths(s, Split(k)))
}

// Every recorded split and its count, in order of mask, at the fronts of two buffers.
#[unsafe(no_mangle)]
pub extern "C" fn jakku_split_list(s: &[u8], masks: &mut [u64], counts: &mut [u32]) -> Given
    ensures result_value { number_given (number_of result) ≡ length_given (first_of (split_list_asked s.now (length masks.old) (length counts.old))) }
    ensures masks_after { masks.new ≡ front (first_of (split_list_asked s.now (length masks.old) (length counts.old))) masks.old }
    ensures counts_after { counts.new ≡ front (second_of (split_list_asked s.now (length masks.old) (length counts.old))) counts.old }
    ensures value { result ≡ number_out (number_of result) }
{
    given::number(table::split_list(s, masks, counts))
}

// The splits of tree number i, in order of mask, at the front of a buffer.
#[unsafe(no_mangle)]
pub extern "C" fn jakku_tree_splits(s: &[u8], i: usize, masks: &mut [u64]) -> Given
    ensures filled_as { FilledAs (tree_asked s.now i (length masks.old)) (number_of result) masks.old masks.new }
    ensures value { result ≡ number_out (number_of result) }
{
    given::number(table::tree_splits(s, Tree(i), masks))
}

// The sentence of refusal number k at the front of out.
#[unsafe(no_mangle)]
pub extern "C" fn jakku_reason(k: u32, out: &mut [u8]) -> Given
    ensures filled_as { FilledAs (reason_asked k (length out.old)) (number_of result) out.old out.new }
    ensures value { result ≡ number_out (number_of result) }
{
    given::number(reasons::reason(k, out))
}
