// Split files and distance matrices in PHYLIP's square layout, handed in and out as bytes.
//
//   jakku_write_splits, jakku_read_splits, jakku_merge, jakku_strict_tree, jakku_majority_tree, jakku_write_matrix, jakku_read_matrix
ghost use Rattle.std.specs.Prelude.{◌≡◌, length};
ghost use Rattle.trees.specs.PhylipCall.{read_phylip_of};
ghost use Rattle.answers.specs.Filled.{FilledAs};
ghost use Rattle.splitfile.specs.Files.{file_asked, read_asked, merge_asked, strict_file_asked, majority_file_asked, ReadAs};
ghost use Rattle.phylip.specs.Writing.{phylip_asked};
ghost use Rattle.phylip.specs.Reading as square;
ghost use Rattle.clib.specs.Answers.{number_of, number_out, both_of, both_out};

use crate::given;
use crate::given::{Given, Pair};

// Writes the collection's splits as a file to the front of out.
#[unsafe(no_mangle)]
pub extern "C" fn jakku_write_splits(s: &[u8], out: &mut [u8]) -> Given
    ensures filled_as { FilledAs (file_asked s.now (length out.old)) (number_of result) out.old out.new }
    ensures value { result ≡ number_out (number_of result) }
{
    given::number(splitfile::write_splits(s, out))
}

// Reads a split file over the collection's taxa: how many trees it is of and how many records it has, with the masks and counts at the
// fronts of two buffers.
#[unsafe(no_mangle)]
pub extern "C" fn jakku_read_splits(
    s: &[u8],
    file: &[u8],
    masks: &mut [u64],
    counts: &mut [u32],
) -> Pair
    ensures read_as { ReadAs (read_asked s.now file.now (length masks.old) (length counts.old)) (both_of result) masks.old counts.old masks.new counts.new }
    ensures value { result ≡ both_out (both_of result) }
{
    given::two(splitfile::read_splits(s, file, masks, counts))
}

// Merges two split files over the collection's taxa, and writes the file of both to the front of out.
#[unsafe(no_mangle)]
pub extern "C" fn jakku_merge(s: &[u8], first: &[u8], second: &[u8], out: &mut [u8]) -> Given
    ensures filled_as { FilledAs (merge_asked s.now first.now second.now (length out.old)) (number_of result) out.old out.new }
    ensures value { result ≡ number_out (number_of result) }
{
    given::number(splitfile::merge(s, first, second, out))
}

// Writes the strict tree of a split file to the front of out.
#[unsafe(no_mangle)]
pub extern "C" fn jakku_strict_tree(s: &[u8], file: &[u8], out: &mut [u8]) -> Given
    ensures filled_as { FilledAs (strict_file_asked s.now file.now (length out.old)) (number_of result) out.old out.new }
    ensures value { result ≡ number_out (number_of result) }
{
    given::number(splitfile::strict_tree(s, file, out))
}

// Writes the majority tree of a split file to the front of out.
#[unsafe(no_mangle)]
pub extern "C" fn jakku_majority_tree(s: &[u8], file: &[u8], out: &mut [u8]) -> Given
    ensures filled_as { FilledAs (majority_file_asked s.now file.now (length out.old)) (number_of result) out.old out.new }
    ensures value { result ≡ number_out (number_of result) }
{
    given::number(splitfile::majority_tree(s, file, out))
}

// Writes the doubled distances of all pairs of trees in PHYLIP's square layout to the front of out.
#[unsafe(no_mangle)]
pub extern "C" fn jakku_write_matrix(s: &[u8], out: &mut [u8]) -> Given
    ensures filled_as { FilledAs (phylip_asked s.now (length out.old)) (number_of result) out.old out.new }
    ensures value { result ≡ number_out (number_of result) }
{
    given::number(phylip::write_matrix(s, out))
}

// Reads such a matrix: how many trees it is of, with their values, row by row, at the front of a buffer.
#[unsafe(no_mangle)]
pub extern "C" fn jakku_read_matrix(file: &[u8], out: &mut [u16]) -> Given
    ensures read_as { square.ReadAs (read_phylip_of file.now (length out.old)) (number_of result) out.old out.new }
    ensures value { result ≡ number_out (number_of result) }
{
    given::number(phylip::read_matrix(file, out))
}
