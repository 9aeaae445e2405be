// Reading a file: one walk that looks it through, and one that copies its masks and counts.
//
// `specs/Files.antt` says what is answered (`read_asked`, `ReadAs`), `specs/Reading.antt` what records are read as.
ghost use Rattle.std.specs.Prelude.{◌≡◌, ◌*◌, ◌≤◌, ◌++◌, length, drop};
ghost use Rattle.trees.specs.SplitFile.{record_bytes, records_in, masks_of};
ghost use Rattle.splitfile.specs.Files.{read_asked, ReadAs};
ghost use Rattle.splitfile.specs.Reading.{counts_of, splits_read};

use crate::{entries, form};
use answers::Refusal;

// Reads a file over the collection's taxa: how many trees it is of and how many records it has, and the masks and
// counts at the fronts of two buffers. An empty file is of 0 trees, as nobody knows how many.
pub fn read_splits(
    s: &[u8],
    file: &[u8],
    masks: &mut [u64],
    counts: &mut [u32],
) -> Result<(usize, usize), Refusal>
    ensures { ReadAs (read_asked s.now file.now (length masks.old) (length counts.old)) result masks.old counts.old masks.new counts.new }
{
    if !store::is_whole(s) {
        return Err(Refusal::NotWhole);
    }
    let n = form::form_of(file, head::taxa(s))?;
    give_records(file, n, masks, counts)
}

// Gives a file's first n records at the fronts of two buffers, where both have room.
fn give_records(
    file: &[u8],
    n: usize,
    masks: &mut [u64],
    counts: &mut [u32],
) -> Result<(usize, usize), Refusal>
    requires { record_bytes * n ≤ length file.now }
    ensures { ReadAs (splits_read (records_in n file.now) (length masks.old) (length counts.old)) result masks.old counts.old masks.new counts.new }
{
    if masks.len() < n {
        return Err(Refusal::TooShort);
    }
    if counts.len() < n {
        return Err(Refusal::TooShort);
    }
    copy_records(file, n, masks, counts);
    Ok((entries::known_trees(file, n) as usize, n))
}

// Copies the masks and the counts of a file's first n records to the fronts of the buffers.
fn copy_records(file: &[u8], n: usize, masks: &mut [u64], counts: &mut [u32])
    requires n_in_bounds { record_bytes * n ≤ length file.now }
    requires n_in_bounds_2 { n ≤ length masks.old }
    requires n_in_bounds_3 { n ≤ length counts.old }
    ensures masks_after { masks.new ≡ masks_of (records_in n file.now) ++ drop n masks.old }
    ensures counts_after { counts.new ≡ counts_of (records_in n file.now) ++ drop n counts.old }
{
    for i in 0..n {
        masks[i] = entries::mask_of(file, i);
        counts[i] = entries::count_of(file, i);
    }
}
