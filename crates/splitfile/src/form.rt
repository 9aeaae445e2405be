// Whether a file is well formed: `records_from` of crate trees, specs/SplitFileCall.antt, exactly.
//
// `specs/Form.antt` says what the answers stand for; `specs/FormLaws.antt` has what a caller makes of them.
ghost use Rattle.std.specs.Prelude.{◌≡◌, ◌+◌, ◌*◌, ◌≤◌, length};
ghost use Rattle.trees.specs.SplitFile.{record_bytes, records_in, well_formed};
ghost use Rattle.trees.specs.SplitFileCall.{records_from};
ghost use Rattle.splitfile.specs.Entries.{record_in};
ghost use Rattle.splitfile.specs.Form.{FormAs, counted_record, next_record, rising_from};

use crate::entries;
use crate::entries::RECORD_BYTES;
use answers::{Refusal, Taxon};

// Looks through a file over so many taxa.
pub(crate) fn form_of(file: &[u8], taxa: u32) -> Result<usize, Refusal>
    ensures { FormAs (records_from taxa file.now) result }
{
    if file.len() % RECORD_BYTES != 0 {
        return Err(Refusal::BadLength);
    }
    let n = file.len() / RECORD_BYTES;
    if !is_formed(file, n, taxa) {
        return Err(Refusal::BadRecord);
    }
    Ok(n)
}

// Whether the first n records are those of a file. As masks rise, the last alone is asked whether it is too high.
fn is_formed(file: &[u8], n: usize, taxa: u32) -> bool
    requires { record_bytes * n ≤ length file.now }
    ensures { result ≡ well_formed taxa (records_in n file.now) }
{
    if n == 0 {
        return true;
    }
    if !masks::is_proper(entries::mask_of(file, n - 1), taxa) {
        return false;
    }
    are_rising(file, n, entries::trees_of(file, 0))
}

// Whether the first n records are of so many trees, and their masks rise, each has two taxa and none has taxon 0.
fn are_rising(file: &[u8], n: usize, trees: u32) -> bool
    requires { record_bytes * n ≤ length file.now }
    ensures { result ≡ rising_from trees 0 0 (records_in n file.now) }
{
    // no mask of two taxa is 0, so that the first may be any
    let mut before = 0;
    // taxon 0 is looked for once, in all masks together
    let mut seen = 0;
    for i in 0..n {
        if !is_next(file, i, before, trees) {
            return false;
        }
        before = entries::mask_of(file, i);
        seen = masks::union_of(seen, before);
    }
    !masks::has_taxon(seen, Taxon(0))
}

// Whether record i is of so many trees, and its mask is above the one before and has two taxa: one is left when the lowest is taken away.
fn is_next(file: &[u8], i: usize, before: u64, trees: u32) -> bool
    requires { record_bytes * i + record_bytes ≤ length file.now }
    ensures { result ≡ next_record trees before (record_in file.now i) }
{
    let m = entries::mask_of(file, i);
    if !masks::comes_before(before, m) {
        return false;
    }
    if masks::is_empty(masks::without_lowest(m)) {
        return false;
    }
    is_counted(file, i, trees)
}

// Whether record i is of so many trees and its count is from 1 to them: one test of both numbers as one.
fn is_counted(file: &[u8], i: usize, trees: u32) -> bool
    requires { record_bytes * i + record_bytes ≤ length file.now }
    ensures { result ≡ counted_record trees (record_in file.now i) }
{
    let count = u64::from(entries::count_of(file, i));
    let of = u64::from(entries::trees_of(file, i));
    let all = u64::from(trees);
    let least = 4294967296 * all + 1;
    std::num::wrapping_sub_u64(4294967296 * of + count, least) < all
}
