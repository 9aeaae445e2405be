// Writing the collection's splits as a file, in order of mask.
//
// `specs/Files.antt` says what is answered (`file_asked`); crate trees, `specs/SplitFile.antt`, has the records of some
// trees (`splits_of`).
ghost use Rattle.std.specs.Prelude.{◌≡◌, ◌*◌, ◌≤◌, true, length};
ghost use Rattle.trees.specs.SplitFile.{record_bytes, splits_of};
ghost use Rattle.answers.specs.Filled.{FilledAs};
ghost use Rattle.layout.specs.Store.{splits_held_at, held_at};
ghost use Rattle.layout.specs.WholeStore.{whole_at};
ghost use Rattle.splitfile.specs.Entries.{with_records};
ghost use Rattle.splitfile.specs.Files.{file_asked};

use crate::entries;
use crate::entries::RECORD_BYTES;
use answers::{Refusal, Split};

// Writes the collection's splits as a file to the front of out.
pub fn write_splits(s: &[u8], out: &mut [u8]) -> Result<usize, Refusal>
    ensures { FilledAs (file_asked s.now (length out.old)) result out.old out.new }
{
    if !store::is_whole(s) {
        return Err(Refusal::NotWhole);
    }
    let bytes = RECORD_BYTES * layout::splits_held(s);
    if out.len() < bytes {
        return Err(Refusal::TooShort);
    }
    put_splits(s, out);
    Ok(bytes)
}

// Writes a record for each recorded split, in order of mask, to the front of out.
fn put_splits(s: &[u8], out: &mut [u8])
    requires s_value { whole_at s.now ≡ true }
    requires s_in_bounds { record_bytes * splits_held_at s.now ≤ length out.old }
    ensures { out.new ≡ with_records (splits_of (held_at s.now).trees) out.old }
{
    let held = layout::splits_held(s);
    let trees = layout::trees_held(s) as u32;
    for k in 0..held {
        let row = rows::row_of(s, Split(k));
        let m = rows::mask_at(s, row);
        entries::put_record(out, k, m, rows::count_at(s, row) as u32, trees);
    }
}
