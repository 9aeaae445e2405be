// Splits looked up by their hash in a whole store. A split stands in a row, its index in the columns of masks, identifiers,
// counts and links; the chain of its place leads from row to row.
ghost use Rattle.std.specs.Prelude.{◌≡◌, true, ◌≤◌, length};
ghost use Rattle.records.specs.Records.{masks_of};
ghost use Rattle.layout.specs.Store.{parts_at};
ghost use Rattle.layout.specs.WholeStore.{whole_at, place_in};
ghost use Rattle.recording.specs.Recording.{SplitsOf, new_in, FoundAs, RowsOf};

// The row of the split m, along its place p.
pub(crate) fn find_row(s: &[u8], p: u64, m: u64) -> Option<usize>
    requires s_value { whole_at s.now ≡ true }
    requires p_value { p ≡ place_in s.now m }
    ensures { FoundAs (parts_at s.now) m result }
{
    let mut entry = rows::start_at(s, p as usize);
    while entry != 0 {
        let k = entry - 1;
        if masks::is_same(rows::mask_at(s, k), m) {
            return Some(k);
        }
        entry = rows::link_at(s, k);
    }
    None
}

// The rows of the splits in the first n records, those of new ones behind the others; answers how many are new.
pub(crate) fn find_rows(s: &[u8], n: usize, records: &[u64], rows: &mut [u64]) -> usize
    requires s_value { whole_at s.now ≡ true }
    requires splits_of { SplitsOf s.now n records.now }
    requires n_in_bounds { n ≤ length rows.old }
    ensures rows_of { RowsOf (parts_at s.now) n records.now rows.new }
    ensures value { result ≡ length (new_in (parts_at s.now) (masks_of n records.now)) }
{
    let held = layout::splits_held(s);
    let mut new = 0;
    for j in 0..n {
        let found = find_row(
            s,
            records::place_of(records, j),
            records::mask_of(records, j),
        );
        match found {
            Some(k) => {
                rows[j] = k as u64;
            }
            None => {
                rows[j] = (held + new) as u64;
                new += 1;
            }
        }
    }
    new
}
