// Columns of numbers in a store: some of a column's numbers moved to its front, or its numbers named anew.
ghost use Rattle.std.specs.Prelude.{◌+◌, ◌*◌, ◌≤◌, length, take};
ghost use Rattle.withdrawing.specs.Moved.{Gathered, Within, Renamed, Named};

// Moves the numbers of the first m of the rows to the front of the column of numbers of `width` bytes from `from` on.
pub(crate) fn gather(s: &mut [u8], from: usize, width: usize, rows: &[u16], m: usize)
    requires m_in_bounds { m ≤ length rows.now }
    requires within { Within width from (take m rows.now) s.old }
    ensures { Gathered width from (take m rows.now) s.old s.new }
{
    for j in 0..m {
        fields::copy_within(s, from + width * rows[j] as usize, from + width * j, width);
    }
}

// Names each of the n numbers of 2 bytes from `from` on anew: entry x becomes entries[x] (add 0), row x the row whose entry is entries[x + 1] (add 1).
pub(crate) fn rename(s: &mut [u8], from: usize, n: usize, entries: &[u16], add: usize)
    requires n_in_bounds { from + 2 * n ≤ length s.old }
    requires named { Named from n entries.now add s.old }
    requires add_bound { add ≤ 1 }
    ensures { Renamed from n entries.now add s.old s.new }
{
    for j in 0..n {
        let at = from + 2 * j;
        let x = fields::get16(s, at) as usize + add;
        fields::put16(s, at, entries[x] - add as u16);
    }
}
