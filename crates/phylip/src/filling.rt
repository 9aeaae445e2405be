// The values of a matrix, row by row, to the front of a lent buffer.
ghost use Rattle.std.specs.Prelude.{◌≡◌, true, ◌+◌, ◌*◌, ◌≤◌, length};
ghost use Rattle.phylip.specs.Walk.{rest, are_values, are_rows};
ghost use Rattle.phylip.specs.Filling.{RowFilled, rows_filled};

use crate::form::NAME;
use crate::values;

// Writes the values of the t rows at a place.
pub(crate) fn fill_rows(f: &[u8], i: usize, t: usize, out: &mut [u16])
    requires i_value { are_rows t t (rest f.now i) ≡ true }
    requires t_in_bounds { t * t ≤ length out.old }
    ensures { out.new ≡ rows_filled out.old 0 t t (rest f.now i) }
{
    let mut p = i;
    for row in 0..t {
        p = fill_row(f, p + NAME, t, out, t * row) + 1;
    }
}

// Writes the n values at a place, the first at k; answers the place behind them.
fn fill_row(f: &[u8], i: usize, n: usize, out: &mut [u16], k: usize) -> usize
    requires i_value { are_values n (rest f.now i) ≡ true }
    requires n_in_bounds { k + n ≤ length out.old }
    ensures { RowFilled f.now i n k result out.old out.new }
{
    let mut at = i;
    for j in k..k + n {
        let v = values::value_at(f, at);
        out[j] = v.value as u16;
        at = v.at;
    }
    at
}
