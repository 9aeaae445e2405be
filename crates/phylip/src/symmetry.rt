// Whether a matrix is symmetric and its diagonal zero, without a memory of its values: a cursor for each row goes on by one value at
// each row that is compared, so that each value is read once. `specs/Symmetry.antt` says what a cell is.
ghost use Rattle.std.specs.Prelude.{◌≡◌, ◌≤◌, ◌<◌, length};
ghost use Rattle.phylip.specs.Symmetry.{symmetric_at, AgreesAs};

use crate::values;

// Whether the t rows whose first values stand at the places `at` are symmetric; the places are moved.
pub(crate) fn is_symmetric(f: &[u8], t: usize, at: &mut [usize]) -> bool
    requires { t ≤ length at.old }
    ensures { result ≡ symmetric_at f.now t at.old }
{
    for i in 0..t {
        if !agrees(f, t, i, at) {
            return false;
        }
    }
    true
}

// Whether row i is zero at its place, and its values behind it are those at the places of the rows behind it; these are moved by one.
fn agrees(f: &[u8], t: usize, i: usize, at: &mut [usize]) -> bool
    requires i_lt_t { i < t }
    requires t_in_bounds { t ≤ length at.old }
    ensures { AgreesAs f.now t i at.old result at.new }
{
    let first = values::value_at(f, at[i]);
    if first.value != 0 {
        return false;
    }
    let mut p = first.at;
    for j in i + 1..t {
        let a = values::value_at(f, p);
        let b = values::value_at(f, at[j]);
        if a.value != b.value {
            return false;
        }
        p = a.at;
        at[j] = b.at;
    }
    true
}
