// Lines of a matrix: a name of ten bytes, and values. `specs/Walk.antt` says what a row is, `specs/Rows.antt` what is answered.
ghost use Rattle.std.specs.Prelude.{◌≡◌, ◌≤◌, length, take, drop};
ghost use Rattle.trees.specs.Nexus.{begins};
ghost use Rattle.trees.specs.Phylip.{is_name};
ghost use Rattle.phylip.specs.Walk.{rest, next, nexts, is_value, ends_row, is_row, next_row};
ghost use Rattle.phylip.specs.Rows.{is_plain, PlaceAs, RowsAs};

use crate::values;

// How many bytes a name has.
pub(crate) const NAME: usize = 10;

// The largest value.
const LARGEST: usize = 65535;

// Whether t rows and nothing behind them stand at a place; if so, `at` is left with the place behind each name.
pub(crate) fn are_rows(f: &[u8], i: usize, t: usize, at: &mut [usize]) -> bool
    requires { t ≤ length at.old }
    ensures { RowsAs f.now i t result at.old at.new }
{
    let mut p = i;
    for k in 0..t {
        let Some(e) = row_end(f, p, t) else {
            return false;
        };
        at[k] = p + NAME;
        p = e;
    }
    f.len() <= p
}

// The place behind a row of t values.
fn row_end(f: &[u8], i: usize, t: usize) -> Option<usize>
    ensures { PlaceAs f.now (is_row t (rest f.now i)) (next_row t (rest f.now i)) result }
{
    if !is_name(f, i) {
        return None;
    }
    values_end(f, i + NAME, t)
}

// Whether a name stands at a place.
fn is_name(f: &[u8], i: usize) -> bool
    ensures { result ≡ is_name (take 10 (rest f.now i)) }
{
    for k in 0..NAME {
        if !has_plain(f, i + k) {
            return false;
        }
    }
    true
}

// Whether a byte of a name stands at a place.
fn has_plain(f: &[u8], at: usize) -> bool
    ensures { result ≡ begins is_plain (rest f.now at) }
{
    at < f.len() && matches!(f[at], 32..=126)
}

// The place behind n values and the LF at once behind them.
fn values_end(f: &[u8], i: usize, n: usize) -> Option<usize>
    ensures { PlaceAs f.now (ends_row n (rest f.now i)) (drop 1 (nexts n (rest f.now i))) result }
{
    let mut at = i;
    for _k in 0..n {
        at = value_end(f, at)?;
    }
    if !values::has_byte(f, at, b'\n') {
        return None;
    }
    Some(at + 1)
}

// The place behind a value, which stands behind spaces.
fn value_end(f: &[u8], i: usize) -> Option<usize>
    ensures { PlaceAs f.now (is_value (rest f.now i)) (next (rest f.now i)) result }
{
    if !values::has_byte(f, i, b' ') {
        return None;
    }
    let j = values::spaces_end(f, i);
    if !values::has_digit(f, j) {
        return None;
    }
    let v = values::number_at(f, j);
    if LARGEST < v.value {
        return None;
    }
    Some(v.at)
}
