// Reading a matrix: its form over the whole text, its symmetry, the room, and only then the values.
//
// `specs/Reading.antt` says what is answered, `specs/Walk.antt` how the text is walked through.
ghost use Rattle.std.specs.Prelude.{◌≡◌, length};
ghost use Rattle.trees.specs.PhylipCall.{read_phylip_of};
ghost use Rattle.phylip.specs.Walk.{is_first};
ghost use Rattle.phylip.specs.Reading.{ReadAs};

use crate::{filling, form, symmetry, values};
use answers::Refusal;

// The most trees that a matrix may have.
const TREES: usize = 1024;

// Reads a matrix: how many trees it is of, and their values, row by row, at the front of a buffer.
pub fn read_matrix(file: &[u8], out: &mut [u16]) -> Result<usize, Refusal>
    ensures { ReadAs (read_phylip_of file.now (length out.old)) result out.old out.new }
{
    if !is_first(file) {
        return Err(Refusal::BadMatrix);
    }
    let first = values::number_at(file, 0);
    let t = first.value;
    let start = first.at + 1;
    let mut at = [0usize; TREES];
    if !form::are_rows(file, start, t, &mut at) {
        return Err(Refusal::BadMatrix);
    }
    if !symmetry::is_symmetric(file, t, &mut at) {
        return Err(Refusal::NotSymmetric);
    }
    if out.len() < t * t {
        return Err(Refusal::TooShort);
    }
    filling::fill_rows(file, start, t, out);
    Ok(t)
}

// Whether a line with a number of trees is first.
fn is_first(f: &[u8]) -> bool
    ensures { result ≡ is_first f.now }
{
    if !values::has_digit(f, 0) {
        return false;
    }
    let n = values::number_at(f, 0);
    if TREES < n.value {
        return false;
    }
    values::has_byte(f, n.at, b'\n')
}
