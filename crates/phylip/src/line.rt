// The line of a tree: its name, padded to ten bytes, and its values.
//
// Its contracts cite crate trees, `specs/Phylip.antt` (`padded`, `name_of`, `row_text`), and `specs/Writing.antt`
// (`values_text`, `Values`).
ghost use Rattle.std.specs.Prelude.{◌+◌, ◌≤◌, ◌<◌, length};
ghost use Rattle.trees.specs.Phylip.{name_of, padded, row_text};
ghost use Rattle.putting.specs.Put.{Put};
ghost use Rattle.phylip.specs.Writing.{Values, values_text};

use crate::digits::put_number;
use putting::{put_byte, put_spaces};

// Puts the line of tree i from `at` on, and answers where it ends.
pub(crate) fn put_line(out: &mut [u8], at: usize, i: usize, row: &[u16]) -> usize
    requires i_bound { i < 10000 }
    requires values { Values row.now }
    requires row_len_bound { length row.now ≤ 1024 }
    requires at_bound { at ≤ 8000000 }
    ensures { Put out.old at (row_text i row.now) out.new result }
{
    put_name(out, at, i);
    let e = put_values(out, at + 10, row);
    put_byte(out, e, b'\n');
    e + 1
}

// Puts the name of tree i, padded.
fn put_name(out: &mut [u8], at: usize, i: usize)
    requires i_bound { i < 10000 }
    requires at_bound { at ≤ 8000000 }
    ensures { Put out.old at (padded (name_of i)) out.new (at + 10) }
{
    put_byte(out, at, b't');
    let e = put_number(out, at + 1, i as u16);
    put_spaces(out, e, at + 10);
}

// Puts a space and the digits of each value.
fn put_values(out: &mut [u8], at: usize, row: &[u16]) -> usize
    requires values { Values row.now }
    requires row_len_bound { length row.now ≤ 1024 }
    requires at_bound { at ≤ 8000010 }
    ensures put { Put out.old at (values_text row.now) out.new result }
    ensures upper_bound { result ≤ at + 4096 }
{
    let mut e = at;
    for j in 0..row.len() {
        put_byte(out, e, b' ');
        e = put_number(out, e + 1, row[j]);
    }
    e
}
