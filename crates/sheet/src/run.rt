// Lines of the sheet of a whole store, written one behind another.
//
// Its contract cites `specs/Run.antt`.
ghost use Rattle.std.specs.Prelude.{◌≡◌, true, ◌+◌, ◌≤◌, drop};
ghost use Rattle.layout.specs.Store.{trees_held_at, splits_held_at, held_at};
ghost use Rattle.layout.specs.WholeStore.{whole_at};
ghost use Rattle.sheet.specs.Sheet.{sheet_lines};
ghost use Rattle.sheet.specs.Run.{Run};

use crate::line;

// How far lines are written: so many bytes, and so many lines.
#[derive(Clone, Copy)]
pub struct Reach {
    pub bytes: usize,
    pub lines: usize,
}

// Writes the lines from number `from` on to the front of out, up to one that does not fit.
pub(crate) fn put_lines(s: &[u8], refused: usize, from: usize, all: usize, out: &mut [u8]) -> Reach
    requires s_value { whole_at s.now ≡ true }
    requires all_value { all ≡ splits_held_at s.now + trees_held_at s.now + 3 }
    requires from_le_all { from ≤ all }
    ensures { Run (drop from (sheet_lines (held_at s.now) refused)) result.bytes result.lines out.old out.new }
{
    let mut text = [0u8; 8192];
    let mut at = 0;
    for j in from..all {
        let n = line::write_line(s, refused, j, &mut text);
        if out.len() - at < n {
            return Reach {
                bytes: at,
                lines: j - from,
            };
        }
        fields::copy_from(out, at, &text, 0, n);
        at += n;
    }
    Reach {
        bytes: at,
        lines: all - from,
    }
}
