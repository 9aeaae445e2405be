// The lines of the groups of a majority tree.
//
// Its contracts cite `specs/GroupLines.antt` (`group_line`, `group_lines`).
ghost use Rattle.std.specs.Prelude.{◌≡◌, true, map, ◌+◌, ◌*◌, ◌≤◌, ◌<◌, length};
ghost use Rattle.trees.specs.Consensus.{count};
ghost use Rattle.layout.specs.Store.{held_at};
ghost use Rattle.layout.specs.WholeStore.{whole_at};
ghost use Rattle.putting.specs.Put.{Put};
ghost use Rattle.putting.specs.Lines.{bytes_of};
ghost use Rattle.grouping.specs.GroupLines.{group_line, group_lines};

use crate::labels;
use crate::majority::majority_groups;
use putting::put_word;

// Puts a line for each group of the majority tree from `at` on, and answers where they end.
pub fn put_groups(s: &[u8], out: &mut [u8], at: usize) -> usize
    requires s_value { whole_at s.now ≡ true }
    requires at_bound { at ≤ 500000 }
    ensures put { Put out.old at (bytes_of (group_lines (held_at s.now))) out.new result }
    ensures upper_bound { result ≤ at + 300000 }
{
    let mut list = [0; 64];
    let mut counts = [0; 64];
    let k = majority_groups(s, &mut list, &mut counts);
    put_each(s, &list[..k], &counts[..k], out, at)
}

// Puts a line for each mask of the list, whose counts stand in `counts`.
fn put_each(s: &[u8], list: &[u64], counts: &[u32], out: &mut [u8], at: usize) -> usize
    requires s_value { whole_at s.now ≡ true }
    requires counts_value { counts.now ≡ map (count (held_at s.now).trees) list.now }
    requires list_len_bound { length list.now ≤ 62 }
    requires at_bound { at ≤ 500000 }
    ensures put { Put out.old at (bytes_of (map (group_line (held_at s.now)) list.now)) out.new result }
    ensures upper_bound { result ≤ at + 4300 * length list.now }
{
    let mut e = at;
    for k in 0..list.len() {
        e = put_line(s, list[k], counts[k], out, e);
    }
    e
}

// Puts the line of the group m, which so many trees have.
fn put_line(s: &[u8], m: u64, trees: u32, out: &mut [u8], at: usize) -> usize
    requires s_value { whole_at s.now ≡ true }
    requires trees_value { trees ≡ count (held_at s.now).trees m }
    requires at_bound { at ≤ 1700000 }
    ensures put { Put out.old at (group_line (held_at s.now) m) out.new result }
    ensures upper_bound { result ≤ at + 4300 }
{
    let e = put_word(out, at, b"group");
    labels::put_group(s, m, trees, out, e)
}
