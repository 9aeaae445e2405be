// The splits of the majority tree, in order of mask, and how many trees have each. A tree over at most 64 taxa has at
// most 62 splits.
//
// Its contract cites crate trees, `specs/Consensus.antt` (`majority`, `count`).
ghost use Rattle.std.specs.Prelude.{◌≡◌, true, ◌++◌, map, ◌≤◌, length, drop};
ghost use Rattle.trees.specs.Consensus.{count, majority};
ghost use Rattle.layout.specs.Store.{held_at};
ghost use Rattle.layout.specs.WholeStore.{whole_at};

use answers::Split;

// Puts the splits of the majority tree at the front of `masks` and their counts at the front of `counts`, and answers
// how many there are.
pub fn majority_groups(s: &[u8], masks: &mut [u64], counts: &mut [u32]) -> usize
    requires s_value { whole_at s.now ≡ true }
    requires in_bounds { 64 ≤ length masks.old }
    requires in_bounds_2 { 64 ≤ length counts.old }
    ensures value { result ≡ length (majority (held_at s.now).trees) }
    ensures masks_after { masks.new ≡ majority (held_at s.now).trees ++ drop result masks.old }
    ensures counts_after { counts.new ≡ map (count (held_at s.now).trees) (majority (held_at s.now).trees) ++ drop result counts.old }
{
    let least = layout::trees_held(s) / 2 + 1;
    let held = layout::splits_held(s);
    let mut n = 0;
    for k in 0..held {
        let row = rows::row_of(s, Split(k));
        let count = rows::count_at(s, row);
        if least <= count {
            masks[n] = rows::mask_at(s, row);
            counts[n] = count as u32;
            n += 1;
        }
    }
    n
}
