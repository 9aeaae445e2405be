// The splits of a consensus tree, those that enough of the trees have, in a list of 64 places. A tree over at
// most 64 taxa has at most 62 splits.
//
// Its contracts cite `specs/Chosen.antt`.
ghost use Rattle.std.specs.Prelude.{◌≡◌, true, ◌≤◌, length, take};
ghost use Rattle.layout.specs.Store.{held_at};
ghost use Rattle.layout.specs.WholeStore.{whole_at};
ghost use Rattle.consensus.specs.Chosen.{chosen};

use answers::Split;

// Puts the splits that at least `least` trees have at the front of the list, in order of mask.
pub(crate) fn choose(s: &[u8], least: usize, list: &mut [u64; 64]) -> usize
    requires s_value { whole_at s.now ≡ true }
    requires list_len { length list.old ≡ 64 }
    requires s_len_bound { length (chosen least (held_at s.now).trees) ≤ 64 }
    ensures list_after { take result list.new ≡ chosen least (held_at s.now).trees }
    ensures upper_bound { result ≤ length list.new }
{
    let held = layout::splits_held(s);
    let mut n = 0;
    for k in 0..held {
        let row = rows::row_of(s, Split(k));
        if least <= rows::count_at(s, row) {
            list[n] = rows::mask_at(s, row);
            n += 1;
        }
    }
    n
}
