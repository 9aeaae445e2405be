// The splits of a store: the tests of the recorded masks, identifiers and chains.
//
// Its contracts cite `specs/WholeStore.antt`, `specs/Splits.antt` and `specs/Sums.antt` and, of crate
// trees, `specs/Hash.antt`.
ghost use Rattle.std.specs.Prelude.{◌≡◌, true, false};
ghost use Rattle.trees.specs.Hash.{place};
ghost use Rattle.head.specs.Head.{numbers_at, first_at};
ghost use Rattle.layout.specs.Store.{splits_held_at};
ghost use Rattle.layout.specs.WholeStore.{all_below, good_identifier, good_splits, good_start, good_chains};
ghost use Rattle.layout.specs.WholeFacts.{HeadAt};
ghost use Rattle.store.specs.Splits.{good_mask, Highest};
ghost use Rattle.store.specs.Sums.{constants_at, Sums};

use crate::sums::sum_over;
use answers::Split;

// Whether the recorded masks are proper and rise, and the stored identifiers are right, by the table of
// the sums of the second constants.
pub(crate) fn splits_good(s: &[u8], sums: &[u64; 2048]) -> bool
    requires head_at { HeadAt s.now }
    requires sums { Sums (constants_at true s.now) 8 sums.now }
    ensures { result ≡ good_splits s.now }
{
    if !masks_good(s) {
        return false;
    }
    identifiers_good(s, sums)
}

// Whether each number has a row, and its mask is proper and above the one before; a proper mask is
// above 0, before the first.
fn masks_good(s: &[u8]) -> bool
    requires { HeadAt s.now }
    ensures { result ≡ all_below (good_mask s.now) (splits_held_at s.now) }
{
    let n = head::taxa(s);
    let held = layout::splits_held(s);
    let mut last = 0u64;
    for k in 0..held {
        let row = rows::row_of(s, Split(k));
        if held <= row {
            return false;
        }
        let m = rows::mask_at(s, row);
        if !masks::is_proper(m, n) {
            return false;
        }
        if !masks::comes_before(last, m) {
            return false;
        }
        last = m;
    }
    true
}

// Whether each stored identifier is that of its split's mask, by the same table.
fn identifiers_good(s: &[u8], sums: &[u64; 2048]) -> bool
    requires head_at { HeadAt s.now }
    requires sums { Sums (constants_at true s.now) 8 sums.now }
    ensures { result ≡ all_below (good_identifier s.now) (splits_held_at s.now) }
{
    let held = layout::splits_held(s);
    for k in 0..held {
        let m = rows::mask_at(s, k);
        if rows::identifier_at(s, k) != sum_over(sums, m) {
            return false;
        }
    }
    true
}

// Whether the chain of each place meets its splits, each once and the highest first, by the table of
// the sums of the first constants.
pub(crate) fn chains_good(s: &[u8], sums: &[u64; 2048]) -> bool
    requires head_at { HeadAt s.now }
    requires sums { Sums (constants_at false s.now) 8 sums.now }
    ensures { result ≡ good_chains s.now }
{
    let held = layout::splits_held(s);
    let mut highest = [0u16; 8192];
    for k in 0..held {
        let p = place_of(s, sums, rows::mask_at(s, k));
        if rows::link_at(s, k) != usize::from(highest[p]) {
            return false;
        }
        highest[p] = (k + 1) as u16;
    }
    starts_good(s, &highest)
}

// The place of the split m, by the table of the sums of the first constants.
fn place_of(s: &[u8], sums: &[u64; 2048], m: u64) -> usize
    requires head_at { HeadAt s.now }
    requires sums { Sums (constants_at false s.now) 8 sums.now }
    ensures { result ≡ place (first_at s.now) (numbers_at s.now).places m }
{
    (sum_over(sums, m) as u32 % head::places(s)) as usize
}

// Whether the chain of each place starts at the highest of its splits.
fn starts_good(s: &[u8], highest: &[u16; 8192]) -> bool
    requires head_at { HeadAt s.now }
    requires highest { Highest s.now (splits_held_at s.now) highest.now }
    ensures { result ≡ all_below (good_start s.now) (numbers_at s.now).places }
{
    let n = head::places(s) as usize;
    for p in 0..n {
        if rows::start_at(s, p) != usize::from(highest[p]) {
            return false;
        }
    }
    true
}
