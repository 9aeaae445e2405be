// Whether the head of lent bytes is in order: the test `good_head` of `specs/WholeStore.antt`, exactly,
// on any bytes.
ghost use Rattle.std.specs.Prelude.{◌≡◌, ◌≤◌, true, length};
ghost use Rattle.trees.specs.Opening.{in_range, good_constants, head_bytes};
ghost use Rattle.trees.specs.Whole.{good_opening};
ghost use Rattle.head.specs.Head.{numbers_at, first_at, second_at, opening_at};
ghost use Rattle.layout.specs.Store.{size_at};
ghost use Rattle.layout.specs.WholeStore.{good_head};

use answers::Taxon;
use layout::HEAD_BYTES;

// Whether the head is there and in order, the lent bytes reach its size, and its rooms hold.
pub(crate) fn head_good(s: &[u8]) -> bool
    ensures { result ≡ good_head s.now }
{
    if s.len() < HEAD_BYTES {
        return false;
    }
    if !opening_good(s) {
        return false;
    }
    if s.len() < store_size(s) {
        return false;
    }
    if (head::tree_room(s) as usize) < layout::trees_held(s) {
        return false;
    }
    layout::splits_held(s) <= head::split_room(s) as usize
}

// Whether the opening that the head holds passes its checks.
fn opening_good(s: &[u8]) -> bool
    requires { head_bytes ≤ length s.now }
    ensures { result ≡ good_opening (opening_at s.now) }
{
    if !numbers_good(s) {
        return false;
    }
    if !constants_good(s) {
        return false;
    }
    opening::names_good(s, head::taxa(s))
}

// Whether the numbers are in their ranges.
fn numbers_good(s: &[u8]) -> bool
    requires { head_bytes ≤ length s.now }
    ensures { result ≡ in_range (numbers_at s.now) }
{
    if 1 < head::kept(s) {
        return false;
    }
    opening::numbers_in_range(
        head::taxa(s),
        head::lanes(s),
        head::tree_room(s),
        head::split_room(s),
        head::places(s),
    )
}

// The size of the store, by its numbers.
fn store_size(s: &[u8]) -> usize
    requires head_bytes_in_bounds { head_bytes ≤ length s.now }
    requires s_value { in_range (numbers_at s.now) ≡ true }
    ensures { result ≡ size_at s.now }
{
    opening::store_size(
        head::taxa(s),
        head::lanes(s),
        head::tree_room(s),
        head::split_room(s),
        head::places(s),
        head::kept(s) == 1,
    )
}

// Whether the first list's constants are below the number of places; the second's are any.
fn constants_good(s: &[u8]) -> bool
    requires head_bytes_in_bounds { head_bytes ≤ length s.now }
    requires s_bound { (numbers_at s.now).taxa ≤ 64 }
    ensures { result ≡ good_constants (numbers_at s.now) (first_at s.now) (second_at s.now) }
{
    let taxa = head::taxa(s);
    let places = u64::from(head::places(s));
    for i in 0u32..taxa {
        if places <= head::first_constant(s, Taxon(i)) {
            return false;
        }
    }
    true
}
