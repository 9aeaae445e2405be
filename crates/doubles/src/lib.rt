// A branch's length in 8 bytes of a slice: a double as its 64 bits, the lowest byte first, or none.
//
// Its contracts cite `specs/Stored.antt` (`length_at`, `put_length`); the laws that callers use stand in `StoredLaws` beside it.
#![tactic(auto)]

ghost use Rattle.std.specs.Prelude.{◌≡◌, true, ◌+◌, ◌≤◌, length};
ghost use Rattle.std.specs.Float.{binary64};
ghost use Rattle.std.specs.Float.Ieee.{of_bits};
ghost use Rattle.trees.specs.Value.{proper};
ghost use Rattle.trees.specs.Whole.{good_length};
ghost use Rattle.doubles.specs.Stored.{branch_given, length_at, good_length_at, put_length};

// The bits that stand for no length: those of no double that may be stored.
const NO_LENGTH: u64 = 0xffff_ffff_ffff_ffff;

// Puts x into the 8 bytes of s from at.
#[tactic(auto, unfolding(crate::specs::Stored::branch_given, crate::specs::Stored::put_length, crate::specs::Double::put_double))]
pub fn put_length(s: &mut [u8], at: usize, x: Option<f64>)
    requires at_in_bounds { at + 8 ≤ length s.old }
    requires x_value { good_length (branch_given x) ≡ true }
    ensures { s.new ≡ put_length s.old at (branch_given x) }
{
    match x {
        None => fields::put64(s, at, NO_LENGTH),
        Some(d) => fields::put64(s, at, f64::to_bits(d)),
    }
}

// The length in the 8 bytes of s from at.
pub fn get_length(s: &[u8], at: usize) -> Option<f64>
    requires at_in_bounds { at + 8 ≤ length s.now }
    requires at_value { good_length_at s.now at ≡ true }
    ensures { branch_given result ≡ length_at s.now at }
{
    let bits = fields::get64(s, at);
    if bits == NO_LENGTH {
        return None;
    }
    Some(f64::from_bits(bits))
}

// Whether the 8 bytes of s from at hold no length, or a double that is finite and not minus zero.
pub fn holds_length(s: &[u8], at: usize) -> bool
    requires { at + 8 ≤ length s.now }
    ensures { result ≡ good_length_at s.now at }
{
    let held = fields::get64(s, at);
    if held == NO_LENGTH {
        return true;
    }
    is_proper(held)
}

// Whether the bits are those of a double that is finite and not minus zero.
fn is_proper(bits: u64) -> bool
    ensures { result ≡ proper (of_bits binary64 bits) }
{
    if bits == 0x8000_0000_0000_0000 {
        return false;
    }
    bits % 0x8000_0000_0000_0000 < 0x7ff0_0000_0000_0000
}
