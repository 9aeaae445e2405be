// Numbers of 2, 4 and 8 bytes in a slice of bytes, the lowest byte first; and runs of bytes copied
// and cleared inside a slice.
//
// Its contracts cite `specs/Field.antt` (`number`, `put`) and `specs/Run.antt` (`copied`,
// `cleared`); the laws that callers use stand in `FieldLaws` and `RunLaws` beside them.
#![tactic(auto)]

ghost use Rattle.std.specs.Prelude.{◌≡◌, ◌+◌, ◌≤◌, ◌<◌, length};
ghost use Rattle.fields.specs.Field.{number, put};
ghost use Rattle.fields.specs.Run.{copied, cleared};

// The number in the 8 bytes of s from at.
pub fn get64(s: &[u8], at: usize) -> u64
    requires { at + 8 ≤ length s.now }
    ensures { result ≡ number 8 s.now at }
{
    u64::from(get32(s, at)) + u64::from(get32(s, at + 4)) * 4294967296
}

// The number in the 4 bytes of s from at.
pub fn get32(s: &[u8], at: usize) -> u32
    requires { at + 4 ≤ length s.now }
    ensures { result ≡ number 4 s.now at }
{
    u32::from(get16(s, at)) + u32::from(get16(s, at + 2)) * 65536
}

// The number in the 2 bytes of s from at.
#[tactic(auto, unfolding(crate::specs::Field::number))]
pub fn get16(s: &[u8], at: usize) -> u16
    requires { at + 2 ≤ length s.now }
    ensures { result ≡ number 2 s.now at }
{
    u16::from_le_bytes([s[at], s[at + 1]])
}

// Puts v into the 8 bytes of s from at.
#[tactic(auto, using(crate::proofs::CopyLaws::put_bytes))]
pub fn put64(s: &mut [u8], at: usize, v: u64)
    requires { at + 8 ≤ length s.old }
    ensures { s.new ≡ put 8 s.old at v }
{
    s[at..at + 8].copy_from_slice(&v.to_le_bytes());
}

// Puts v into the 4 bytes of s from at.
#[tactic(auto, using(crate::proofs::CopyLaws::put_bytes))]
pub fn put32(s: &mut [u8], at: usize, v: u32)
    requires { at + 4 ≤ length s.old }
    ensures { s.new ≡ put 4 s.old at v }
{
    s[at..at + 4].copy_from_slice(&v.to_le_bytes());
}

// Puts v into the 2 bytes of s from at.
#[tactic(auto, using(crate::proofs::CopyLaws::put_bytes))]
pub fn put16(s: &mut [u8], at: usize, v: u16)
    requires { at + 2 ≤ length s.old }
    ensures { s.new ≡ put 2 s.old at v }
{
    s[at..at + 2].copy_from_slice(&v.to_le_bytes());
}

// Copies the n bytes of s from `from` to `to`, as if all were read before the first is written. The library's slices have no
// `copy_within`.
pub fn copy_within(s: &mut [u8], from: usize, to: usize, n: usize)
    requires n_in_bounds { from + n ≤ length s.old }
    requires n_in_bounds_2 { to + n ≤ length s.old }
    ensures { s.new ≡ copied s.old to s.old from n }
{
    if to <= from {
        copy_down(s, from, to, n);
    } else {
        copy_up(s, from, to, n);
    }
}

// Copies a run to a lower place, its first byte first: what is written was read before.
fn copy_down(s: &mut [u8], from: usize, to: usize, n: usize)
    requires to_le_from { to ≤ from }
    requires n_in_bounds { from + n ≤ length s.old }
    ensures { s.new ≡ copied s.old to s.old from n }
{
    for i in 0..n {
        s[to + i] = s[from + i];
    }
}

// Copies a run to a higher place, its last byte first: what is written was read before.
fn copy_up(s: &mut [u8], from: usize, to: usize, n: usize)
    requires from_le_to { from ≤ to }
    requires n_in_bounds { to + n ≤ length s.old }
    ensures { s.new ≡ copied s.old to s.old from n }
{
    for i in (0..n).rev() {
        s[to + i] = s[from + i];
    }
}

// Copies the n bytes of t from `from` into s at `to`.
#[tactic(auto, using(crate::proofs::CopyLaws::copied_whole))]
pub fn copy_from(s: &mut [u8], to: usize, t: &[u8], from: usize, n: usize)
    requires n_in_bounds { to + n ≤ length s.old }
    requires n_in_bounds_2 { from + n ≤ length t.now }
    ensures { s.new ≡ copied s.old to t.now from n }
{
    s[to..to + n].copy_from_slice(&t[from..from + n]);
}

// Makes the n bytes of s from at 0.
#[tactic(auto, using(crate::proofs::CopyLaws::cleared_whole))]
pub fn clear_run(s: &mut [u8], at: usize, n: usize)
    requires { at + n ≤ length s.old }
    ensures { s.new ≡ cleared s.old at n }
{
    s[at..at + n].fill(0);
}
