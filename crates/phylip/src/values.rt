// Bytes, numbers and values from a place of the text on. What each is, is said in `specs/Walk.antt`; a place past the end has nothing.
ghost use Rattle.std.specs.Prelude.{◌≡◌, ◌+◌, ◌-◌, ◌*◌, ◌≤◌};
ghost use Rattle.trees.specs.Length.{is_digit};
ghost use Rattle.trees.specs.Nexus.{begins, behind_run};
ghost use Rattle.phylip.specs.Walk.{rest, is_byte, capped};
ghost use Rattle.phylip.specs.Places.{NumberAt, ValueAt};

// A number, and the place behind it.
#[derive(Clone, Copy)]
pub(crate) struct Reached {
    pub(crate) value: usize,
    pub(crate) at: usize,
}

// One above the largest value stands for every number above it.
const TOO_LARGE: usize = 65536;

// Whether the byte x stands at a place.
pub(crate) fn has_byte(f: &[u8], at: usize, x: u8) -> bool
    ensures { result ≡ begins (is_byte x) (rest f.now at) }
{
    at < f.len() && f[at] == x
}

// Whether a digit stands at a place.
pub(crate) fn has_digit(f: &[u8], at: usize) -> bool
    ensures { result ≡ begins is_digit (rest f.now at) }
{
    at < f.len() && f[at].is_ascii_digit()
}

// The place behind the spaces at a place.
pub(crate) fn spaces_end(f: &[u8], i: usize) -> usize
    ensures { rest f.now result ≡ behind_run (is_byte 32) (rest f.now i) }
{
    for at in i..f.len() {
        if f[at] != b' ' {
            return at;
        }
    }
    f.len()
}

// The number in the digits at a place.
pub(crate) fn number_at(f: &[u8], i: usize) -> Reached
    ensures { NumberAt f.now i result }
{
    let mut value = 0;
    for at in i..f.len() {
        if !f[at].is_ascii_digit() {
            return Reached { value, at };
        }
        value = with_digit(value, f[at]);
    }
    Reached { value, at: f.len() }
}

// The value at a place, behind spaces.
pub(crate) fn value_at(f: &[u8], i: usize) -> Reached
    ensures { ValueAt f.now i result }
{
    number_at(f, spaces_end(f, i))
}

// The number v with one digit more behind it.
fn with_digit(v: usize, b: u8) -> usize
    requires { (v ≤ 65536) × (48 ≤ b) }
    ensures { result ≡ capped (10 * v + (b - 48)) }
{
    TOO_LARGE.min(10 * v + usize::from(b - b'0'))
}
