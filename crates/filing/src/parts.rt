// Parts of lists: so many elements from the front, the first line, the same bytes.
ghost use Rattle.std.specs.Prelude.{◌≡◌, min, length, take};
ghost use Rattle.io.specs.Counts.{IsPrefixLen};
ghost use Rattle.trees.specs.Plain.{same_bytes};

// So many of the bytes of s as there are, at most n.
pub fn within(n: usize, s: &[u8]) -> usize
    ensures prefix_len { IsPrefixLen result s.now }
    ensures value { result ≡ min n (length s.now) }
{
    n.min(s.len())
}

// The same of numbers.
pub fn numbers_within(n: usize, list: &[u32]) -> usize
    ensures prefix_len { IsPrefixLen result list.now }
    ensures value { result ≡ min n (length list.now) }
{
    n.min(list.len())
}

// Whether two lists of bytes are the same.
#[tactic(auto, using(crate::specs::PartLaws::compared))]
pub fn same(s: &[u8], t: &[u8]) -> bool
    ensures { result ≡ same_bytes s.now t.now }
{
    s == t
}

// Whether s begins with t.
#[tactic(auto, using(crate::specs::PartLaws::compared))]
pub fn begins(s: &[u8], t: &[u8]) -> bool
    ensures { result ≡ same_bytes (take (length t.now) s.now) t.now }
{
    s.starts_with(t)
}

// How many bytes stand before the first LF: all, where there is none.
pub(crate) fn line_end(s: &[u8]) -> usize
    ensures { IsPrefixLen result s.now }
{
    s.iter().position(|b| *b == b'\n').unwrap_or(s.len())
}
