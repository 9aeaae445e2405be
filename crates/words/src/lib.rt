// Words of a line: numbers in decimal digits. Read specs/Words.antt for what the contracts cite.
#![tactic(auto)]

ghost use Rattle.std.specs.Prelude.{◌≡◌};
ghost use Rattle.words.specs.Words.{decimal_of};
ghost use Rattle.words.specs.Parsed.{number_of};

// The number that a word is in decimal digits, if it fits 64 bits.
pub fn decimal(word: &[u8]) -> Option<u64>
    ensures { result ≡ number_of (decimal_of word.now) }
{
    if word.is_empty() {
        return None;
    }
    let mut v = 0u64;
    for b in word {
        if !b.is_ascii_digit() {
            return None;
        }
        v = v.checked_mul(10)?.checked_add(u64::from(*b - b'0'))?;
    }
    Some(v)
}
