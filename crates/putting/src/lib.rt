// Bytes, words and numbers, put into a buffer one behind another. What the buffer does not reach is dropped, and the end
// is where it would be: so a text's length is found by putting it where there is no room for it.
//
// Its contracts cite `specs/Put.antt` (`Put`) and crate trees, `specs/Decimal.antt` (`digits_of`). The lines that callers
// put are in `specs/Lines.antt`.
//
//   put_byte       one byte
//   put_word       the bytes of a word
//   put_number     the digits of a number
//   put_counted    a word, and the digits of a number behind it
//   put_spaces     spaces, up to an end
//   put_end        a line end
#![tactic(auto)]

ghost use Rattle.std.specs.Prelude.{[], ◌∷◌, ◌++◌, ◌≡◌, ◌+◌, ◌-◌, ◌≤◌, ◌<◌, length, set, replicate};
ghost use Rattle.trees.specs.Decimal.{digits_of};
ghost use Rattle.putting.specs.Put.{Put};

// Puts a byte at `at`.
pub fn put_byte(out: &mut [u8], at: usize, b: u8)
    ensures { out.new ≡ set out.old at b }
{
    if at < out.len() {
        out[at] = b;
    }
}

// Puts the bytes of a word from `at` on, and answers where they end.
pub fn put_word(out: &mut [u8], at: usize, word: &[u8]) -> usize
    requires { at + length word.now ≤ 10000000 }
    ensures { Put out.old at word.now out.new result }
{
    // copy_from_slice of what there is room for was tried: with it a number of few digits takes five times as long
    for (i, b) in word.iter().enumerate() {
        put_byte(out, at + i, *b);
    }
    at + word.len()
}

// Puts the digits of n from `at` on, and answers where they end.
pub fn put_number(out: &mut [u8], at: usize, n: u64) -> usize
    requires { at ≤ 9000000 }
    ensures put { Put out.old at (digits_of n) out.new result }
    ensures upper_bound { (result ≤ at + 20) × (n < 65536 → result ≤ at + 5) }
{
    let mut text = [0u8; 20];
    let k = io::decimal(n, &mut text);
    put_word(out, at, &text[..k])
}

// Puts a word and, behind it, the digits of n.
pub fn put_counted(out: &mut [u8], at: usize, word: &[u8], n: u64) -> usize
    requires { at + length word.now ≤ 9000000 }
    ensures put { Put out.old at (word.now ++ digits_of n) out.new result }
    ensures upper_bound { (result ≤ at + length word.now + 20) × (n < 65536 → result ≤ at + length word.now + 5) }
{
    let e = put_word(out, at, word);
    put_number(out, e, n)
}

// Puts spaces from `at` up to `end`.
pub fn put_spaces(out: &mut [u8], at: usize, end: usize)
    requires at_le_end { at ≤ end }
    requires end_bound { end ≤ 10000000 }
    ensures { Put out.old at (replicate (end - at) 32) out.new end }
{
    let from = at.min(out.len());
    let to = end.min(out.len());
    out[from..to].fill(b' ');
}

// Puts a line end.
pub fn put_end(out: &mut [u8], at: usize) -> usize
    requires { at ≤ 10000000 }
    ensures { Put out.old at (10 ∷ []) out.new result }
{
    put_byte(out, at, 10);
    at + 1
}
