// The words of a line: numbers, bytes in hex and lists of numbers.
ghost use Rattle.std.specs.Prelude.{◌<◌, IfSome};

use answers::{Lane, Split, Tree};

// The words of a line that are still to come, or none. One space stands between two words.
#[derive(Drop)]
pub(crate) struct Words<'a> {
    rest: Option<&'a mut [u8]>,
}

impl<'a> Words<'a> {
    // All words of a line.
    pub(crate) fn new(line: &'a mut [u8]) -> Self {
        Words { rest: Some(line) }
    }

    // Whether no word is to come.
    pub(crate) fn is_over(&self) -> bool {
        self.rest.is_none()
    }

    // The next word.
    pub(crate) fn word(&mut self) -> Option<&'a mut [u8]> {
        let rest = self.rest.take()?;
        let Some(end) = rest.iter().position(|b| *b == b' ') else {
            return Some(rest);
        };
        let (word, behind) = rest.split_at_mut(end);
        self.rest = Some(&mut behind[1..]);
        Some(word)
    }

    // A number as a mask.
    pub(crate) fn mask(&mut self) -> Option<u64> {
        words::decimal(self.word()?)
    }

    // A number.
    pub(crate) fn number(&mut self) -> Option<usize> {
        Some(self.mask()? as usize)
    }

    // The number of a lane.
    pub(crate) fn lane(&mut self) -> Option<Lane> {
        Some(Lane(self.number()?))
    }

    // The number of a tree.
    pub(crate) fn tree(&mut self) -> Option<Tree> {
        Some(Tree(self.number()?))
    }

    // The number of a split.
    pub(crate) fn split(&mut self) -> Option<Split> {
        Some(Split(self.number()?))
    }

    // A number in 32 bits. For a larger one stands the largest: it is out of range too, and so refused with the same number.
    pub(crate) fn size(&mut self) -> Option<u32> {
        Some(u32::try_from(self.number()?).unwrap_or(u32::MAX))
    }

    // A number of elements; `-` is the largest.
    pub(crate) fn room(&mut self) -> Option<usize> {
        let word = self.word()?;
        if is_dash(word) {
            return Some(usize::MAX);
        }
        Some(words::decimal(word)? as usize)
    }

    // Bytes, which are put where they stand in hex, `-` for none.
    pub(crate) fn bytes(&mut self) -> Option<&'a [u8]> {
        let word = self.word()?;
        if is_dash(word) {
            return Some(&[]);
        }
        decode(word)
    }

    // Whether the word `lengths` is left; no other may be.
    pub(crate) fn is_kept(&mut self) -> Option<bool> {
        let Some(word) = self.word() else {
            return Some(false);
        };
        let word: &[u8] = word;
        match word {
            b"lengths" => Some(true),
            _ => None,
        }
    }
}

// Whether a word is `-`.
fn is_dash(word: &[u8]) -> bool {
    matches!(word, b"-")
}

// Puts the bytes that a word is in hex where their digits begin.
fn decode(word: &mut [u8]) -> Option<&[u8]> {
    let n = word.len() / 2;
    if n == 0 {
        return None;
    }
    if word.len() % 2 != 0 {
        return None;
    }
    for i in 0..n {
        let high = digit(word[2 * i])?;
        let low = digit(word[2 * i + 1])?;
        word[i] = high * 16 + low;
    }
    Some(&word[..n])
}

// The value of a hex digit.
fn digit(b: u8) -> Option<u8>
    ensures { IfSome result (λ d. d < 16) }
{
    match b {
        b'0'..=b'9' => Some(b - b'0'),
        b'a'..=b'f' => Some(b - b'a' + 10),
        _ => None,
    }
}

// Puts down the numbers that a word is, with commas between, `-` for none; what there is no place for is left out.
pub(crate) fn list<'a>(word: &[u8], out: &'a mut [u64]) -> Option<&'a [u64]> {
    if is_dash(word) {
        return Some(&[]);
    }
    let mut count = 0;
    for part in word.split(|b| *b == b',') {
        let x = words::decimal(part)?;
        if count < out.len() {
            out[count] = x;
            count += 1;
        }
    }
    Some(&out[..count])
}
