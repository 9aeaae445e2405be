// Feeding the lanes of a collection in lent bytes: one piece, many texts at once, and closing; the verdict on a text.
//
// Read `specs/Feeding.antt` for what the calls promise; what they mean is said in crate trees,
// `specs/Held.antt` and `specs/Batch.antt`. `specs/Texts.antt` has the steps, `specs/Judging.antt` the verdict.
#![tactic(auto)]

ghost use Rattle.feeding.specs.Feeding.{FedAs, ClosedAs, batch_of, BatchedAs};
ghost use Rattle.std.specs.Prelude.{length};

use answers::{Fed, Lane, Refusal};
use head::KEYS;

mod texts;
mod verdicts;

pub use verdicts::judge_text;

// Feeds a piece to a lane: takes it up to the first semicolon that ends a text and that semicolon, or all of it.
pub fn feed(s: &mut [u8], l: Lane, piece: &[u8]) -> Fed
    ensures { FedAs s.old l.0 piece.now result s.new }
{
    if !store::is_whole(s) {
        return Fed {
            taken: 0,
            progress: Err(Refusal::NotWhole),
        };
    }
    if head::lanes(s) as usize <= l.0 {
        return Fed {
            taken: 0,
            progress: Err(Refusal::NoLane),
        };
    }
    let mut starts = [0u8; KEYS];
    let mut links = [0u8; 64];
    head::build_index(s, &mut starts, &mut links);
    texts::feed_piece(s, &starts, &links, l, piece)
}

// Closes a lane: empties it, and answers 6 if it had run over, 7 if it held any byte but blanks.
pub fn close(s: &mut [u8], l: Lane) -> Result<(), Refusal>
    ensures { ClosedAs s.old l.0 result s.new }
{
    if !store::is_whole(s) {
        return Err(Refusal::NotWhole);
    }
    if head::lanes(s) as usize <= l.0 {
        return Err(Refusal::NoLane);
    }
    let answer = lanes::closing_answer(s, l);
    lanes::empty_lane(s, l);
    answer
}

// Feeds a piece with any number of texts to a lane, tests the store once, and writes each verdict: a
// refusal's number, or 256 more than the tree's. Takes the whole piece.
pub fn batch(s: &mut [u8], l: Lane, piece: &[u8], verdicts: &mut [u32]) -> Result<usize, Refusal>
    ensures { BatchedAs (batch_of s.old l.0 piece.now (length verdicts.old)) l.0 result s.old verdicts.old s.new verdicts.new }
{
    if !store::is_whole(s) {
        return Err(Refusal::NotWhole);
    }
    if head::lanes(s) as usize <= l.0 {
        return Err(Refusal::NoLane);
    }
    let quoted = lanes::quotes_open(s, l);
    let n = text::count_texts(piece, quoted);
    if verdicts.len() < n {
        return Err(Refusal::TooShort);
    }
    let mut starts = [0u8; KEYS];
    let mut links = [0u8; 64];
    head::build_index(s, &mut starts, &mut links);
    texts::feed_texts(s, &starts, &links, l, piece, &mut verdicts[..n]);
    Ok(n)
}
