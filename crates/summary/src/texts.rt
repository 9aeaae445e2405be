// The texts behind the first line, fed to lane 0, and its closing; the refused ones are counted.
//
// `specs/Texts.antt` says what is answered and left.
ghost use Rattle.std.specs.Prelude.{◌≡◌, ◌+◌, ◌≤◌, length};
ghost use Rattle.trees.specs.Batch.{refused_in, refused_after};
ghost use Rattle.answers.specs.Answers.{finish_given};
ghost use Rattle.summary.specs.Texts.{part, capped, TextsAs, ClosedAs};

use answers::{Lane, Refusal};

// How many bytes are fed at once.
const PART: usize = 4096;

// Feeds a piece of the input, behind `refused` refused texts, and answers how many there are then. The piece is
// fed by parts: none ends more texts than there is room for verdicts.
pub(crate) fn take_texts(s: &mut [u8], refused: usize, piece: &[u8]) -> Result<usize, Refusal>
    ensures { TextsAs s.old refused piece.now result s.new }
{
    let mut all = refused;
    let mut at = 0;
    while PART < piece.len() - at {
        all = take_part(s, all, &piece[at..at + PART])?;
        at += PART;
    }
    take_part(s, all, &piece[at..])
}

// The same for at most one part, in one batch.
fn take_part(s: &mut [u8], refused: usize, piece: &[u8]) -> Result<usize, Refusal>
    requires { length piece.now ≤ part }
    ensures { TextsAs s.old refused piece.now result s.new }
{
    let mut verdicts = [0u32; PART];
    let n = feeding::batch(s, Lane(0), piece, &mut verdicts)?;
    let more = count_refused(&verdicts[..n]);
    let all = add_capped(refused, more);
    Ok(all)
}

// How many verdicts are refusals.
fn count_refused(verdicts: &[u32]) -> usize
    ensures { result ≡ refused_in verdicts.now }
{
    let mut count = 0;
    for verdict in verdicts {
        if *verdict < 256 {
            count += 1;
        }
    }
    count
}

// The sum, as far as 64 bits can count.
fn add_capped(a: usize, b: usize) -> usize
    ensures { result ≡ capped (a + b) }
{
    if usize::MAX - a < b {
        return usize::MAX;
    }
    a + b
}

// Closes lane 0, behind `refused` refused texts, and answers how many there are with it.
pub(crate) fn close_texts(s: &mut [u8], refused: usize) -> Result<usize, Refusal>
    ensures { ClosedAs s.old refused result s.new }
{
    if !store::is_whole(s) {
        return Err(Refusal::NotWhole);
    }
    let answer = feeding::close(s, Lane(0));
    let all = add_capped(refused, one_if_refused(answer));
    Ok(all)
}

// 1 for a refusal.
fn one_if_refused(answer: Result<(), Refusal>) -> usize
    ensures { result ≡ refused_after 0 (finish_given answer) }
{
    match answer {
        Err(_) => 1,
        Ok(()) => 0,
    }
}
