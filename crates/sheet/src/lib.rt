// The lines of the summary sheet of a collection in lent bytes, and the line for a first line that is refused. Each
// call does its own checking and asks nothing of what it is given.
//
// Read `specs/Sheet.antt` for the lines, and `specs/Asked.antt` for what the calls promise. Lines of it that other
// sheets have too are put by `put_counts`, `put_split`, `put_majority` and `put_strict`.
#![tactic(auto)]

ghost use Rattle.std.specs.Prelude.{length};
ghost use Rattle.trees.specs.Questions.{if_room};
ghost use Rattle.answers.specs.Filled.{FilledAs};
ghost use Rattle.sheet.specs.Asked.{lines_asked, PrintsAs, refusal_asked};

use answers::Refusal;

mod line;
mod run;

pub use line::{put_counts, put_majority, put_split, put_strict};

// Writes the lines of the sheet from number `from` on, as many whole ones as fit, to the front of out. `refused`
// texts were refused.
pub fn lines(
    s: &[u8],
    refused: usize,
    from: usize,
    out: &mut [u8],
) -> Result<(usize, usize), Refusal>
    ensures { PrintsAs (lines_asked s.now refused from (length out.old)) result out.old out.new }
{
    if !store::is_whole(s) {
        return Err(Refusal::NotWhole);
    }
    let all = layout::splits_held(s) + layout::trees_held(s) + 3;
    if all <= from {
        return Err(Refusal::NoSuchNumber);
    }
    let end = run::put_lines(s, refused, from, all, out);
    if end.lines == 0 {
        return Err(Refusal::TooShort);
    }
    Ok((end.bytes, end.lines))
}

// Writes the line for a first line that is refused with the number k to the front of out.
pub fn refusal_line(k: u32, out: &mut [u8]) -> Result<usize, Refusal>
    ensures { FilledAs (refusal_asked k (length out.old)) result out.old out.new }
{
    let mut text = [0u8; 64];
    let e = putting::put_counted(&mut text, 0, b"names refused ", u64::from(k));
    let n = putting::put_end(&mut text, e);
    give(&text[..n], out)
}

// Copies a text to the front of out, where it fits.
fn give(text: &[u8], out: &mut [u8]) -> Result<usize, Refusal>
    ensures { FilledAs (if_room (length out.old) text.now) result out.old out.new }
{
    let n = text.len();
    if out.len() < n {
        return Err(Refusal::TooShort);
    }
    out[..n].copy_from_slice(text);
    Ok(n)
}
