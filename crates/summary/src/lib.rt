// The summary of an input that comes in pieces: begin, take piece after piece, finish, and ask for the lines. Each call
// does its own checking and asks nothing of what it is given.
//
// The state goes from call to call by value; the buffer for names and the lent bytes are the caller's, the same for
// every call. Read `specs/Summary.antt` for what is printed, and `specs/Summing.antt` for what the calls promise:
// where they are made in this order, the lines are those of `summary` of the whole input, however it is cut.
#![tactic(auto)]

ghost use Rattle.std.specs.Prelude.{length};
ghost use Rattle.summary.specs.FirstLine.{kept_of};
ghost use Rattle.summary.specs.Summing.{BegunAs, FeedsAs, OpensAs, NamesAs, TookAs, ClosesAs, FinishedAs, refusal_lines, PrintedAs};
ghost use Rattle.sheet.specs.Asked.{lines_from, PrintsAs};

use answers::Refusal;

mod first_line;
mod texts;

// What is kept of a first line that is being taken: how many bytes, how many spaces it has had outside quotes, at most
// 64, and whether quotes are open behind what was taken of it.
#[derive(Clone, Copy)]
pub struct LinePart {
    pub used: usize,
    pub spaces: usize,
    pub quoted: bool,
}

// The answer of taking a piece of the first line: how many of its bytes, whether the line has ended, and what is kept.
#[derive(Clone, Copy)]
pub struct Taken {
    pub taken: usize,
    pub ended: bool,
    pub line: LinePart,
}

// How far an input is taken: in its first line; behind it, with so many refused texts; or behind a refusal, the first
// line's (2 or 3), or that of a call whose memory is too short (4) or not whole (1).
#[derive(Clone, Copy)]
pub enum Summing {
    Line(LinePart),
    Texts(usize),
    Refused(Refusal),
}

// Begins with a buffer of 4,288 bytes or more for names, and 22,024 lent bytes or more.
pub fn begin(names: &[u8], lent: &[u8]) -> Summing
    ensures { BegunAs names.now lent.now result }
{
    if names.len() < 4288 {
        return Summing::Refused(Refusal::TooShort);
    }
    if lent.len() < 22024 {
        return Summing::Refused(Refusal::TooShort);
    }
    Summing::Line(LinePart {
        used: 0,
        spaces: 0,
        quoted: false,
    })
}

// Takes a piece of the input.
pub fn take(state: Summing, names: &mut [u8], lent: &mut [u8], piece: &[u8]) -> Summing
    ensures { TookAs state names.old lent.old piece.now result names.new lent.new }
{
    match state {
        Summing::Line(line) => take_names(line, names, lent, piece),
        Summing::Texts(refused) => feed(lent, refused, piece),
        Summing::Refused(why) => Summing::Refused(why),
    }
}

// Takes a piece while the first line has not ended.
fn take_names(line: LinePart, names: &mut [u8], lent: &mut [u8], piece: &[u8]) -> Summing
    ensures { NamesAs line names.old lent.old piece.now result names.new lent.new }
{
    let taken = first_line::take_line(line, names, piece);
    let part = taken.line;
    if !taken.ended {
        return Summing::Line(part);
    }
    let at = taken.taken;
    open_texts(part, names, lent, &piece[at..])
}

// Opens the collection that the first line asks for, and feeds what stands behind it.
fn open_texts(line: LinePart, names: &[u8], lent: &mut [u8], rest: &[u8]) -> Summing
    ensures { OpensAs (kept_of line names.now) lent.old rest.now result lent.new }
{
    let answer = first_line::open_line(lent, line, names);
    match answer {
        Err(why) => Summing::Refused(why),
        Ok(()) => feed(lent, 0, rest),
    }
}

// Feeds a piece that stands behind the first line.
fn feed(lent: &mut [u8], refused: usize, piece: &[u8]) -> Summing
    ensures { FeedsAs lent.old refused piece.now result lent.new }
{
    let answer = texts::take_texts(lent, refused, piece);
    match answer {
        Ok(n) => Summing::Texts(n),
        Err(why) => Summing::Refused(why),
    }
}

// Finishes: closes the lane, and answers how many texts were refused, or with what the first line or a call was.
pub fn finish(state: Summing, names: &[u8], lent: &mut [u8]) -> Result<usize, Refusal>
    ensures { FinishedAs state names.now lent.old result lent.new }
{
    match state {
        Summing::Line(line) => finish_names(line, names, lent),
        Summing::Texts(refused) => texts::close_texts(lent, refused),
        Summing::Refused(why) => Err(why),
    }
}

// Finishes an input that is all first line.
fn finish_names(line: LinePart, names: &[u8], lent: &mut [u8]) -> Result<usize, Refusal>
    ensures { ClosesAs (kept_of line names.now) lent.old result lent.new }
{
    first_line::open_line(lent, line, names)?;
    texts::close_texts(lent, 0)
}

// Writes the lines from number `from` on, as many whole ones as fit, to the front of out, where `answer` is that of
// finishing.
pub fn lines(
    answer: Result<usize, Refusal>,
    lent: &[u8],
    from: usize,
    out: &mut [u8],
) -> Result<(usize, usize), Refusal>
    ensures { PrintedAs answer lent.now from result out.old out.new }
{
    match answer {
        Ok(refused) => sheet::lines(lent, refused, from, out),
        Err(why) => line_of_refusal(why, from, out),
    }
}

// Writes the one line that there is behind a refusal.
fn line_of_refusal(why: Refusal, from: usize, out: &mut [u8]) -> Result<(usize, usize), Refusal>
    ensures { PrintsAs (lines_from (refusal_lines why) from (length out.old)) result out.old out.new }
{
    if from != 0 {
        return Err(Refusal::NoSuchNumber);
    }
    let n = sheet::refusal_line(answers::refusal_number(why), out)?;
    Ok((n, 1))
}
