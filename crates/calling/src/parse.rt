// The calls that lines are.
use crate::calls::Call;
use crate::changes::Change;
use crate::line::Words;
use crate::lists::List;
use crate::opens::{Opening, Sizes};
use crate::questions::Question;
use crate::texts::{Bytes, Text};

// The call that a line is, if it is one. Its bytes are put where they stand in hex.
pub(crate) fn parsed<'a>(line: &'a mut [u8]) -> Option<Call<'a>> {
    let mut words = Words::new(line);
    let name = words.word()?;
    let call = call_of(name, &mut words)?;
    if words.is_over() { Some(call) } else { None }
}

// The call of this name, with the words that it takes.
fn call_of<'a>(name: &[u8], words: &mut Words<'a>) -> Option<Call<'a>> {
    Some(match name {
        b"trees" => Call::Question(Question::Trees),
        b"count" => Call::Question(Question::Count),
        b"collisions" => Call::Question(Question::Collisions),
        b"splits" => Call::List(List::Splits),
        b"matrix" => Call::List(List::Matrix),
        b"strict" => Call::Text(Text::Strict),
        b"majority" => Call::Text(Text::Majority),
        b"both" => Call::Text(Text::Both),
        b"file" => Call::Bytes(Bytes::File),
        b"phylip" => Call::Bytes(Bytes::Phylip),
        b"size" => Call::Question(Question::Size(sizes(words)?, words.is_kept()?)),
        b"open" => Call::Open(opening(words)?),
        _ => return numbered(name, words),
    })
}

// The calls that take numbers alone.
fn numbered<'a>(name: &[u8], words: &mut Words<'a>) -> Option<Call<'a>> {
    Some(match name {
        b"close" => Call::Change(Change::Close(words.lane()?)),
        b"withdraw" => Call::Change(Change::Withdraw(words.tree()?)),
        b"split" => Call::Question(Question::Split(words.split()?)),
        b"lengths" => Call::Question(Question::Lengths(words.split()?)),
        b"tree" => Call::List(List::Tree(words.tree()?)),
        b"write" => Call::Text(Text::Write(words.tree()?)),
        b"lend" => Call::Lend(words.number()?),
        b"room" => Call::Room(words.room()?),
        b"one" => Call::Question(Question::One(words.tree()?, words.tree()?)),
        b"two" => Call::Question(Question::Two(words.tree()?, words.tree()?)),
        b"weighted" => Call::Question(Question::Weighted(words.tree()?, words.tree()?)),
        b"agree" => Call::Question(Question::Agree(words.mask()?, words.mask()?)),
        b"peek" => Call::Bytes(Bytes::Peek(words.number()?, words.number()?)),
        _ => return with_bytes(name, words),
    })
}

// The calls that take bytes, some of them a number before.
fn with_bytes<'a>(name: &[u8], words: &mut Words<'a>) -> Option<Call<'a>> {
    Some(match name {
        b"poke" => Call::Change(Change::Poke(words.number()?, words.bytes()?)),
        b"feed" => Call::Change(Change::Feed(words.lane()?, words.bytes()?)),
        b"batch" => Call::Change(Change::Batch(words.lane()?, words.bytes()?)),
        b"nexus" => Call::Change(Change::Nexus(words.bytes()?)),
        b"claim" => Call::Question(Question::Claim(words.bytes()?)),
        b"records" => Call::List(List::Records(words.bytes()?)),
        b"read-phylip" => Call::List(List::ReadPhylip(words.bytes()?)),
        b"file-strict" => Call::Text(Text::FileStrict(words.bytes()?)),
        b"file-majority" => Call::Text(Text::FileMajority(words.bytes()?)),
        b"merge" => Call::Bytes(Bytes::Merge(words.bytes()?, words.bytes()?)),
        _ => return None,
    })
}

// The five numbers of an opening.
fn sizes(words: &mut Words) -> Option<Sizes> {
    Some(Sizes {
        taxa: words.size()?,
        lanes: words.size()?,
        trees: words.size()?,
        splits: words.size()?,
        places: words.size()?,
    })
}

// What an opening takes.
fn opening<'a>(words: &mut Words<'a>) -> Option<Opening<'a>> {
    Some(Opening {
        sizes: sizes(words)?,
        names: words.bytes()?,
        first: words.word()?,
        second: words.word()?,
        kept: words.is_kept()?,
    })
}
