// What is told on standard error: refusals, with their number and in words.
ghost use Rattle.std.specs.Prelude.{◌≡◌};
ghost use Rattle.io.specs.Counts.{IsPrefixLen};
ghost use Rattle.answers.specs.Answers.{finish_given};
ghost use Rattle.trees.specs.Batch.{refused_in, refused_after};

use crate::waiting::{STDERR_FILENO, Waiting};
use crate::{arguments, waiting};
use answers::Refusal;
use std::rt::Env;

// The least verdict that is no refusal: an accepted tree's number is given with 256 added.
const TAKEN: u32 = 256;

// Tells that what argument i names is refused with number k, whatever it is. Nothing waits behind it.
pub fn tell_refused_argument(rt: &impl Env, i: usize, k: u32) -> Waiting
    ensures { result.bytes ≡ 0 }
{
    let mut path = io::buffer();
    let n = arguments::bytes_of(rt, i, &mut path);
    tell(&path[..n], k)
}

// Tells that what has this name is refused with number k, whatever it is. Nothing waits behind it.
pub fn tell_refused(name: &[u8], k: u32) -> Waiting
    ensures { result.bytes ≡ 0 }
{
    tell(name, k)
}

// The same for the functions of this crate.
pub(crate) fn tell(name: &[u8], k: u32) -> Waiting
    ensures { result.bytes ≡ 0 }
{
    let mut out = waiting::empty(STDERR_FILENO);
    waiting::add(&mut out, name);
    put_refusal(&mut out, k);
    waiting::write_waiting(&mut out);
    out.bytes = 0;
    out
}

// Puts the lines of the verdicts that are refusals, of texts behind `first` others of their file, and answers how many they are. Texts are
// counted from 1.
#[tactic(auto, using(crate::specs::VerdictLaws::verdict_laws))]
pub fn put_verdicts(out: &mut Waiting, name: &[u8], first: usize, verdicts: &[u32]) -> usize
    ensures { result ≡ refused_in verdicts.now }
{
    let mut refused = 0;
    for i in 0..verdicts.len() {
        if verdicts[i] < TAKEN {
            put_refused_tree(out, name, first.wrapping_add(i), verdicts[i]);
            refused += 1;
        }
    }
    refused
}

// Puts the line of a text that was unfinished at the end of its file, behind `texts` others, where closing refused it, and answers how many
// that are.
#[tactic(auto, unfolding(trees::specs::Batch::refused_after, answers::specs::Answers::finish_given))]
pub fn put_closing(
    out: &mut Waiting,
    name: &[u8],
    texts: usize,
    answer: Result<(), Refusal>,
) -> usize
    ensures { result ≡ refused_after 0 (finish_given answer) }
{
    if let Err(r) = answer {
        put_refused_tree(out, name, texts, answers::refusal_number(r));
    }
    usize::from(answer.is_err())
}

// Puts the line of the text behind so many others, which is refused with the number k.
fn put_refused_tree(out: &mut Waiting, name: &[u8], texts: usize, k: u32) {
    waiting::add(out, name);
    waiting::add(out, b", tree ");
    waiting::add_number(out, texts.wrapping_add(1) as u64);
    put_refusal(out, k);
}

// Puts the end of a line on what is refused with the number k: that and in words.
fn put_refusal(out: &mut Waiting, k: u32) {
    waiting::add(out, b": refused ");
    waiting::add_number(out, u64::from(k));
    let mut text = [0u8; 64];
    let n = reason_in(k, &mut text);
    waiting::add(out, b", ");
    waiting::add(out, &text[..n]);
    waiting::add(out, b"\n");
}

// Writes refusal number k in words to the front of the text, and answers how many bytes that are.
fn reason_in(k: u32, text: &mut [u8]) -> usize
    ensures { IsPrefixLen result text.new }
{
    let n = reasons::reason(k, text).unwrap_or(0);
    n.min(text.len())
}
