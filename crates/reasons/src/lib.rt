// The refusals in words, for programs that tell people why: one sentence for each number of documents 01 and 02.
//
// Read `specs/Reasons.antt` for the table, and for what the call promises.
#![tactic(auto)]

ghost use Rattle.std.specs.Prelude.{length};
ghost use Rattle.trees.specs.Questions.{if_room};
ghost use Rattle.answers.specs.Filled.{FilledAs};
ghost use Rattle.reasons.specs.Reasons.{reason_asked};

use answers::Refusal;

// A sentence for each refusal, from number 1 on. No sentence has more than 64 bytes.
const SENTENCES: [&[u8]; 25] = [
    b"the lent memory is not a whole collection",
    b"a number is out of range",
    b"the name list is not different names of 1 to 32 bytes",
    b"a lent buffer is too short",
    b"no such lane",
    b"the text is too long",
    b"the text is malformed",
    b"a leaf names no taxon",
    b"a leaf names a taxon again",
    b"a taxon is missing",
    b"no room for another tree",
    b"no room for its splits",
    b"no such tree or split number",
    b"there are no trees",
    b"the NEXUS file is malformed",
    b"a key is listed twice",
    b"a length is outside the exact range",
    b"a length is absent or none are kept",
    b"the file's length is no multiple of 16",
    b"a record is improper or out of order",
    b"an empty file cannot be merged",
    b"a sum passes 32 bits",
    b"two chosen splits disagree",
    b"the matrix is malformed",
    b"the matrix is not symmetric, or its diagonal not zero",
];

// Writes the sentence of refusal number k to the front of out, and answers its length.
pub fn reason(k: u32, out: &mut [u8]) -> Result<usize, Refusal>
    ensures { FilledAs (reason_asked k (length out.old)) result out.old out.new }
{
    if k == 0 || 25 < k {
        return Err(Refusal::NoSuchNumber);
    }
    put(out, SENTENCES[k as usize - 1])
}

// Puts a sentence at the front of out, where it fits.
fn put(out: &mut [u8], sentence: &[u8]) -> Result<usize, Refusal>
    ensures { FilledAs (if_room (length out.old) sentence.now) result out.old out.new }
{
    let n = sentence.len();
    if out.len() < n {
        return Err(Refusal::TooShort);
    }
    out[..n].copy_from_slice(sentence);
    Ok(n)
}
