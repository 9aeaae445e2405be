// Calls whose answer is text or bytes: `strict`, `majority`, `both`, `write`, `file-strict`, `file-majority`, `file`, `phylip`, `merge`
// and `peek`.
use crate::replies::Reply;
use answers::{Refusal, Tree};

// The place for a text. The longest has 4,349 bytes.
const TEXT: usize = 4352;

// The places for two, as `both` gives two.
pub(crate) const TWO_TEXTS: usize = 8704;

// A call that writes a tree or two.
#[derive(Clone, Copy)]
pub(crate) enum Text<'a> {
    Strict,
    Majority,
    Both,
    Write(Tree),
    FileStrict(&'a [u8]),
    FileMajority(&'a [u8]),
}

impl Text<'_> {
    // Makes the call, in a buffer of which `room` bytes are lent for each text.
    pub(crate) fn made<'b>(
        self,
        lent: &[u8],
        buffer: &'b mut [u8],
        room: usize,
    ) -> Result<Reply<'b>, Refusal> {
        let first = TEXT.min(buffer.len());
        let (text, behind) = buffer.split_at_mut(first);
        if let Text::Both = self {
            return both(lent, text, behind, room);
        }
        let n = self.written(lent, text, room)?;
        Ok(Reply::Text(&text[..n.min(text.len())]))
    }

    // Writes a tree into this buffer, of which `room` bytes are lent.
    fn written(self, lent: &[u8], text: &mut [u8], room: usize) -> Result<usize, Refusal> {
        let n = room.min(text.len());
        match self {
            Text::Strict | Text::Both => consensus::strict(lent, &mut text[..n]),
            Text::Majority => consensus::majority(lent, &mut text[..n]),
            Text::Write(tree) => consensus::write_accepted(lent, tree, &mut text[..n]),
            Text::FileStrict(bytes) => splitfile::strict_tree(lent, bytes, &mut text[..n]),
            Text::FileMajority(bytes) => splitfile::majority_tree(lent, bytes, &mut text[..n]),
        }
    }
}

// Writes both consensus trees into these buffers, of which `room` bytes each are lent.
fn both<'b>(
    lent: &[u8],
    strict: &'b mut [u8],
    majority: &'b mut [u8],
    room: usize,
) -> Result<Reply<'b>, Refusal> {
    let n = room.min(strict.len());
    let m = room.min(TEXT).min(majority.len());
    let (a, b) = consensus::both(lent, &mut strict[..n], &mut majority[..m])?;
    Ok(Reply::Both(&strict[..a.min(n)], &majority[..b.min(m)]))
}

// A call that gives bytes.
#[derive(Clone, Copy)]
pub(crate) enum Bytes<'a> {
    File,
    Phylip,
    Merge(&'a [u8], &'a [u8]),
    Peek(usize, usize),
}

impl Bytes<'_> {
    // Makes the call, in a buffer of which `room` bytes are lent.
    pub(crate) fn made<'b>(
        self,
        lent: &'b [u8],
        file: &'b mut [u8],
        room: usize,
    ) -> Result<Reply<'b>, Refusal> {
        let n = room.min(file.len());
        let k = match self {
            Bytes::File => splitfile::write_splits(lent, &mut file[..n])?,
            Bytes::Phylip => phylip::write_matrix(lent, &mut file[..n])?,
            Bytes::Merge(first, second) => merged(lent, first, second, &mut file[..n])?,
            Bytes::Peek(at, n) => return Ok(peek(lent, at, n)),
        };
        Ok(Reply::Bytes(&file[..k.min(n)]))
    }
}

// `merge HEX HEX`.
fn merged(lent: &[u8], first: &[u8], second: &[u8], file: &mut [u8]) -> Result<usize, Refusal> {
    splitfile::merge(lent, first, second, file)
}

// `peek AT N`.
fn peek(lent: &[u8], at: usize, n: usize) -> Reply<'_> {
    if lent.len() < at {
        return Reply::BadLine;
    }
    if lent.len() - at < n {
        return Reply::BadLine;
    }
    Reply::Bytes(&lent[at..at + n])
}
