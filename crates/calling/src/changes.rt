// Calls that change the lent memory: `lend`, `poke`, `feed`, `close`, `withdraw`, `batch` and `nexus`.
use crate::replies::Reply;
use answers::{Lane, Refusal, Tree};

// A call that changes the lent memory, except for `lend` and `open`.
#[derive(Clone, Copy)]
pub(crate) enum Change<'a> {
    Poke(usize, &'a [u8]),
    Feed(Lane, &'a [u8]),
    Close(Lane),
    Batch(Lane, &'a [u8]),
    Nexus(&'a [u8]),
    Withdraw(Tree),
}

impl Change<'_> {
    // Makes the call, with at most `room` verdicts.
    pub(crate) fn made<'b>(
        self,
        lent: &mut [u8],
        verdicts: &'b mut [u32],
        room: usize,
    ) -> Result<Reply<'b>, Refusal> {
        match self {
            Change::Poke(at, bytes) => Ok(poke(lent, at, bytes)),
            Change::Feed(lane, piece) => Ok(feed(lent, lane, piece)),
            Change::Close(lane) => close(lent, lane),
            Change::Batch(lane, piece) => batch(lent, lane, piece, verdicts, room),
            Change::Nexus(file) => nexus(lent, file, verdicts, room),
            Change::Withdraw(tree) => withdraw(lent, tree),
        }
    }
}

// `lend N`: makes the first N bytes of the memory 165.
pub(crate) fn lend(memory: &mut [u8], n: usize) -> Reply<'static> {
    if memory.len() < n {
        return Reply::BadLine;
    }
    memory[..n].fill(165);
    Reply::Done
}

// `poke AT HEX`.
fn poke(lent: &mut [u8], at: usize, bytes: &[u8]) -> Reply<'static> {
    if lent.len() < at {
        return Reply::BadLine;
    }
    if lent.len() - at < bytes.len() {
        return Reply::BadLine;
    }
    lent[at..at + bytes.len()].copy_from_slice(bytes);
    Reply::Done
}

// `feed LANE HEX`.
fn feed(lent: &mut [u8], lane: Lane, piece: &[u8]) -> Reply<'static> {
    let fed = feeding::feed(lent, lane, piece);
    match fed.progress {
        Ok(None) => Reply::More(fed.taken),
        Ok(Some(tree)) => Reply::Accepted(fed.taken, tree),
        Err(refusal) => Reply::FedRefused(fed.taken, refusal),
    }
}

// `close LANE`.
fn close(lent: &mut [u8], lane: Lane) -> Result<Reply<'static>, Refusal> {
    feeding::close(lent, lane)?;
    Ok(Reply::Done)
}

// `batch LANE HEX`. Its reply has the bytes taken, which are all.
fn batch<'b>(
    lent: &mut [u8],
    lane: Lane,
    piece: &[u8],
    verdicts: &'b mut [u32],
    room: usize,
) -> Result<Reply<'b>, Refusal> {
    let n = room.min(verdicts.len());
    let k = feeding::batch(lent, lane, piece, &mut verdicts[..n])?;
    Ok(Reply::Batch(&verdicts[..k.min(n)], piece.len()))
}

// `nexus HEX`.
fn nexus<'b>(
    lent: &mut [u8],
    file: &[u8],
    verdicts: &'b mut [u32],
    room: usize,
) -> Result<Reply<'b>, Refusal> {
    let n = room.min(verdicts.len());
    let k = nexus::feed_file(lent, file, &mut verdicts[..n])?;
    Ok(Reply::Nexus(&verdicts[..k.min(n)]))
}

// `withdraw T`.
fn withdraw(lent: &mut [u8], tree: Tree) -> Result<Reply<'static>, Refusal> {
    withdrawing::withdraw(lent, tree)?;
    Ok(Reply::Done)
}
