// Calls that write a list of numbers into a buffer: `splits`, `records`, `tree`, `matrix` and `read-phylip`.
use crate::calls::Buffers;
use crate::replies::Reply;
use answers::{Refusal, Tree};

// A call that writes a list of numbers.
#[derive(Clone, Copy)]
pub(crate) enum List<'a> {
    Splits,
    Records(&'a [u8]),
    Tree(Tree),
    Matrix,
    ReadPhylip(&'a [u8]),
}

impl List<'_> {
    // Makes the call.
    pub(crate) fn made<'b>(self, lent: &[u8], buffers: Buffers<'b>) -> Result<Reply<'b>, Refusal> {
        let room = buffers.room;
        match self {
            List::Splits => splits(lent, buffers.masks, buffers.counts, room),
            List::Records(file) => records(lent, file, buffers.masks, buffers.counts, room),
            List::Tree(t) => tree(lent, t, buffers.masks, room),
            List::Matrix => matrix(lent, buffers.distances, room),
            List::ReadPhylip(file) => read_phylip(file, buffers.distances, room),
        }
    }
}

// `splits`.
fn splits<'b>(
    lent: &[u8],
    masks: &'b mut [u64],
    counts: &'b mut [u32],
    room: usize,
) -> Result<Reply<'b>, Refusal> {
    let a = room.min(masks.len());
    let b = room.min(counts.len());
    let n = table::split_list(lent, &mut masks[..a], &mut counts[..b])?;
    Ok(Reply::Splits(&masks[..n.min(a)], &counts[..n.min(b)]))
}

// `records HEX`. Its reply has the trees too.
fn records<'b>(
    lent: &[u8],
    file: &[u8],
    masks: &'b mut [u64],
    counts: &'b mut [u32],
    room: usize,
) -> Result<Reply<'b>, Refusal> {
    let a = room.min(masks.len());
    let b = room.min(counts.len());
    let (trees, n) = splitfile::read_splits(lent, file, &mut masks[..a], &mut counts[..b])?;
    Ok(Reply::Records(trees, &masks[..n.min(a)], &counts[..n.min(b)]))
}

// `tree T`.
fn tree<'b>(lent: &[u8], t: Tree, masks: &'b mut [u64], room: usize) -> Result<Reply<'b>, Refusal> {
    let n = room.min(masks.len());
    let k = table::tree_splits(lent, t, &mut masks[..n])?;
    Ok(Reply::Tree(&masks[..k.min(n)]))
}

// `matrix`.
fn matrix<'b>(lent: &[u8], distances: &'b mut [u16], room: usize) -> Result<Reply<'b>, Refusal> {
    let n = room.min(distances.len());
    let k = comparing::matrix(lent, &mut distances[..n])?;
    Ok(Reply::Matrix(&distances[..k.min(n)]))
}

// `read-phylip HEX`, which no collection is needed for.
fn read_phylip<'b>(
    file: &[u8],
    distances: &'b mut [u16],
    room: usize,
) -> Result<Reply<'b>, Refusal> {
    let n = room.min(distances.len());
    let trees = phylip::read_matrix(file, &mut distances[..n])?;
    Ok(Reply::Matrix(&distances[..entries(trees).min(n)]))
}

// How many entries the matrix of so many trees has. No matrix has more than 1,024.
fn entries(trees: usize) -> usize {
    let n = trees.min(1024);
    n * n
}
