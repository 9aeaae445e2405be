// `size` and `open`.
use crate::line;
use crate::replies::Reply;
use answers::Refusal;

// The five numbers of an opening.
#[derive(Clone, Copy)]
pub(crate) struct Sizes {
    pub taxa: u32,
    pub lanes: u32,
    pub trees: u32,
    pub splits: u32,
    pub places: u32,
}

// `open N LANES TREES SPLITS PLACES NAMES LIST LIST`, with a last word `lengths` or not.
#[derive(Clone, Copy)]
pub(crate) struct Opening<'a> {
    pub sizes: Sizes,
    pub names: &'a [u8],
    pub first: &'a [u8],
    pub second: &'a [u8],
    pub kept: bool,
}

impl Sizes {
    // `size N LANES TREES SPLITS PLACES`, with a last word `lengths` or not.
    pub(crate) fn bytes(self, kept: bool) -> Result<usize, Refusal> {
        table::size(
            self.taxa,
            self.lanes,
            self.trees,
            self.splits,
            self.places,
            kept,
        )
    }
}

impl Opening<'_> {
    // Opens, if the lists are lists. A list is kept up to its 65th number: then it is too long for any number of taxa, and is refused for
    // that.
    pub(crate) fn made(self, lent: &mut [u8]) -> Result<Reply<'static>, Refusal> {
        let mut first = [0; 65];
        let mut second = [0; 65];
        let Some(first) = line::list(self.first, &mut first) else {
            return Ok(Reply::BadLine);
        };
        let Some(second) = line::list(self.second, &mut second) else {
            return Ok(Reply::BadLine);
        };
        let n = self.sizes;
        table::open(
            lent, n.taxa, n.lanes, n.trees, n.splits, n.places, self.kept, self.names, first,
            second,
        )?;
        Ok(Reply::Done)
    }
}
