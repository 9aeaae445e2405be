// The files of trees, fed to the collection one after another: Newick texts by pieces, a NEXUS file whole.
use crate::texts::{NOTHING, Origin, Tally};
use crate::{arguments, texts};
use answers::Lane;
use filing::Held;
use std::rt::{Env, Files};

// How many bytes are fed at once: few, as long as texts are dropped, so that each makes room before many more come.
const PIECE: usize = 65536;

const LONG_PIECE: usize = 1048576;

// How many lanes the collection has. Files take turns in them.
pub(crate) const LANES: u32 = 8;

// Takes every file that is named behind argument `names`, and drops the first texts of each. None, where one could not be read, as was told.
pub(crate) fn take_all<R: Env + Files + Input>(
    rt: &R,
    names: usize,
    dropped: usize,
    file: &mut [u8],
    lent: &mut [u8],
    verdicts: &mut [u32],
) -> Option<Tally> {
    let first = names.wrapping_add(1);
    let files = arguments::count(rt).wrapping_sub(first);
    let mut all = NOTHING;
    for k in 0..files {
        let mut name = io::buffer();
        let n = filing::name_at(rt, b"treesheet", first.wrapping_add(k), &mut name)?;
        let from = Origin {
            name: &name[..n],
            lane: Lane(k % LANES as usize),
            dropped,
        };
        all.texts = 0;
        all = take_named(rt, from, file, lent, verdicts, all)?;
    }
    Some(all)
}

// Takes the file with this name. What it begins with says which kind it is.
fn take_named<R: Files + Input>(
    rt: &R,
    from: Origin,
    file: &mut [u8],
    lent: &mut [u8],
    verdicts: &mut [u32],
    before: Tally,
) -> Option<Tally> {
    let k = filing::within(piece_behind(0, from.dropped), file);
    let held = filing::begin_file(rt, from.name, true, &mut file[..k])?;
    let n = filing::within(held.bytes, file);
    if filing::begins(&file[..n], b"#NEXUS") {
        return take_nexus(rt, from, held, file, lent, verdicts, before);
    }
    take_pieces(rt, from, held, file, lent, verdicts, before)
}

// Takes a NEXUS file, of which the first piece is held.
fn take_nexus<R: Files + Input>(
    rt: &R,
    from: Origin,
    first: Held<R::File>,
    file: &mut [u8],
    lent: &mut [u8],
    verdicts: &mut [u32],
    before: Tally,
) -> Option<Tally> {
    let n = filing::read_rest(rt, from.name, file, first)?;
    let answer = nexus::feed_file(lent, &file[..n], verdicts);
    Some(texts::take(from, answer, lent, verdicts, before))
}

// Takes Newick texts, of which the first piece is held. The turns are so many that no run uses them up.
fn take_pieces<R: Files + Input>(
    rt: &R,
    from: Origin,
    first: Held<R::File>,
    file: &mut [u8],
    lent: &mut [u8],
    verdicts: &mut [u32],
    before: Tally,
) -> Option<Tally> {
    let mut held = first;
    let mut tally = before;
    for _ in 0..u64::MAX {
        let n = filing::within(held.bytes, file);
        let answer = feeding::batch(lent, from.lane, &file[..n], verdicts);
        tally = texts::take(from, answer, lent, verdicts, tally);
        if held.source.is_none() {
            return Some(texts::take_end(from, lent, tally));
        }
        let k = filing::within(piece_behind(tally.texts, from.dropped), file);
        held = filing::next_piece(rt, from.name, &mut file[..k], held)?;
    }
    Some(tally)
}

// How many bytes are fed next, behind so many texts of a file.
fn piece_behind(texts: usize, dropped: usize) -> usize {
    if texts < dropped { PIECE } else { LONG_PIECE }
}
