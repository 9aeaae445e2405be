// What numbers stand for that come from C and Rust, any numbers at all.
//
//   Asked                                what is wanted of a release sheet
//   refusal, answer, summing, wanted     the refusal of a number, the answer of a call, how far a summary is, what is wanted of a release sheet
ghost use Rattle.std.specs.Prelude.{◌≡◌};
ghost use Rattle.clib.specs.Answers.{refusal_of, number_of, summing_of, wanted_of};

use crate::given::{Given, Summed};
use answers::{Refusal, Taxon};
use release::Wanted;
use summary::{LinePart, Summing};

// What is wanted of a release sheet: the two trees alone, the recorded splits too, and, if `apart`, the stand-ins of a taxon.
#[repr(C)]
#[derive(Drop)]
pub struct Asked {
    pub taxon: u32,
    pub newick: bool,
    pub splits: bool,
    pub apart: bool,
}

// The refusal of number k; the first, where there is none.
fn refusal(k: u32) -> Refusal
    ensures { result ≡ refusal_of k }
{
    let all = [
        Refusal::NotWhole,
        Refusal::OutOfRange,
        Refusal::BadNames,
        Refusal::TooShort,
        Refusal::NoLane,
        Refusal::TooLong,
        Refusal::BadForm,
        Refusal::UnknownLeaf,
        Refusal::RepeatedLeaf,
        Refusal::MissingTaxon,
        Refusal::NoTreeRoom,
        Refusal::NoSplitRoom,
        Refusal::NoSuchNumber,
        Refusal::NoTrees,
        Refusal::BadBlock,
        Refusal::RepeatedKey,
        Refusal::InexactLength,
        Refusal::NoLength,
        Refusal::BadLength,
        Refusal::BadRecord,
        Refusal::EmptyFile,
        Refusal::SumTooLarge,
        Refusal::Disagreeing,
        Refusal::BadMatrix,
        Refusal::NotSymmetric,
    ];
    if k == 0 {
        return Refusal::NotWhole;
    }
    if 25 < k {
        return Refusal::NotWhole;
    }
    let i = (k - 1) as usize;
    all[i]
}

// An answer that is a number.
pub(crate) fn answer(given: Given) -> Result<usize, Refusal>
    ensures { result ≡ number_of given }
{
    let k = given.refusal;
    if k != 0 {
        return Err(refusal(k));
    }
    Ok(given.value)
}

// How far a summary is.
pub(crate) fn summing(state: Summed) -> Summing
    ensures { result ≡ summing_of state }
{
    let k = state.refusal;
    if k != 0 {
        return Summing::Refused(refusal(k));
    }
    if state.opened {
        return Summing::Texts(state.refused);
    }
    Summing::Line(LinePart {
        used: state.used,
        spaces: state.spaces,
        quoted: state.quoted,
    })
}

// What is wanted of a release sheet.
pub(crate) fn wanted(asked: Asked) -> Wanted
    ensures { result ≡ wanted_of asked }
{
    if asked.apart {
        return Wanted {
            newick: asked.newick,
            splits: asked.splits,
            apart: Some(Taxon(asked.taxon)),
        };
    }
    Wanted {
        newick: asked.newick,
        splits: asked.splits,
        apart: None,
    }
}
