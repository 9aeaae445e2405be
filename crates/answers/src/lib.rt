// The answers of every call, and the numbers of taxa, trees, lanes and splits that calls are given and give.
//
// Read `specs/Answers.antt` for the answers as document 01 has them.
#![tactic(auto)]

ghost use Rattle.std.specs.Prelude.{◌≡◌};
ghost use Rattle.trees.specs.Batch.{verdict_number};
ghost use Rattle.answers.specs.Answers.{refusal_number, progress_given, Small};

// A taxon's number: its place in the name list, from 0.
#[derive(Clone, Copy)]
pub struct Taxon(pub u32);

// The number of a lane, from 0.
#[derive(Clone, Copy)]
pub struct Lane(pub usize);

// The number of an accepted tree, from 0, in order of acceptance.
#[derive(Clone, Copy)]
pub struct Tree(pub usize);

// The number of a recorded split: its place, from 0, in the list by rising mask.
#[derive(Clone, Copy)]
pub struct Split(pub usize);

// Why a call refuses: the table of document 01, in its order, and the refusals of document 02 behind it.
#[derive(Clone, Copy)]
pub enum Refusal {
    NotWhole,
    OutOfRange,
    BadNames,
    TooShort,
    NoLane,
    TooLong,
    BadForm,
    UnknownLeaf,
    RepeatedLeaf,
    MissingTaxon,
    NoTreeRoom,
    NoSplitRoom,
    NoSuchNumber,
    NoTrees,
    BadBlock,
    RepeatedKey,
    InexactLength,
    NoLength,
    BadLength,
    BadRecord,
    EmptyFile,
    SumTooLarge,
    Disagreeing,
    BadMatrix,
    NotSymmetric,
}

// The answer to a claim that a text is the majority tree: it has the same splits, or the smallest mask that the text's
// splits or the majority's have alone.
#[derive(Clone, Copy)]
pub enum Claim {
    Same,
    Text(u64),
    Majority(u64),
}

// The shortest, longest and summed length of a split, over some trees having it.
#[derive(Clone, Copy)]
pub struct Lengths {
    pub shortest: f64,
    pub longest: f64,
    pub sum: f64,
}

// The answer of feeding: the bytes taken, and the tree that was accepted, or none where more is wanted.
#[derive(Clone, Copy)]
pub struct Fed {
    pub taken: usize,
    pub progress: Result<Option<Tree>, Refusal>,
}

// The number of a refusal in documents 01 and 02.
pub fn refusal_number(r: Refusal) -> u32
    ensures { result ≡ refusal_number r }
{
    match r {
        Refusal::NotWhole => 1,
        Refusal::OutOfRange => 2,
        Refusal::BadNames => 3,
        Refusal::TooShort => 4,
        Refusal::NoLane => 5,
        Refusal::TooLong => 6,
        Refusal::BadForm => 7,
        Refusal::UnknownLeaf => 8,
        Refusal::RepeatedLeaf => 9,
        Refusal::MissingTaxon => 10,
        Refusal::NoTreeRoom => 11,
        Refusal::NoSplitRoom => 12,
        Refusal::NoSuchNumber => 13,
        Refusal::NoTrees => 14,
        Refusal::BadBlock => 15,
        Refusal::RepeatedKey => 16,
        Refusal::InexactLength => 17,
        Refusal::NoLength => 18,
        Refusal::BadLength => 19,
        Refusal::BadRecord => 20,
        Refusal::EmptyFile => 21,
        Refusal::SumTooLarge => 22,
        Refusal::Disagreeing => 23,
        Refusal::BadMatrix => 24,
        Refusal::NotSymmetric => 25,
    }
}

// A verdict as a number: a refusal's, or 256 more than the tree's.
#[tactic(auto, unfolding(crate::specs::Answers::progress_given, crate::specs::Answers::Small, trees::specs::Batch::verdict_number))]
pub fn verdict_number(p: Result<Option<Tree>, Refusal>) -> u32
    requires { Small (progress_given p) }
    ensures { result ≡ verdict_number (progress_given p) }
{
    match p {
        Err(r) => refusal_number(r),
        Ok(None) => 0,
        Ok(Some(t)) => 256 + t.0 as u32,
    }
}
