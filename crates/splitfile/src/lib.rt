// Split files, in lent slices: written from a collection, read, merged, and summed up as trees.
//
// Read `specs/Files.antt` for what the calls promise; what they mean is said in crate trees, `specs/SplitFile.antt` and
// `specs/SplitFileCall.antt`.
#![tactic(auto)]

mod choosing;
mod entries;
mod form;
mod merging;
mod reading;
mod writing;

pub use choosing::{majority_tree, strict_tree};
pub use merging::merge;
pub use reading::read_splits;
pub use writing::write_splits;
