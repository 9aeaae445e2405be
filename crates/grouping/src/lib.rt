// The groups of a collection's majority tree: their masks, and the lines that name them and the stand-ins of a taxon.
//
//   majority_groups     their masks, and how many trees have each
//   put_groups          a line for each
//   put_stand_ins       a line for each stand-in of a taxon
#![tactic(auto)]

mod groups;
mod labels;
mod majority;
mod nearest;
mod stand_ins;

pub use groups::put_groups;
pub use majority::majority_groups;
pub use stand_ins::put_stand_ins;
