// Calls on a collection in lent bytes: its size, opening it, and the questions on its splits and trees.
// Each call does its own checking and asks nothing of what it is given.
//
// What the calls mean is said in crate trees, `specs/Opening.antt` and `specs/Questions.antt`, what they
// answer in crate answers, and what lent bytes hold in crate layout, `specs/Store.antt`.
#![tactic(auto)]

mod branches;
mod numbered;
mod opening_calls;
mod questions;
mod sizing;

pub use branches::split_lengths;
pub use numbered::one_split;
pub use opening_calls::open;
pub use questions::{split_count, split_list, tree_count, tree_splits};
pub use sizing::size;
