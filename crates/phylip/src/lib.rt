// Distance matrices in PHYLIP's square layout, in lent slices.
//
// Read `specs/Writing.antt` and `specs/Reading.antt` for what the calls promise; what the text is is said in crate trees,
// `specs/Phylip.antt` and `specs/PhylipCall.antt`.
#![tactic(auto)]

mod digits;
mod eight;
mod filling;
mod form;
mod line;
mod reading;
mod symmetry;
mod values;
mod writing;

pub use reading::read_matrix;
pub use writing::write_matrix;
