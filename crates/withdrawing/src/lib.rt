// Withdrawing a tree from a collection in lent bytes.
//
// Read `specs/Withdrawn.antt` for what the call promises; what it means is said in crate trees, `specs/Withdrawing.antt`. What it makes
// of a store's parts stands in `specs/Left.antt`.
#![tactic(auto)]

ghost use Rattle.withdrawing.specs.Withdrawn.{WithdrawnAs};

use answers::{Refusal, Tree};

mod columns;
mod leaving;
mod unlisting;

// Withdraws tree k: the trees after it move down by one number, and splits that no other tree has leave the table.
pub fn withdraw(s: &mut [u8], k: Tree) -> Result<(), Refusal>
    ensures { WithdrawnAs s.old k.0 result s.new }
{
    if !store::is_whole(s) {
        return Err(Refusal::NotWhole);
    }
    if layout::trees_held(s) <= k.0 {
        return Err(Refusal::NoSuchNumber);
    }
    unlisting::unlist(s, k);
    leaving::drop_rows(s);
    Ok(())
}
