// How many bytes a collection takes.
//
// Crate trees, `specs/Opening.antt`, says what is refused.
ghost use Rattle.std.specs.Prelude.{◌≡◌};
ghost use Rattle.trees.specs.Opening.{sizing};
ghost use Rattle.answers.specs.Answers.{number_given};
ghost use Rattle.opening.specs.Given.{numbers_of};

use answers::Refusal;

// How many bytes must be lent for a collection of these numbers, where lengths are kept or not.
pub fn size(
    taxa: u32,
    lanes: u32,
    tree_room: u32,
    split_room: u32,
    places: u32,
    kept: bool,
) -> Result<usize, Refusal>
    ensures { number_given result ≡ sizing (numbers_of taxa lanes tree_room split_room places kept) }
{
    if !opening::numbers_in_range(taxa, lanes, tree_room, split_room, places) {
        return Err(Refusal::OutOfRange);
    }
    Ok(opening::store_size(taxa, lanes, tree_room, split_room, places, kept))
}
