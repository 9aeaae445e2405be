// Opening a collection in lent bytes.
//
// Crate trees, `specs/Opening.antt`, says what is refused; `specs/Emptied.antt` says what is left of
// the bytes behind the head.
ghost use Rattle.std.specs.Prelude.{◌≡◌, ◌≤◌, length};
ghost use Rattle.trees.specs.Opening.{opening, sizing};
ghost use Rattle.answers.specs.Answers.{number_given};
ghost use Rattle.opening.specs.Given.{numbers_of};
ghost use Rattle.head.specs.Head.{numbers_at};
ghost use Rattle.layout.specs.Store.{size_at};
ghost use Rattle.table.specs.Promises.{OpenedAs};
ghost use Rattle.table.specs.Emptied.{LanesEmptied, Emptied};

use answers::{Lane, Refusal};
use layout::HEAD_BYTES;

// Opens a collection in the lent bytes s, whatever they held. The names are read beside it first, as a refusal leaves it as it was.
pub fn open(
    s: &mut [u8],
    taxa: u32,
    lanes: u32,
    tree_room: u32,
    split_room: u32,
    places: u32,
    kept: bool,
    list: &[u8],
    first: &[u64],
    second: &[u64],
) -> Result<(), Refusal>
    ensures { OpenedAs (opening (numbers_of taxa lanes tree_room split_room places kept) list.now first.now second.now (length s.old)) result s.old s.new }
{
    if !opening::numbers_in_range(taxa, lanes, tree_room, split_room, places) {
        return Err(Refusal::OutOfRange);
    }
    if !opening::constants_good(places, taxa, first, second) {
        return Err(Refusal::OutOfRange);
    }
    let mut names = [0u8; HEAD_BYTES];
    if !opening::read_names(list, taxa, &mut names) {
        return Err(Refusal::BadNames);
    }
    if s.len() < opening::store_size(taxa, lanes, tree_room, split_room, places, kept) {
        return Err(Refusal::TooShort);
    }
    opening::write_head(
        s, taxa, lanes, tree_room, split_room, places, kept, &names, first, second,
    );
    clear_rest(s);
    Ok(())
}

// Makes every lane empty, and the chain of every place.
fn clear_rest(s: &mut [u8])
    requires { size_at s.old ≤ length s.old }
    ensures { Emptied s.old s.new }
{
    clear_lanes(s);
    let from = layout::places_from(s);
    let n = 2 * head::places(s) as usize;
    fields::clear_run(s, from, n);
}

// Makes every lane empty.
fn clear_lanes(s: &mut [u8])
    requires { size_at s.old ≤ length s.old }
    ensures { LanesEmptied s.old (numbers_at s.old).lanes s.new }
{
    let n = head::lanes(s) as usize;
    for l in 0..n {
        fields::put16(s, layout::lane_from(Lane(l)), 0);
    }
}
