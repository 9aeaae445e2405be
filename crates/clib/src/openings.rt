// Opening a collection in lent bytes.
//
//   jakku_size, jakku_open, jakku_is_whole
ghost use Rattle.std.specs.Prelude.{◌≡◌, length};
ghost use Rattle.trees.specs.Opening.{opening, sizing};
ghost use Rattle.answers.specs.Answers.{number_given};
ghost use Rattle.opening.specs.Given.{numbers_of};
ghost use Rattle.layout.specs.WholeStore.{whole_at};
ghost use Rattle.table.specs.Promises.{OpenedAs};
ghost use Rattle.clib.specs.Answers.{finish_of, finish_out, number_of, number_out};

use crate::given;
use crate::given::Given;

// How many bytes must be lent for a collection of these numbers, where lengths are kept or not.
#[unsafe(no_mangle)]
pub extern "C" fn jakku_size(
    taxa: u32,
    lanes: u32,
    tree_room: u32,
    split_room: u32,
    places: u32,
    kept: bool,
) -> Given
    ensures result_value { number_given (number_of result) ≡ sizing (numbers_of taxa lanes tree_room split_room places kept) }
    ensures value { result ≡ number_out (number_of result) }
{
    given::number(table::size(taxa, lanes, tree_room, split_room, places, kept))
}

// Opens a collection in the lent bytes s.
#[unsafe(no_mangle)]
pub extern "C" fn jakku_open(
    s: &mut [u8],
    taxa: u32,
    lanes: u32,
    tree_room: u32,
    split_room: u32,
    places: u32,
    kept: bool,
    list: &[u8],
    first: &[u64],
    second: &[u64],
) -> u32
    ensures opened_as { OpenedAs (opening (numbers_of taxa lanes tree_room split_room places kept) list.now first.now second.now (length s.old)) (finish_of result) s.old s.new }
    ensures value { result ≡ finish_out (finish_of result) }
{
    given::finish(table::open(
        s, taxa, lanes, tree_room, split_room, places, kept, list, first, second,
    ))
}

// Whether the lent bytes are a whole collection.
#[unsafe(no_mangle)]
pub extern "C" fn jakku_is_whole(s: &[u8]) -> bool
    ensures { result ≡ whole_at s.now }
{
    store::is_whole(s)
}
