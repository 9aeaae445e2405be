// Where everything in a store lies, by the numbers of its head. Each of those numbers is below
// 65,536, so that no sum of them is near a word's end.
//
// Its contracts cite `specs/Store.antt`, which has every byte.
#![tactic(auto)]

ghost use Rattle.std.specs.Prelude.{◌≡◌, ◌+◌, ◌≤◌, ◌<◌, ◌^◌, length};
ghost use Rattle.trees.specs.Opening.{head_bytes};
ghost use Rattle.fields.specs.Field.{number};
ghost use Rattle.head.specs.Head.{numbers_at};
ghost use Rattle.layout.specs.Store.{trees_held_at, splits_held_at, lane_from, tree_from, masks_from, identifiers_from, counts_from, links_from, order_from, places_from, branches_from, lengths_from};

use answers::{Lane, Tree};

// How many bytes the head takes.
pub const HEAD_BYTES: usize = 4096;

// How many bytes a lane takes: 8, and a text.
pub const LANE_BYTES: usize = 4616;

// How many bytes a tree takes.
pub const TREE_BYTES: usize = 128;

// How many bytes the lengths of a tree take, where they are kept.
pub const BRANCH_BYTES: usize = 512;

// How many bytes a text has at most.
pub const MOST_TEXT: usize = 4608;

// The length that says of a lane that it ran over, and no quotes are open.
pub const RAN_OVER: usize = 4609;

// The length that says of a lane that it ran over, and quotes are open.
pub const RAN_OVER_OPEN: usize = 4610;

// How many splits a tree has at most.
pub const MOST_SPLITS: usize = 62;

// How many splits a store can have room for at most.
pub const MOST_ROOM: usize = 4096;

// How many trees there are.
pub fn trees_held(s: &[u8]) -> usize
    requires { head_bytes ≤ length s.now }
    ensures { result ≡ trees_held_at s.now }
{
    number16(s, 10)
}

// How many splits there are.
pub fn splits_held(s: &[u8]) -> usize
    requires { head_bytes ≤ length s.now }
    ensures value { result ≡ splits_held_at s.now }
    ensures upper_bound { result < 65536 }
{
    number16(s, 12)
}

// Where lane l begins.
pub fn lane_from(l: Lane) -> usize
    requires { l.0 < 65536 }
    ensures value { result ≡ lane_from l.0 }
    ensures upper_bound { result < 2 ^ 29 }
{
    HEAD_BYTES + LANE_BYTES * l.0
}

// Where tree i begins.
pub fn tree_from(s: &[u8], i: Tree) -> usize
    requires head_bytes_in_bounds { head_bytes ≤ length s.now }
    requires i_bound { i.0 < 65536 }
    ensures value { result ≡ tree_from (numbers_at s.now) i.0 }
    ensures upper_bound { result < 2 ^ 29 }
{
    HEAD_BYTES + LANE_BYTES * head::lanes(s) as usize + TREE_BYTES * i.0
}

// Where the masks begin: behind the head, the lanes and the trees.
pub fn masks_from(s: &[u8]) -> usize
    requires { head_bytes ≤ length s.now }
    ensures value { result ≡ masks_from (numbers_at s.now) }
    ensures upper_bound { result < 2 ^ 29 }
{
    HEAD_BYTES + LANE_BYTES * head::lanes(s) as usize + TREE_BYTES * head::tree_room(s) as usize
}

// Where the identifiers begin.
pub fn identifiers_from(s: &[u8]) -> usize
    requires { head_bytes ≤ length s.now }
    ensures value { result ≡ identifiers_from (numbers_at s.now) }
    ensures upper_bound { result < 2 ^ 30 }
{
    masks_from(s) + 8 * head::split_room(s) as usize
}

// Where the counts begin.
pub fn counts_from(s: &[u8]) -> usize
    requires { head_bytes ≤ length s.now }
    ensures value { result ≡ counts_from (numbers_at s.now) }
    ensures upper_bound { result < 2 ^ 30 }
{
    masks_from(s) + 16 * head::split_room(s) as usize
}

// Where the links begin.
pub fn links_from(s: &[u8]) -> usize
    requires { head_bytes ≤ length s.now }
    ensures value { result ≡ links_from (numbers_at s.now) }
    ensures upper_bound { result < 2 ^ 30 }
{
    masks_from(s) + 20 * head::split_room(s) as usize
}

// Where the rows begin in order of mask.
pub fn order_from(s: &[u8]) -> usize
    requires { head_bytes ≤ length s.now }
    ensures value { result ≡ order_from (numbers_at s.now) }
    ensures upper_bound { result < 2 ^ 30 }
{
    masks_from(s) + 22 * head::split_room(s) as usize
}

// Where the places begin.
pub fn places_from(s: &[u8]) -> usize
    requires { head_bytes ≤ length s.now }
    ensures value { result ≡ places_from (numbers_at s.now) }
    ensures upper_bound { result < 2 ^ 30 }
{
    masks_from(s) + 24 * head::split_room(s) as usize
}

// Where the trees' lengths begin: behind the places.
pub fn branches_from(s: &[u8]) -> usize
    requires { head_bytes ≤ length s.now }
    ensures value { result ≡ branches_from (numbers_at s.now) }
    ensures upper_bound { result < 2 ^ 30 }
{
    let splits = head::split_room(s) as usize;
    let places = head::places(s) as usize;
    masks_from(s) + 24 * splits + 2 * places
}

// Where the lengths of tree i begin.
pub fn lengths_from(s: &[u8], i: Tree) -> usize
    requires head_bytes_in_bounds { head_bytes ≤ length s.now }
    requires i_bound { i.0 < 65536 }
    ensures value { result ≡ lengths_from (numbers_at s.now) i.0 }
    ensures upper_bound { result < 2 ^ 31 }
{
    branches_from(s) + BRANCH_BYTES * i.0
}

// The number in the 2 bytes of s from at.
pub fn number16(s: &[u8], at: usize) -> usize
    requires { at + 2 ≤ length s.now }
    ensures value { result ≡ number 2 s.now at }
    ensures upper_bound { result < 65536 }
{
    usize::from(fields::get16(s, at))
}
