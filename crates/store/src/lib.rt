// Whether lent bytes are a whole collection.
//
// Read crate layout, specs/Store.antt, for every byte, and specs/WholeStore.antt for what "whole" means of bytes; `whole_at` is
// what `is_whole` answers.
#![tactic(auto)]

ghost use Rattle.std.specs.Prelude.{◌≡◌};
ghost use Rattle.layout.specs.WholeStore.{whole_at};

mod branches;
mod header;
mod lists;
mod splits;
mod sums;

// Whether the lent bytes, of any number and with any values, are a whole collection.
pub fn is_whole(s: &[u8]) -> bool
    ensures { result ≡ whole_at s.now }
{
    if !header::head_good(s) {
        return false;
    }
    let mut table = [0; 2048];
    sums::fill_sums(s, true, &mut table);
    if !splits::splits_good(s, &table) {
        return false;
    }
    if !lists::trees_good(s) {
        return false;
    }
    sums::fill_sums(s, false, &mut table);
    if !splits::chains_good(s, &table) {
        return false;
    }
    if !lists::lanes_good(s) {
        return false;
    }
    branches::branches_good(s)
}
