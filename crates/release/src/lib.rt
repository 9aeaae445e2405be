// The release sheet of a collection in lent bytes: what the program `treesheet` prints.
//
// Read `specs/Release.antt` for the lines (`release_lines`) and for what is answered (`release_asked`).
//
//   write_release     the sheet, at the front of a buffer
#![tactic(auto)]

ghost use Rattle.std.specs.Prelude.{◌≤◌, ◌<◌, ◌≡◌, true, length};
ghost use Rattle.answers.specs.Filled.{FilledAs};
ghost use Rattle.layout.specs.Store.{held_at};
ghost use Rattle.layout.specs.WholeStore.{whole_at};
ghost use Rattle.putting.specs.Put.{Put};
ghost use Rattle.putting.specs.Lines.{bytes_of};
ghost use Rattle.release.specs.Release.{is_taxon, release_lines, release_asked};

use answers::{Refusal, Taxon};

mod parts;

// What is asked for: the two trees alone, the recorded splits too, the stand-ins of a taxon too.
#[derive(Clone, Copy)]
pub struct Wanted {
    pub newick: bool,
    pub splits: bool,
    pub apart: Option<Taxon>,
}

// Writes the release sheet to the front of out. `refused` texts were refused.
pub fn write_release(s: &[u8], refused: usize, w: Wanted, out: &mut [u8]) -> Result<usize, Refusal>
    ensures { FilledAs (release_asked s.now refused w (length out.old)) result out.old out.new }
{
    if !store::is_whole(s) {
        return Err(Refusal::NotWhole);
    }
    let apart = w.apart;
    if !is_taxon(s, apart) {
        return Err(Refusal::NoSuchNumber);
    }
    if out.len() < sheet_length(s, refused, w) {
        return Err(Refusal::TooShort);
    }
    let n = put_release(s, refused, w, out);
    Ok(n)
}

// Whether there is such a taxon, where one is asked for.
fn is_taxon(s: &[u8], apart: Option<Taxon>) -> bool
    requires { whole_at s.now ≡ true }
    ensures { result ≡ is_taxon (held_at s.now) apart }
{
    match apart {
        None => true,
        Some(i) => i.0 < head::taxa(s),
    }
}

// The sheet's length, found by putting it where there is no room for it.
fn sheet_length(s: &[u8], refused: usize, w: Wanted) -> usize
    requires s_value { whole_at s.now ≡ true }
    requires apart_value { is_taxon (held_at s.now) w.apart ≡ true }
    ensures { result ≡ length (bytes_of (release_lines (held_at s.now) refused w)) }
{
    let mut nothing = [0u8; 1];
    put_release(s, refused, w, &mut nothing)
}

// Puts the sheet at the front of out, as far as out reaches, and answers its length.
fn put_release(s: &[u8], refused: usize, w: Wanted, out: &mut [u8]) -> usize
    requires s_value { whole_at s.now ≡ true }
    requires apart_value { is_taxon (held_at s.now) w.apart ≡ true }
    ensures { Put out.old 0 (bytes_of (release_lines (held_at s.now) refused w)) out.new result }
{
    if w.newick {
        return parts::put_newick(s, out);
    }
    let first = parts::put_first(s, refused, out);
    let e = parts::put_splits(s, w.splits, out, first);
    let apart = w.apart;
    parts::put_apart(s, apart, out, e)
}
