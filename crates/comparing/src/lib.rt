// The trees of a collection in lent bytes, compared: their distances, one pair at a time and as a
// matrix, the weighted distance of a pair, and the collision number of their splits. Each call does its own checking and asks nothing
// of what it is given.
//
// What each answers is said in `specs/Asked.antt`, by the definitions of crate trees,
// `specs/Questions.antt`.
#![tactic(auto)]

ghost use Rattle.std.specs.Prelude.{◌≡◌, length};
ghost use Rattle.answers.specs.Answers.{number_given, weight_given};
ghost use Rattle.answers.specs.Filled.{length_given, front};
ghost use Rattle.comparing.specs.Asked.{one_sided_asked, doubled_asked, matrix_asked, weighted_asked, collisions_asked};

use answers::{Refusal, Tree};

mod weighed;

// The number of splits of tree a that tree b lacks.
pub fn one_sided(s: &[u8], a: Tree, b: Tree) -> Result<usize, Refusal>
    ensures { number_given result ≡ one_sided_asked s.now a.0 b.0 }
{
    if !store::is_whole(s) {
        return Err(Refusal::NotWhole);
    }
    let trees = layout::trees_held(s);
    if trees <= a.0 {
        return Err(Refusal::NoSuchNumber);
    }
    if trees <= b.0 {
        return Err(Refusal::NoSuchNumber);
    }
    Ok(usize::from(distances::one_sided(s, a, b)))
}

// The doubled distance between the trees a and b.
pub fn doubled(s: &[u8], a: Tree, b: Tree) -> Result<usize, Refusal>
    ensures { number_given result ≡ doubled_asked s.now a.0 b.0 }
{
    if !store::is_whole(s) {
        return Err(Refusal::NotWhole);
    }
    let held = layout::trees_held(s);
    if held <= a.0 {
        return Err(Refusal::NoSuchNumber);
    }
    if held <= b.0 {
        return Err(Refusal::NoSuchNumber);
    }
    Ok(usize::from(distances::doubled(s, a, b)))
}

// The doubled distances of all pairs of trees, row by row, at the front of a buffer.
pub fn matrix(s: &[u8], out: &mut [u16]) -> Result<usize, Refusal>
    ensures result_value { number_given result ≡ length_given (matrix_asked s.now (length out.old)) }
    ensures out_after { out.new ≡ front (matrix_asked s.now (length out.old)) out.old }
{
    if !store::is_whole(s) {
        return Err(Refusal::NotWhole);
    }
    let trees = layout::trees_held(s);
    let entries = trees * trees;
    if out.len() < entries {
        return Err(Refusal::TooShort);
    }
    distances::write_matrix(s, out);
    Ok(entries)
}

// The weighted distance between the trees a and b, where lengths are kept and every split of both has one.
pub fn weighted(s: &[u8], a: Tree, b: Tree) -> Result<f64, Refusal>
    ensures { weight_given result ≡ weighted_asked s.now a.0 b.0 }
{
    if !store::is_whole(s) {
        return Err(Refusal::NotWhole);
    }
    let accepted = layout::trees_held(s);
    if accepted <= a.0 {
        return Err(Refusal::NoSuchNumber);
    }
    if accepted <= b.0 {
        return Err(Refusal::NoSuchNumber);
    }
    if head::kept(s) == 0 {
        return Err(Refusal::NoLength);
    }
    weighed::weigh(s, a, b)
}

// The count of unordered pairs of different recorded splits equal in place and identifier.
pub fn collisions(s: &[u8]) -> Result<usize, Refusal>
    ensures { number_given result ≡ collisions_asked s.now }
{
    if !store::is_whole(s) {
        return Err(Refusal::NotWhole);
    }
    let pairs = colliding::collision_number(s);
    Ok(pairs)
}
