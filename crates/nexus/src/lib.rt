// Trees straight from a NEXUS file. The file is one lent slice, judged whole first; then each tree's plain text is judged as if it were
// handed whole to an empty lane. No lane is touched, and nothing of the file is copied but one tree's text at a time.
//
// Read crate trees, `specs/Nexus.antt` for what a file is, and `specs/NexusCall.antt` for what the call means; `specs/Fed.antt` here
// says what it promises. `specs/Places.antt` says what a place in a file stands for.
#![tactic(auto)]

ghost use Rattle.std.specs.Prelude.{length};
ghost use Rattle.nexus.specs.Fed.{nexus_of, NexusAs};

use answers::Refusal;

mod blocks;
mod commands;
mod comments;
mod feed;
mod keyed;
mod keys;
mod lines;
mod pairs;
mod plain;
mod tokens;
mod verdicts;

// Four places for each key that a file may list.
const PLACES: usize = 256;

// Feeds the trees of a NEXUS file and writes each verdict: a refusal's number, or 256 more than the tree's. Answers how many there are.
pub fn feed_file(s: &mut [u8], file: &[u8], verdicts: &mut [u32]) -> Result<usize, Refusal>
    ensures { NexusAs (nexus_of s.old file.now (length verdicts.old)) result s.old verdicts.old s.new verdicts.new }
{
    if !store::is_whole(s) {
        return Err(Refusal::NotWhole);
    }
    let mut places = [0usize; PLACES];
    let Some(x) = blocks::read_file(file, &mut places) else {
        return Err(Refusal::BadBlock);
    };
    let from = x.from;
    let end = x.end;
    if keys::repeats(&file[from..end], x.pairs, &places) {
        return Err(Refusal::RepeatedKey);
    }
    let n = x.trees;
    if verdicts.len() < n {
        return Err(Refusal::TooShort);
    }
    feed::feed_trees(
        s,
        file,
        x.lines,
        n,
        &file[from..end],
        x.pairs,
        &places,
        verdicts,
    );
    Ok(n)
}
