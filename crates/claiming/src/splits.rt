// The splits of a text beside those of the majority.
ghost use Rattle.std.specs.Prelude.{◌≡◌, true, ◌*◌, ◌≤◌, length};
ghost use Rattle.trees.specs.Plain.{gives};
ghost use Rattle.trees.specs.Held.{most_text};
ghost use Rattle.trees.specs.Claim.{compared, claimed_by};
ghost use Rattle.theorems.specs.RisingLaws.{Rising};
ghost use Rattle.answers.specs.Answers.{claim_given};
ghost use Rattle.records.specs.Records.{wide, masks_of};
ghost use Rattle.layout.specs.Store.{held_at};
ghost use Rattle.layout.specs.WholeStore.{whole_at};
ghost use Rattle.consensus.specs.Chosen.{chosen};

use answers::{Claim, Refusal, Split};
use head::KEYS;
use records::MOST_WORDS;

// The claim on the bytes before a text's semicolon.
pub(crate) fn claim_text(s: &[u8], text: &[u8]) -> Result<Claim, Refusal>
    requires s_value { whole_at s.now ≡ true }
    requires text_len_bound { length text.now ≤ most_text }
    ensures { claim_given result ≡ claimed_by (held_at s.now) text.now }
{
    let mut starts = [0u8; KEYS];
    let mut links = [0u8; 64];
    head::build_index(s, &mut starts, &mut links);
    let mut records = [0u64; MOST_WORDS];
    let k = newick::judge(s, &starts, &links, text, &mut records)?;
    compare(s, layout::trees_held(s) / 2 + 1, &records, k)
}

// Walks along the first k records and the splits that at least `least` trees have, both in order of mask, up to the first
// that differ.
fn compare(s: &[u8], least: usize, records: &[u64], k: usize) -> Result<Claim, Refusal>
    requires s_value { whole_at s.now ≡ true }
    requires k_in_bounds { wide * k ≤ length records.now }
    requires rising { Rising (masks_of k records.now) }
    ensures { claim_given result ≡ gives (compared (masks_of k records.now) (chosen least (held_at s.now).trees)) }
{
    let held = layout::splits_held(s);
    let mut i = 0;
    for j in 0..held {
        let row = rows::row_of(s, Split(j));
        if least <= rows::count_at(s, row) {
            let ours = rows::mask_at(s, row);
            if i == k {
                return Ok(Claim::Majority(ours));
            }
            let theirs = records::mask_of(records, i);
            if masks::comes_before(theirs, ours) {
                return Ok(Claim::Text(theirs));
            }
            if masks::comes_before(ours, theirs) {
                return Ok(Claim::Majority(ours));
            }
            i += 1;
        }
    }
    if i < k {
        return Ok(Claim::Text(records::mask_of(records, i)));
    }
    Ok(Claim::Same)
}
