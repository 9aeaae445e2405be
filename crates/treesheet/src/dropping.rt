// Trees that are withdrawn again.
use answers::Tree;

// The least verdict that is no refusal: an accepted tree's number is given with 256 added.
const TAKEN: u32 = 256;

// Withdraws those of the first n texts of a piece that were accepted, and answers how many they are. The last is the first to go, so that
// those before it keep their numbers.
pub(crate) fn withdraw_first(n: usize, verdicts: &[u32], lent: &mut [u8]) -> usize {
    let mut withdrawn = 0usize;
    for verdict in verdicts[..n.min(verdicts.len())].iter().rev() {
        if withdraw(*verdict, lent) {
            withdrawn = withdrawn.wrapping_add(1);
        }
    }
    withdrawn
}

// Withdraws the tree of a verdict, and answers whether that was done: a refused text has none.
fn withdraw(verdict: u32, lent: &mut [u8]) -> bool {
    match verdict.checked_sub(TAKEN) {
        Some(number) => withdrawing::withdraw(lent, Tree(number as usize)).is_ok(),
        None => false,
    }
}
