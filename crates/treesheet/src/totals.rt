// The last line that is told.
use crate::texts::Tally;
use filing::STDERR_FILENO;

// Tells how many trees are held, and how many texts were refused and withdrawn.
pub(crate) fn tell(lent: &[u8], all: Tally) {
    let mut out = filing::nothing_waits(STDERR_FILENO);
    filing::put_counted(&mut out, held(lent) as u64, b" trees taken, ");
    filing::put_counted(&mut out, all.refused as u64, b" refused, ");
    filing::put_counted(&mut out, all.withdrawn as u64, b" withdrawn\n");
    filing::flush(&mut out);
}

// How many trees the open collection holds.
fn held(lent: &[u8]) -> usize {
    if lent.len() < 4096 {
        return 0;
    }
    layout::trees_held(lent)
}
