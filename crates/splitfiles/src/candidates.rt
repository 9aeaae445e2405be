// The trees of a file, fed to the collection: Newick texts, or a NEXUS file.
use answers::{Lane, Refusal};
use filing::{Done, STDERR_FILENO, Waiting};
use std::rt::Env;

// Feeds the trees of the file that argument i names, and tells which are refused. None, where the file is.
pub(crate) fn feed_all(
    rt: &impl Env,
    i: usize,
    trees: &[u8],
    lent: &mut [u8],
    verdicts: &mut [u32],
) -> Option<Done> {
    let answer = feed(trees, lent, verdicts);
    let closing = feeding::close(lent, Lane(0));
    let mut path = io::buffer();
    let n = filing::argument(rt, i, &mut path);
    tell(&path[..n], answer, verdicts, closing)
}

// Feeds the trees, and writes their verdicts.
fn feed(trees: &[u8], lent: &mut [u8], verdicts: &mut [u32]) -> Result<usize, Refusal> {
    if filing::begins(trees, b"#NEXUS") {
        return nexus::feed_file(lent, trees, verdicts);
    }
    feeding::batch(lent, Lane(0), trees, verdicts)
}

// Tells what became of the trees, or that the file is refused. In the lane a text may have been unfinished.
fn tell(
    name: &[u8],
    answer: Result<usize, Refusal>,
    verdicts: &[u32],
    closing: Result<(), Refusal>,
) -> Option<Done> {
    match answer {
        Ok(k) => {
            let n = filing::numbers_within(k, verdicts);
            Some(tell_trees(name, &verdicts[..n], closing))
        }
        Err(r) => {
            filing::tell_refused(name, answers::refusal_number(r));
            None
        }
    }
}

// Tells what became of the trees, the totals last.
fn tell_trees(name: &[u8], verdicts: &[u32], closing: Result<(), Refusal>) -> Done {
    let n = verdicts.len();
    let mut out = filing::nothing_waits(STDERR_FILENO);
    let among = filing::put_verdicts(&mut out, name, 0, verdicts);
    let refused = among.wrapping_add(filing::put_closing(&mut out, name, n, closing));
    put_totals(name, n.wrapping_sub(among), refused, &mut out);
    filing::flush(&mut out);
    if refused == 0 { Done::All } else { Done::Rest }
}

// Puts how many texts were taken and refused.
fn put_totals(name: &[u8], taken: usize, refused: usize, out: &mut Waiting) {
    filing::put(out, name);
    filing::put(out, b": ");
    filing::put_counted(out, taken as u64, b" trees taken, ");
    filing::put_counted(out, refused as u64, b" refused\n");
}
