// What is printed.
use answers::Refusal;

// The numbers that the system gives standard output and standard error.
const STDOUT: i32 = 1;

const STDERR: i32 = 2;

// Prints the sheet, as many lines at a time as fit into 65,536 bytes. No sheet has more lines than can be counted.
pub(crate) fn print_sheet(answer: Result<usize, Refusal>, lent: &[u8]) {
    let mut from = 0usize;
    for _ in 0..u64::MAX {
        let Some(lines) = print_lines(answer, lent, from) else {
            return;
        };
        from = from.saturating_add(lines);
    }
}

// Prints lines from number `from` on, and answers how many; none, where there are none or they could not be written.
fn print_lines(answer: Result<usize, Refusal>, lent: &[u8], from: usize) -> Option<usize> {
    let mut out = [0u8; 65536];
    let (bytes, lines) = summary::lines(answer, lent, from, &mut out).ok()?;
    let is_written = write(out.get(..bytes)?);
    (is_written && lines != 0).then_some(lines)
}

// Writes bytes to standard output; false, with a complaint, where that fails.
fn write(bytes: &[u8]) -> bool {
    if io::write_all(STDOUT, bytes) {
        return true;
    }
    complain(b"treesum: writing failed\n");
    false
}

// Says on standard error what went wrong.
pub(crate) fn complain(message: &[u8]) {
    io::write_all(STDERR, message);
}
