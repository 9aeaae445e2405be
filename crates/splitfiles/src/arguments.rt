// What the program's arguments ask for. The first is its own name.
ghost use Rattle.std.specs.Prelude.{◌≤◌};

use filing::STDERR_FILENO;
use std::rt::Env;

// Which use is asked for.
#[derive(Clone, Copy, PartialEq, Eq)]
pub(crate) enum Use {
    Write,
    Merge,
    Show,
}

// The most arguments that a use has.
const MOST: usize = 6;

// The use that the arguments ask for, if any.
pub(crate) fn asked(rt: &impl Env) -> Option<Use> {
    let mut word = io::buffer();
    let n = filing::argument(rt, 1, &mut word);
    let count = filing::arguments_within(rt, MOST + 1);
    match (count, &word[..n]) {
        (4, b"show") => Some(Use::Show),
        (5, b"write") => Some(Use::Write),
        (6, b"merge") => Some(Use::Merge),
        _ => None,
    }
}

// Which argument names the file of names in this use. The first file stands behind it.
pub(crate) fn names_of(asked: Use) -> usize
    ensures { result ≤ 3 }
{
    match asked {
        Use::Show => 2,
        Use::Write | Use::Merge => 3,
    }
}

// Says on standard error how the program is used.
pub(crate) fn tell_use() {
    io::write_all(
        STDERR_FILENO,
        b"splitfiles write OUT NAMES TREES     the splits of the trees in TREES, as a split file OUT\n",
    );
    io::write_all(
        STDERR_FILENO,
        b"splitfiles merge OUT NAMES A B       two split files, merged into OUT\n",
    );
    io::write_all(
        STDERR_FILENO,
        b"splitfiles show NAMES FILE           what a split file holds, on standard output\n",
    );
}
