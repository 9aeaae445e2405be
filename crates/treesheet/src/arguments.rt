// What the program's arguments ask for. The first is its own name; options stand before the names, each at most once.
ghost use Rattle.std.specs.Prelude.{◌+◌, ◌≤◌, IfSome};

use filing::STDERR_FILENO;
use std::rt::Env;

// Which argument names the file of names, and which ones stand behind the options `--matrix` and `--apart`, where they are given. How many
// texts of each file are dropped, where that is said. Whether `--splits` and `--newick` are given.
#[derive(Clone, Copy)]
pub(crate) struct Asked {
    pub names: usize,
    pub matrix: Option<usize>,
    pub apart: Option<usize>,
    pub dropped: Option<usize>,
    pub splits: bool,
    pub newick: bool,
}

// The options.
#[derive(Clone, Copy)]
enum Choice {
    Matrix,
    Splits,
    Drop,
    Newick,
    Apart,
}

// What an argument is: an option, one that looks like one, or none.
#[derive(Clone, Copy)]
enum Word {
    Known(Choice),
    Unknown,
    Name,
}

// How many texts can be dropped of a file.
const MOST_DROPPED: u64 = 1000000;

// Reads what is asked for; none, where the program is not used so: with names and a file behind them, and the two trees alone with nothing
// else.
pub(crate) fn read(rt: &impl Env) -> Option<Asked> {
    let asked = options(rt)?;
    if count(rt) <= asked.names.wrapping_add(1) {
        return None;
    }
    if asked.newick && (asked.splits || asked.apart.is_some()) {
        return None;
    }
    Some(asked)
}

// Reads the options, up to the first argument that is none; nothing, where one is unknown, comes twice or has no value. There is a turn for
// each option, and one more.
fn options(rt: &impl Env) -> Option<Asked> {
    let mut asked = Asked {
        names: 1,
        matrix: None,
        apart: None,
        dropped: None,
        splits: false,
        newick: false,
    };
    for turn in 0..6usize {
        match word_at(rt, asked.names) {
            Word::Known(choice) => asked = with_option(rt, choice, asked)?,
            Word::Unknown => return None,
            Word::Name => return Some(asked),
        }
    }
    None
}

// The same with the option that stands where names would, and with its value.
fn with_option(rt: &impl Env, choice: Choice, before: Asked) -> Option<Asked>
    requires { before.names ≤ 64 }
    ensures { IfSome result (λ next. next.names ≤ before.names + 2) }
{
    let i = before.names + 1;
    let mut next = before;
    next.names = i + 1;
    match choice {
        Choice::Matrix if before.matrix.is_none() => next.matrix = Some(value_at(rt, i)?),
        Choice::Apart if before.apart.is_none() => next.apart = Some(value_at(rt, i)?),
        Choice::Drop if before.dropped.is_none() => next.dropped = Some(number_at(rt, i)?),
        Choice::Splits if !before.splits => {
            next.splits = true;
            next.names = i;
        }
        Choice::Newick if !before.newick => {
            next.newick = true;
            next.names = i;
        }
        _ => return None,
    }
    Some(next)
}

// Argument i, where there is one and it is not too long.
fn value_at(rt: &impl Env, i: usize) -> Option<usize> {
    let mut word = io::buffer();
    rt.arg(i, &mut word).is_ok().then_some(i)
}

// How many texts argument i says are dropped of each file, where it is such a number.
fn number_at(rt: &impl Env, i: usize) -> Option<usize> {
    let mut word = io::buffer();
    let n = filing::argument(rt, i, &mut word);
    let v = words::decimal(&word[..n])?;
    if MOST_DROPPED < v {
        return None;
    }
    Some(v as usize)
}

// What argument i is. One that is not there is no option; of one that is too long the first bytes are looked at.
fn word_at(rt: &impl Env, i: usize) -> Word {
    let mut word = io::buffer();
    let n = filing::argument(rt, i, &mut word);
    if n == 0 {
        return no_option(&word);
    }
    match &word[..n] {
        b"--matrix" => Word::Known(Choice::Matrix),
        b"--splits" => Word::Known(Choice::Splits),
        b"--drop" => Word::Known(Choice::Drop),
        b"--newick" => Word::Known(Choice::Newick),
        b"--apart" => Word::Known(Choice::Apart),
        other => no_option(other),
    }
}

// What a word is that is none of the options.
fn no_option(word: &[u8]) -> Word {
    if filing::begins(word, b"--") {
        Word::Unknown
    } else {
        Word::Name
    }
}

// How many arguments there are.
pub(crate) fn count(rt: &impl Env) -> usize {
    filing::arguments_within(rt, usize::MAX)
}

// Says on standard error how the program is used.
pub(crate) fn tell_use() {
    io::write_all(
        STDERR_FILENO,
        b"treesheet [--matrix FILE] [--splits] [--drop N] [--newick] [--apart NAME] NAMES FILE..\n",
    );
}
