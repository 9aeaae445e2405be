// The lines of the input.
ghost use Rattle.std.specs.Prelude.{◌<◌, length, IfSome};

// Where the byte b comes first.
pub(crate) fn place_of(b: u8, input: &[u8]) -> Option<usize>
    ensures { IfSome result (λ i. i < length input.now) }
{
    input.iter().position(|x| *x == b)
}

// How many times a line `PART N` asks for; any other line asks for none.
fn times_in(line: &[u8]) -> u64 {
    match place_of(b' ', line) {
        Some(b) => words::decimal(&line[b + 1..]).unwrap_or(0),
        None => 0,
    }
}

// What a line wants: a part, and how many times.
#[derive(Drop)]
pub(crate) struct Wanted {
    pub(crate) part: u8,
    pub(crate) times: u64,
}

// What a line wants.
pub(crate) fn wanted_in(line: &[u8]) -> Wanted {
    Wanted {
        part: part_of(line),
        times: times_in(line),
    }
}

// Where there is no such line.
pub(crate) fn nothing() -> Wanted {
    Wanted { part: 0, times: 0 }
}

// The byte that names the part of a line: the first, but x for `withdraw` and h for `phylip`, which begin as `whole` and `pass` do.
fn part_of(line: &[u8]) -> u8 {
    if line.starts_with(b"wi") {
        return b'x';
    }
    if line.starts_with(b"ph") {
        return b'h';
    }
    first_byte(line)
}

// Whether something is written over the input: for `phylip`, and for the last of the answers.
pub(crate) fn is_written_over(part: u8) -> bool {
    matches!(part, b'a' | b'h')
}

// Whether a part is one of split files: `export`, `read` or `unite`.
pub(crate) fn is_of_files(part: u8) -> bool {
    matches!(part, b'e' | b'r' | b'u')
}

// The first byte of a line; 0 where there is none.
pub(crate) fn first_byte(line: &[u8]) -> u8 {
    line.first().copied().unwrap_or(0)
}

// What stands behind the first word of a line, and behind the blank there.
pub(crate) fn past_word(line: &[u8]) -> &[u8] {
    match place_of(b' ', line) {
        Some(b) => &line[b + 1..],
        None => line,
    }
}

// How many names a line of names without quotes has, one more than its spaces; 65 stands for any number above 64.
pub(crate) fn count_names(names: &[u8]) -> u32 {
    let mut n = 1u32;
    for b in names {
        if *b == b' ' {
            n = n.saturating_add(1).min(65);
        }
    }
    n
}
