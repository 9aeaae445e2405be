// The words of a line.

// A line's first word.
pub(crate) fn name(word: &[u8]) {
    io::write_all(1, word);
}

// A number, in decimal.
pub(crate) fn number(v: u64) {
    io::write_all(1, b" ");
    io::print_decimal(1, v);
}

// A number that counts bytes.
pub(crate) fn offset(v: usize) {
    number(v as u64);
}

// The bytes of a buffer.
pub(crate) fn bytes(b: &[u8]) {
    for x in b {
        number(u64::from(*x));
    }
}

// What stands between the arguments and the result.
pub(crate) fn gives() {
    io::write_all(1, b" =");
}

pub(crate) fn end() {
    io::write_all(1, b"\n");
}

// A whole line, of a function that takes numbers and gives one.
pub(crate) fn whole(word: &[u8], arguments: &[u64], answer: u64) {
    name(word);
    for x in arguments {
        number(*x);
    }
    gives();
    number(answer);
    end();
}
