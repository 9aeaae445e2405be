// What stands where in a text, byte by byte, and what may follow a node. Positions are byte places; a text is the bytes before the
// semicolon that ends it. Read crate trees, specs/Text.antt, Length.antt and Reading.antt; specs/Read.antt here says what each reader
// answers in their terms.
#![tactic(auto)]

ghost use Rattle.std.specs.Prelude.{◌≡◌, ◌≤◌, ◌<◌, length, get_or, eqb};
ghost use Rattle.trees.specs.Text.{apostrophe, is_blank, is_label_byte, is_quoted_byte, turned as turnedBy, kind};
ghost use Rattle.trees.specs.Length.{is_digit};
ghost use Rattle.trees.specs.Reading.{read_length, read_label};
ghost use Rattle.text.specs.Read.{kind_no, NoBlank, has_byte, has_label_byte, has_quoted_byte, Skipped, RunEnd, QuotedEnd, LabelEnd, DigitsEnd, NumberBehind, DecimalBehind, Behind, ClosingBehind};
ghost use Rattle.text.specs.Automaton.{byte_class, move as moveNo};

mod ends;
mod labels;

pub use ends::{count_texts, open_after, text_end};
pub use labels::{is_plain_label, read_label, read_up_to};

// The blanks: bit b for the byte b. A set and no table, as each read of a table would build the whole of it.
const BLANKS: u64 = 0x1_0000_2600;

// The label bytes below 64: bit b for the byte b.
const LABELS_BELOW_64: u64 = 0xf3ff_ec7e_0000_0000;

// The label bytes from 64 to 127: bit b - 64 for the byte b.
const LABELS_FROM_64: u64 = 0x7fff_ffff_d7ff_ffff;

// Whether b is a blank.
pub fn is_blank(b: u8) -> bool
    ensures value { result ≡ is_blank b }
    ensures value_2 { result ≡ eqb (kind_no (kind b)) 0 }
{
    if b <= 32 {
        return (BLANKS >> b) % 2 == 1;
    }
    false
}

// Whether b is a label byte.
pub fn is_label_byte(b: u8) -> bool
    ensures { result ≡ is_label_byte b }
{
    if b < 64 {
        return (LABELS_BELOW_64 >> b) % 2 == 1;
    }
    if b < 128 {
        return (LABELS_FROM_64 >> (b - 64)) % 2 == 1;
    }
    false
}

// Whether b may stand in quotes.
pub fn is_quoted_byte(b: u8) -> bool
    ensures { result ≡ is_quoted_byte b }
{
    if b < 32 {
        return false;
    }
    b < 127
}

// Past the blanks from `from` on.
pub fn skip_blanks(text: &[u8], from: usize) -> usize
    requires { from ≤ length text.now }
    ensures { Skipped text.now from result }
{
    for at in from..text.len() {
        if !is_blank(text[at]) {
            return at;
        }
    }
    text.len()
}

// Past the label bytes from `from` on.
pub fn token_end(text: &[u8], from: usize) -> usize
    requires { from ≤ length text.now }
    ensures { RunEnd text.now from result }
{
    for end in from..text.len() {
        if !is_label_byte(text[end]) {
            return end;
        }
    }
    text.len()
}

// Whether the byte b stands at `at`.
pub fn has_byte(text: &[u8], at: usize, b: u8) -> bool
    ensures { result ≡ has_byte text.now at b }
{
    if at < text.len() {
        return text[at] == b;
    }
    false
}

// Whether a label byte stands at `at`.
fn has_label_byte(text: &[u8], at: usize) -> bool
    ensures { result ≡ has_label_byte text.now at }
{
    if at < text.len() {
        return is_label_byte(text[at]);
    }
    false
}

// Past the label in quotes at `from`, where a quote stands; 1 more than the text's length if it is no label.
pub fn quoted_end(text: &[u8], from: usize) -> usize
    requires { (from < length text.now) × (get_or text.now from 0 ≡ apostrophe) }
    ensures { QuotedEnd text.now from result }
{
    let mut end = from;
    let mut q = false;
    while has_quoted_byte(text, end, q) {
        q = turned(q, text[end]);
        end += 1;
    }
    if q {
        return text.len() + 1;
    }
    if end - from < 3 {
        return text.len() + 1;
    }
    end
}

// Whether a byte of a label in quotes stands at `at`: a quote, or where quotes are open, as q says, one that may stand in them.
fn has_quoted_byte(text: &[u8], at: usize, q: bool) -> bool
    ensures { result ≡ has_quoted_byte text.now at q }
{
    if text.len() <= at {
        return false;
    }
    if text[at] == b'\'' {
        return true;
    }
    if q {
        return is_quoted_byte(text[at]);
    }
    false
}

// Whether quotes are open behind b, where q says whether they are before it.
pub(crate) fn turned(q: bool, b: u8) -> bool
    ensures { result ≡ turnedBy q b }
{
    if b == b'\'' {
        return !q;
    }
    q
}

// Past the label at `from`; `from` where no label begins there, 1 more than the text's length where what begins there is none.
pub fn label_end(text: &[u8], from: usize) -> usize
    requires { from ≤ length text.now }
    ensures { LabelEnd text.now from result }
{
    let run = token_end(text, from);
    if !has_byte(text, run, b'\'') {
        return run;
    }
    if from < run {
        return text.len() + 1;
    }
    let q = quoted_end(text, from);
    if has_label_byte(text, q) {
        return text.len() + 1;
    }
    q
}

// Past a colon and a length, or past the blanks where no colon stands; 1 more than the text's length for a fault of form.
pub fn past_length(text: &[u8], from: usize) -> usize
    requires { from ≤ length text.now }
    ensures { Behind read_length text.now from result }
{
    let colon = skip_blanks(text, from);
    if !has_byte(text, colon, b':') {
        return colon;
    }
    let b = skip_blanks(text, colon + 1);
    let d = past_decimal(text, b);
    if d < text.len() {
        return d;
    }
    let e = past_number(text, b);
    if text.len() < e {
        return e;
    }
    skip_blanks(text, e)
}

// Past digits, a point and the digits behind it, if there are any, with a comma or a closing bracket behind them; the text's length where
// that does not stand there. The automaton need not go through such a length.
fn past_decimal(text: &[u8], from: usize) -> usize
    requires { from ≤ length text.now }
    ensures { DecimalBehind text.now from result }
{
    let point = past_digits(text, from, 0);
    if point == from {
        return text.len();
    }
    if !has_byte(text, point, b'.') {
        return text.len();
    }
    let behind = past_digits(text, point + 1, 0);
    if has_byte(text, behind, b',') {
        return behind;
    }
    if has_byte(text, behind, b')') {
        return behind;
    }
    text.len()
}

// Past the token at `from`, if it is a length; 1 more than the text's length if not. Digits, the most of a length, are passed in runs.
fn past_number(text: &[u8], from: usize) -> usize
    requires { (from ≤ length text.now) × NoBlank text.now from }
    ensures { NumberBehind text.now from result }
{
    let mut q = 0u8;
    let mut i = from;
    while has_label_byte(text, i) {
        let k = class_of(text[i]);
        q = move_of(q, k);
        i = past_digits(text, i + 1, k);
    }
    if has_byte(text, i, b'\'') {
        return text.len() + 1;
    }
    if q == 2 {
        return i;
    }
    if q == 4 {
        return i;
    }
    if q == 7 {
        return i;
    }
    text.len() + 1
}

// Past the digits from `from` on, where the byte before is of the class 0, a digit.
fn past_digits(text: &[u8], from: usize, k: u8) -> usize
    requires { from ≤ length text.now }
    ensures { DigitsEnd text.now from k result }
{
    if k != 0 {
        return from;
    }
    for d in from..text.len() {
        if !is_digit(text[d]) {
            return d;
        }
    }
    text.len()
}

// Whether b is a digit.
fn is_digit(b: u8) -> bool
    ensures { result ≡ is_digit b }
{
    b.is_ascii_digit()
}

// The class of a byte in a length: 0 a digit, 1 a sign, 2 the point, 3 e or E, 4 any other. Classes and what a length comes to are
// numbers, as the definitions of specs/Automaton.antt number them.
fn class_of(b: u8) -> u8
    ensures { (result ≡ byte_class b) × (result < 5) }
{
    if b < b'0' {
        return sign_or_point(b);
    }
    if b < 58 {
        return 0;
    }
    if b == b'E' {
        return 3;
    }
    if b == b'e' {
        return 3;
    }
    4
}

// The class of a byte below the digits.
fn sign_or_point(b: u8) -> u8
    requires { b < 48 }
    ensures { (result ≡ byte_class b) × (result < 5) }
{
    if b == b'.' {
        return 2;
    }
    if b == b'+' {
        return 1;
    }
    if b == b'-' {
        return 1;
    }
    4
}

// What a length comes to with a byte of a class below 4: four bits for each number that it may have come to, that of 0 lowest.
const WITH_DIGIT: u64 = 0x8_7774_4222;

const WITH_SIGN: u64 = 0x8_8868_8881;

const WITH_POINT: u64 = 0x8_8888_8433;

const WITH_E: u64 = 0x8_8885_8588;

// What a length that had come to q comes to with a byte of the class k.
fn move_of(q: u8, k: u8) -> u8
    requires { (q < 9) × (k < 5) }
    ensures { (result ≡ moveNo q k) × (result < 9) }
{
    let s = 4 * q;
    if k == 0 {
        return ((WITH_DIGIT >> s) % 16) as u8;
    }
    if k == 1 {
        return ((WITH_SIGN >> s) % 16) as u8;
    }
    if k == 2 {
        return ((WITH_POINT >> s) % 16) as u8;
    }
    if k == 3 {
        return ((WITH_E >> s) % 16) as u8;
    }
    8
}

// Past a label or nothing, then a colon and a length or nothing; 1 more than the text's length for a fault of form. What is no label
// is not passed, and nothing reads it.
fn past_label(text: &[u8], from: usize) -> usize
    requires { from ≤ length text.now }
    ensures { Behind read_label text.now from result }
{
    let at = skip_blanks(text, from);
    let e = label_end(text, at);
    if text.len() < e {
        return at;
    }
    past_length(text, e)
}

// Past the closing bracket behind n children, and what may follow it; 1 more than the text's length for a fault of form.
pub fn past_closing(text: &[u8], at: usize, n: usize) -> usize
    requires { NoBlank text.now at }
    ensures { ClosingBehind text.now at n result }
{
    if !has_byte(text, at, b')') {
        return text.len() + 1;
    }
    if n < 2 {
        return text.len() + 1;
    }
    past_label(text, at + 1)
}
