// The value of a length in a text, as a double.
//
// Its contract cites `LengthStands` and `LengthTaken` of `specs/Read.antt`, which says what each reader answers in terms of crate trees, Value.antt.
#![tactic(auto)]

ghost use Rattle.std.specs.Prelude.{◌≡◌, ℕ, ◌+◌, ◌-◌, ◌*◌, ◌^◌, ◌≤◌, ◌<◌, true, false, pos, negsuc, ◌-ℤ◌, length};
ghost use Rattle.std.specs.Float.Ieee.Exact.{HasValue};
ghost use Rattle.trees.specs.Value.{with_sign, measured, signed};
ghost use Rattle.lengths.specs.Near.{Near};
ghost use Rattle.lengths.specs.Answer.{value_given};
ghost use Rattle.lengths.specs.Read.{has_e, MinusAt, SignPast, Digits, DecimalPast, ExponentPast, LengthStands, LengthTaken};

// A number, or any above 2^60 for a larger one, and the place behind its digits.
#[derive(Clone, Copy)]
pub struct Run {
    pub n: u64,
    pub at: usize,
}

// The digits of a length as a number, how many stand behind the point, and the place behind them.
#[derive(Clone, Copy)]
pub struct Decimal {
    pub n: u64,
    pub behind: u64,
    pub at: usize,
}

// An exponent: whether it is negative, its size, and the place behind it.
#[derive(Clone, Copy)]
pub struct Exponent {
    pub negative: bool,
    pub size: u64,
    pub at: usize,
}

// A length that was read: its value, and the place behind it.
#[derive(Clone, Copy)]
pub struct Taken {
    pub value: Option<f64>,
    pub at: usize,
}

// The double of the length at b. Each of its bytes is read once: the length ends where its parts do.
pub fn length_at(text: &[u8], b: usize) -> Taken
    requires length_stands { LengthStands text.now b }
    requires text_len_bound { length text.now < 2 ^ 59 }
    ensures { LengthTaken text.now b result }
{
    let minus = is_minus(text, b);
    let d = read_decimal(text, past_sign(text, b));
    let x = read_exponent(text, d.at);
    Taken {
        value: scaled_by(minus, d.n, x.negative, x.size, d.behind),
        at: x.at,
    }
}

// Digits, with a point among or beside them or none.
fn read_decimal(text: &[u8], from: usize) -> Decimal
    requires { from ≤ length text.now }
    ensures { DecimalPast text.now from result }
{
    let whole = read_digits(text, from, 0);
    let at = whole.at;
    let n = whole.n;
    if at < text.len() {
        if text[at] == b'.' {
            let behind = at + 1;
            let part = read_digits(text, behind, n);
            let end = part.at;
            return Decimal {
                n: part.n,
                behind: (end - behind) as u64,
                at: end,
            };
        }
    }
    Decimal { n, behind: 0, at }
}

// An exponent, or nothing.
fn read_exponent(text: &[u8], at: usize) -> Exponent
    requires { at ≤ length text.now }
    ensures { ExponentPast text.now at result }
{
    if !has_e(text, at) {
        return Exponent {
            negative: false,
            size: 0,
            at,
        };
    }
    let from = at + 1;
    let negative = is_minus(text, from);
    let digits = read_digits(text, past_sign(text, from), 0);
    Exponent {
        negative,
        size: digits.n,
        at: digits.at,
    }
}

// Whether e or E stands at `at`.
fn has_e(text: &[u8], at: usize) -> bool
    ensures { result ≡ has_e text.now at }
{
    if at < text.len() {
        let b = text[at];
        if b == b'e' {
            return true;
        }
        return b == b'E';
    }
    false
}

// Whether a minus stands at from.
fn is_minus(text: &[u8], from: usize) -> bool
    ensures { MinusAt text.now from result }
{
    if from < text.len() {
        return text[from] == b'-';
    }
    false
}

// Past the sign at from, if one stands there.
fn past_sign(text: &[u8], from: usize) -> usize
    requires { from ≤ length text.now }
    ensures { SignPast text.now from result }
{
    if from < text.len() {
        let b = text[from];
        if b == b'-' {
            return from + 1;
        }
        if b == b'+' {
            return from + 1;
        }
    }
    from
}

// The digits from `from` on, behind those of n.
fn read_digits(text: &[u8], from: usize, n: u64) -> Run
    requires { from ≤ length text.now }
    ensures { Digits text.now from (length text.now) n result }
{
    let mut m = n;
    for i in from..text.len() {
        let b = u64::from(text[i]);
        if b < 48 {
            return Run { n: m, at: i };
        }
        if 57 < b {
            return Run { n: m, at: i };
        }
        m = with_digit(m, b - 48);
    }
    Run {
        n: m,
        at: text.len(),
    }
}

// n with the digit d behind it; a number above 2^60 stays as it is.
fn with_digit(n: u64, d: u64) -> u64
    requires { d ≤ 9 }
    ensures { (m : ℕ) → Near m n → Near (10 * m + d) result }
{
    if n <= 1152921504606846976 {
        return 10 * n + d;
    }
    n
}

// n at the power of ten that an exponent and d digits behind the point give.
fn scaled_by(minus: bool, n: u64, down: bool, x: u64, d: u64) -> Option<f64>
    requires { d < 2 ^ 59 }
    ensures { value_given result ≡ measured minus n (with_sign down x -ℤ pos d) }
{
    if down {
        if 22 < x {
            return None;
        }
        let k = x + d;
        if k == 0 {
            return times(minus, n, 0);
        }
        return divided(minus, n, k);
    }
    if d <= x {
        return times(minus, n, x - d);
    }
    divided(minus, n, d - x)
}

// 10 to the power k, exactly.
fn ten(k: u64) -> f64
    requires { k ≤ 22 }
    ensures { HasValue result false (10 ^ k) 1 }
{
    match k {
        0 => 1.0,
        1 => 10.0,
        2 => 100.0,
        3 => 1000.0,
        4 => 10000.0,
        5 => 100000.0,
        6 => 1000000.0,
        7 => 10000000.0,
        8 => 100000000.0,
        9 => 1000000000.0,
        10 => 10000000000.0,
        11 => 100000000000.0,
        12 => 1000000000000.0,
        13 => 10000000000000.0,
        14 => 100000000000000.0,
        15 => 1000000000000000.0,
        16 => 10000000000000000.0,
        17 => 100000000000000000.0,
        18 => 1000000000000000000.0,
        19 => 10000000000000000000.0,
        20 => 100000000000000000000.0,
        21 => 1000000000000000000000.0,
        _ => 10000000000000000000000.0,
    }
}

// x, negated where a minus sign stands before a number that is not 0.
fn with_sign(minus: bool, n: u64, x: f64) -> f64
    ensures { result ≡ signed minus n x }
{
    if minus {
        if n != 0 {
            return -x;
        }
    }
    x
}

// n times 10 to the power k.
fn times(minus: bool, n: u64, k: u64) -> Option<f64>
    ensures { value_given result ≡ measured minus n (pos k) }
{
    if n <= 9007199254740992 {
        if k <= 22 {
            return Some(with_sign(minus, n, (n as f64) * ten(k)));
        }
    }
    None
}

// n divided by 10 to the power k.
fn divided(minus: bool, n: u64, k: u64) -> Option<f64>
    requires { 0 < k }
    ensures { value_given result ≡ measured minus n (negsuc (k - 1)) }
{
    if n <= 9007199254740992 {
        if k <= 22 {
            return Some(with_sign(minus, n, (n as f64) / ten(k)));
        }
    }
    None
}
