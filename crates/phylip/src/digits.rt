// Numbers below 10,000, written one behind another. What does not fit is dropped, and the end is where it would
// be: so a text's length is found by writing it.
//
// Its contracts cite crate putting, `specs/Put.antt` (`Put`), crate trees, `specs/Decimal.antt` (`digits_of`), and
// `specs/Writing.antt` (`last_three`).
ghost use Rattle.std.specs.Prelude.{◌≡◌, ◌+◌, ◌≤◌, ◌<◌};
ghost use Rattle.trees.specs.Decimal.{digits_of};
ghost use Rattle.putting.specs.Put.{Put};
ghost use Rattle.phylip.specs.Writing.{last_three};

use putting::put_byte;

// The digit of a number below 10.
fn digit(n: u16) -> u8
    requires { n < 10 }
    ensures { result ≡ 48 + n }
{
    b'0' + n as u8
}

// Puts the digits of n from `at` on, and answers where they end. Most are of one or two digits.
pub(crate) fn put_number(out: &mut [u8], at: usize, n: u16) -> usize
    requires n_bound { n < 10000 }
    requires at_bound { at ≤ 9000000 }
    ensures { Put out.old at (digits_of n) out.new result }
{
    if n < 10 {
        put_byte(out, at, digit(n));
        return at + 1;
    }
    if n < 100 {
        put_byte(out, at, digit(n / 10));
        put_byte(out, at + 1, digit(n % 10));
        return at + 2;
    }
    if n < 1000 {
        return put_three(out, at, n);
    }
    put_byte(out, at, digit(n / 1000));
    put_three(out, at + 1, n)
}

// Puts the last three digits of n.
fn put_three(out: &mut [u8], at: usize, n: u16) -> usize
    requires { at ≤ 9000001 }
    ensures { Put out.old at (last_three n) out.new result }
{
    put_byte(out, at, digit(n / 100 % 10));
    put_byte(out, at + 1, digit(n / 10 % 10));
    put_byte(out, at + 2, digit(n % 10));
    at + 3
}
