// Numbers of 8, 4 and 2 bytes, put into a buffer of twelve and read back: at its front, in its middle
// and at its very end.
ghost use Rattle.std.specs.Prelude.{◌+◌, ◌≤◌};

use crate::line;

const NUMBERS64: [u64; 9] = [
    0,
    1,
    2,
    3,
    255,
    4294967296,
    9223372036854775808,
    9223372036854775809,
    18446744073709551615,
];

const NUMBERS32: [u32; 9] = [0, 1, 2, 3, 255, 65536, 2147483648, 2147483649, 4294967295];

const NUMBERS16: [u16; 9] = [0, 1, 2, 3, 255, 256, 32768, 32769, 65535];

pub(crate) fn every_number() {
    for i in 0..9 {
        at_each64(NUMBERS64[i]);
        at_each32(NUMBERS32[i]);
        at_each16(NUMBERS16[i]);
    }
}

fn at_each64(v: u64) {
    there_and_back64(0, v);
    there_and_back64(2, v);
    there_and_back64(4, v);
}

fn at_each32(v: u32) {
    there_and_back32(0, v);
    there_and_back32(3, v);
    there_and_back32(8, v);
}

fn at_each16(v: u16) {
    there_and_back16(0, v);
    there_and_back16(5, v);
    there_and_back16(10, v);
}

fn there_and_back64(at: usize, v: u64)
    requires { at + 8 ≤ 12 }
{
    there_and_back(
        b"put64",
        b"get64",
        at,
        v,
        |b| fields::put64(b, at, v),
        |b| fields::get64(b, at),
    );
}

fn there_and_back32(at: usize, v: u32)
    requires { at + 4 ≤ 12 }
{
    there_and_back(
        b"put32",
        b"get32",
        at,
        u64::from(v),
        |b| fields::put32(b, at, v),
        |b| u64::from(fields::get32(b, at)),
    );
}

fn there_and_back16(at: usize, v: u16)
    requires { at + 2 ≤ 12 }
{
    there_and_back(
        b"put16",
        b"get16",
        at,
        u64::from(v),
        |b| fields::put16(b, at, v),
        |b| u64::from(fields::get16(b, at)),
    );
}

// A line of the function that puts v into a buffer, and one of that which reads it back.
fn there_and_back<P: FnOnce(&mut [u8; 12]), G: FnOnce(&[u8; 12]) -> u64>(
    put_name: &[u8],
    get_name: &[u8],
    at: usize,
    v: u64,
    put: P,
    get: G,
)
    requires puts { P.IsAlwaysCallable put }
    requires gets { G.IsAlwaysCallable get }
{
    let mut b = [165; 12];
    line::name(put_name);
    line::bytes(&b);
    line::offset(at);
    line::number(v);
    put(&mut b);
    line::gives();
    show12(&b);
    line::name(get_name);
    line::bytes(&b);
    line::offset(at);
    line::gives();
    line::number(get(&b));
    line::end();
}

// The buffer after a call, as the line's result.
pub(crate) fn show12(b: &[u8; 12]) {
    line::bytes(b);
    line::end();
}
