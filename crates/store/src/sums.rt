// Sums of constants over a mask's taxa, a byte of the mask at a time: a table has the sum for each
// of the 256 values of each of the eight bytes.
//
// Its contracts cite `specs/Sums.antt`.
ghost use Rattle.std.specs.Prelude.{◌≡◌, ◌+◌, ◌*◌, ◌<◌, ◌≤◌, length, slice_index};
ghost use Rattle.head.specs.Head.{numbers_at};
ghost use Rattle.layout.specs.WholeFacts.{HeadAt};
ghost use Rattle.store.specs.Sums.{constants_at, Sums, SumBy, Blank, ByteSums, Doubled};

use answers::Taxon;

// The sum over the taxa of m, modulo 2^64, of the constants whose table `sums` is.
pub(crate) fn sum_over(sums: &[u64; 2048], m: u64) -> u64
    ensures { SumBy sums.now m result }
{
    let mut sum = 0u64;
    let mut rest = m;
    for b in 0..8 {
        let v = (rest % 256) as usize;
        sum = sum.wrapping_add(sums[256 * b + v]);
        rest /= 256;
    }
    sum
}

// Makes the table of the second constants, or of the first, in one that is blank or has the other's: `second` says which, as in
// `constants_at` of specs/Sums.antt. For
// the bytes that the taxa do not reach it stays blank.
pub(crate) fn fill_sums(s: &[u8], second: bool, sums: &mut [u64; 2048])
    requires head_at { HeadAt s.now }
    requires blank { Blank (numbers_at s.now).taxa sums.old }
    ensures sums { Sums (constants_at second s.now) 8 sums.new }
    ensures blank_2 { Blank (numbers_at s.now).taxa sums.new }
{
    let taxa = head::taxa(s) as usize;
    for b in 0..taxa.div_ceil(8) {
        fill_byte(s, second, b, sums);
    }
}

// Makes the 256 sums of byte b: none of its taxa, then a taxon more at a time.
fn fill_byte(s: &[u8], second: bool, b: usize, sums: &mut [u64; 2048])
    requires head_at { HeadAt s.now }
    requires b_bound { b < 8 }
    requires sums_len { length sums.old ≡ 2048 }
    ensures { ByteSums (constants_at second s.now) b 256 sums.old sums.new }
{
    sums[256 * b] = 0;
    let mut width = 1;
    for i in 0..8 {
        let c = constant(s, second, Taxon((8 * b + i) as u32));
        double(sums, 256 * b, width, c);
        width *= 2;
    }
}

// Puts behind the `width` sums from `at` the same sums with c.
fn double(sums: &mut [u64; 2048], at: usize, width: usize, c: u64)
    requires sums_len { length sums.old ≡ 2048 }
    requires width_bound { at + 2 * width ≤ 2048 }
    ensures { Doubled at width c width sums.old sums.new }
{
    for v in 0..width {
        sums[at + width + v] = sums[at + v].wrapping_add(c);
    }
}

// The second constant of taxon i, or the first; 0 where the store has no such taxon.
fn constant(s: &[u8], second: bool, i: Taxon) -> u64
    requires head_at { HeadAt s.now }
    requires i_bound { i.0 < 64 }
    ensures { result ≡ slice_index (constants_at second s.now) i.0 }
{
    if head::taxa(s) <= i.0 {
        return 0;
    }
    if second {
        return head::second_constant(s, i);
    }
    head::first_constant(s, i)
}
