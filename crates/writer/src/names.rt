// Names as labels: in quotes exactly if a byte of the name wants them, with underscores for blanks if not. Crate trees,
// `specs/Written.antt`, says what `written_name` is.
ghost use Rattle.std.specs.Prelude.{◌≡◌, [], ◌∷◌, map, ◌+◌, ◌-◌, ◌≤◌, ◌<◌, length, get_or};
ghost use Rattle.std.proofs.Math.Seq.{slice};
ghost use Rattle.trees.specs.Opening.{head_bytes};
ghost use Rattle.trees.specs.Written.{doubled, wants_quotes, underscored as underscoredByte, written_name};
ghost use Rattle.head.specs.Head.{name_at};
ghost use Rattle.putting.specs.Put.{Put};
ghost use Rattle.writer.specs.Name.{is_plain};

use answers::Taxon;
use putting::put_byte;

// Writes the name of taxon i as a label, as far as out reaches, and answers where it ends.
pub fn write_name(head: &[u8], i: Taxon, out: &mut [u8], at: usize) -> usize
    requires head_bytes_in_bounds { head_bytes ≤ length head.now }
    requires i_bound { i.0 < 64 }
    requires at_bound { at ≤ 9000000 }
    ensures { Put out.old at (written_name (name_at head.now i.0)) out.new result }
{
    let b = 17 + 33 * i.0 as usize;
    let e = name_end(head, b);
    if is_plain(head, b, e) {
        return put_underscored(head, b, e, out, at);
    }
    put_byte(out, at, b'\'');
    let end = put_doubled(head, b, e, out, at + 1);
    put_byte(out, end, b'\'');
    end + 1
}

// Where the name ends that begins at b: its length stands before it.
fn name_end(head: &[u8], b: usize) -> usize
    requires b_nonzero { 0 < b }
    requires b_in_bounds { b + 255 ≤ length head.now }
    ensures { (result ≡ b + get_or head.now (b - 1) 0) × (result ≤ b + 255) }
{
    b + usize::from(head[b - 1])
}

// Whether none of the bytes from b up to e wants quotes.
fn is_plain(s: &[u8], b: usize, e: usize) -> bool
    requires b_le_e { b ≤ e }
    requires e_in_bounds { e ≤ length s.now }
    ensures { result ≡ is_plain (slice b e s.now) }
{
    for i in b..e {
        if wants_quotes(s[i]) {
            return false;
        }
    }
    true
}

// Whether a name that holds the byte b is written in quotes.
fn wants_quotes(b: u8) -> bool
    ensures { result ≡ wants_quotes b }
{
    b"_()[]':;,".contains(&b)
}

// Writes the bytes from b up to e with underscores for blanks, as far as out reaches, and answers where they end.
fn put_underscored(s: &[u8], b: usize, e: usize, out: &mut [u8], at: usize) -> usize
    requires b_le_e { b ≤ e }
    requires e_in_bounds { e ≤ length s.now }
    requires e_bound { e ≤ b + 255 }
    requires at_bound { at ≤ 9000001 }
    ensures { Put out.old at (map underscoredByte (slice b e s.now)) out.new result }
{
    let mut end = at;
    for i in b..e {
        put_byte(out, end, underscored(s[i]));
        end += 1;
    }
    end
}

// What a byte of a name without quotes is written as.
fn underscored(b: u8) -> u8
    ensures { result ≡ underscoredByte b }
{
    if b == b' ' {
        return b'_';
    }
    b
}

// Writes the bytes from b up to e, every quote twice, as far as out reaches, and answers where they end.
fn put_doubled(s: &[u8], b: usize, e: usize, out: &mut [u8], at: usize) -> usize
    requires b_le_e { b ≤ e }
    requires e_in_bounds { e ≤ length s.now }
    requires e_bound { e ≤ b + 255 }
    requires at_bound { at ≤ 9000001 }
    ensures put { Put out.old at (doubled (slice b e s.now)) out.new result }
    ensures upper_bound { result ≤ at + 510 }
{
    let mut end = at;
    for i in b..e {
        end = put_quoted(out, end, s[i]);
    }
    end
}

// Writes the byte b of a name in quotes, as far as out reaches, and answers where it ends.
fn put_quoted(out: &mut [u8], at: usize, b: u8) -> usize
    requires { at ≤ 9000511 }
    ensures put { Put out.old at (doubled (b ∷ [])) out.new result }
    ensures upper_bound { result ≤ at + 2 }
{
    put_byte(out, at, b);
    if b != b'\'' {
        return at + 1;
    }
    put_byte(out, at + 1, b);
    at + 2
}
