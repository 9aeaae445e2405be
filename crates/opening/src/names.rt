// The names of an opening: a name list is read into the names' places, as they lie in a head, and one
// test of names in their places serves the opening and the test of a store.
//
// Crate trees, `specs/Names.antt`, says what the names of a list are and which are good;
// `specs/Places.antt` here what a reading leaves, and `specs/Walk.antt` how the list is walked.
ghost use Rattle.std.specs.Prelude.{◌≡◌, true, false, ◌+◌, ◌*◌, ◌≤◌, ◌<◌, length, get_or, drop};
ghost use Rattle.std.proofs.Math.Seq.{slice};
ghost use Rattle.trees.specs.Plain.{every, same_bytes, in_names};
ghost use Rattle.trees.specs.Text.{is_quoted_byte, read_as};
ghost use Rattle.trees.specs.Names.{names_in, is_name, different, good_names};
ghost use Rattle.trees.specs.Opening.{head_bytes};
ghost use Rattle.head.specs.Head.{name_at};
ghost use Rattle.opening.specs.Places.{first_names, Placed};
ghost use Rattle.opening.specs.Walk.{NameEnd};

// Whether the list has a good name for each taxon; they then lie in their places.
pub fn read_names(list: &[u8], taxa: u32, names: &mut [u8]) -> bool
    requires head_bytes_in_bounds { head_bytes ≤ length names.old }
    requires taxa_bound { taxa ≤ 64 }
    ensures value { result ≡ good_names taxa (names_in list.now) }
    ensures names_after { result ≡ true → first_names taxa names.new ≡ names_in list.now }
{
    if !place_names(list, taxa as usize, names) {
        return false;
    }
    names_good(names, taxa)
}

// Reads n names into their places. False where the list has more or fewer, or one that is no label or too long.
fn place_names(list: &[u8], n: usize, names: &mut [u8]) -> bool
    requires head_bytes_in_bounds { head_bytes ≤ length names.old }
    requires n_bound { n ≤ 64 }
    ensures names_after { result ≡ true → first_names n names.new ≡ names_in list.now }
    ensures list_value { result ≡ false → good_names n (names_in list.now) ≡ false }
{
    let mut at = 0;
    for i in 0..n {
        if list.len() < at {
            return false;
        }
        let e = name_end(list, at);
        if list.len() < e {
            return false;
        }
        if !place_name(list, at, e, names, i) {
            return false;
        }
        at = e + 1;
    }
    list.len() < at
}

// Reads the label from b up to e into place i. False where it is read as too many bytes for a name.
fn place_name(list: &[u8], b: usize, e: usize, names: &mut [u8], i: usize) -> bool
    requires b_le_e { (b ≤ e) × (e ≤ length list.now) }
    requires head_bytes_in_bounds { head_bytes ≤ length names.old }
    requires i_bound { i < 64 }
    ensures { Placed names.old i (read_as (slice b e list.now)) result names.new }
{
    let length = text::read_label(list, b, e, names, 17 + 33 * i);
    if 32 < length {
        return false;
    }
    names[16 + 33 * i] = length as u8;
    true
}

// The end of the name that begins at b; 1 more than the list's length where no label stands there up to a space or the end.
fn name_end(list: &[u8], b: usize) -> usize
    requires { b ≤ length list.now }
    ensures { NameEnd list.now b result }
{
    let e = text::label_end(list, b);
    if e < list.len() {
        if list[e] != b' ' {
            return list.len() + 1;
        }
    }
    e
}

// Whether the first names, one for each taxon, are of 1 to 32 bytes and all different.
pub fn names_good(s: &[u8], taxa: u32) -> bool
    requires head_bytes_in_bounds { head_bytes ≤ length s.now }
    requires taxa_bound { taxa ≤ 64 }
    ensures { result ≡ good_names taxa (first_names taxa s.now) }
{
    let n = taxa as usize;
    if !all_names(s, n) {
        return false;
    }
    all_different(s, n)
}

// Whether each of the first n names is of 1 to 32 bytes that may stand in quotes.
fn all_names(s: &[u8], n: usize) -> bool
    requires head_bytes_in_bounds { head_bytes ≤ length s.now }
    requires n_bound { n ≤ 64 }
    ensures { result ≡ every is_name (first_names n s.now) }
{
    for i in 0..n {
        if !is_name(s, i) {
            return false;
        }
    }
    true
}

// Whether the name in place i is of 1 to 32 bytes that may stand in quotes.
fn is_name(s: &[u8], i: usize) -> bool
    requires head_bytes_in_bounds { head_bytes ≤ length s.now }
    requires i_bound { i < 64 }
    ensures { result ≡ is_name (name_at s.now i) }
{
    let n = name_length(s, i);
    if n < 1 {
        return false;
    }
    if 32 < n {
        return false;
    }
    let b = 17 + 33 * i;
    all_quoted_bytes(s, b, b + n)
}

// Whether the bytes of s from b up to e may stand in quotes.
fn all_quoted_bytes(s: &[u8], b: usize, e: usize) -> bool
    requires b_le_e { b ≤ e }
    requires e_in_bounds { e ≤ length s.now }
    ensures { result ≡ every is_quoted_byte (slice b e s.now) }
{
    s[b..e].iter().all(|x| text::is_quoted_byte(*x))
}

// Whether none of the first n names comes twice.
fn all_different(s: &[u8], n: usize) -> bool
    requires head_bytes_in_bounds { head_bytes ≤ length s.now }
    requires n_bound { n ≤ 64 }
    ensures { result ≡ different (first_names n s.now) }
{
    for i in 0..n {
        if comes_again(s, i, n) {
            return false;
        }
    }
    true
}

// Whether the name in place i is one of those behind it, up to place n.
fn comes_again(s: &[u8], i: usize, n: usize) -> bool
    requires head_bytes_in_bounds { head_bytes ≤ length s.now }
    requires n_bound { n ≤ 64 }
    requires i_lt_n { i < n }
    ensures { result ≡ in_names (name_at s.now i) (drop (i + 1) (first_names n s.now)) }
{
    for j in i + 1..n {
        if same_names(s, j, i) {
            return true;
        }
    }
    false
}

// Whether the names in places i and j are the same.
fn same_names(s: &[u8], i: usize, j: usize) -> bool
    requires head_bytes_in_bounds { head_bytes ≤ length s.now }
    requires i_bound { i < 64 }
    requires j_bound { j < 64 }
    ensures { result ≡ same_bytes (name_at s.now i) (name_at s.now j) }
{
    let a = 17 + 33 * i;
    let b = 17 + 33 * j;
    let m = name_length(s, i);
    let n = name_length(s, j);
    s[a..a + m] == s[b..b + n]
}

// The length of the name in place i.
pub(crate) fn name_length(s: &[u8], i: usize) -> usize
    requires head_bytes_in_bounds { head_bytes ≤ length s.now }
    requires i_bound { i < 64 }
    ensures { (result ≡ get_or s.now (16 + 33 * i) 0) × (result < 256) }
{
    usize::from(s[16 + 33 * i])
}
