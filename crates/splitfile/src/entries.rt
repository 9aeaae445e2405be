// A file's record i, read and written at its place: 16 bytes, the mask first, then the count, then the trees.
//
// The contracts cite `specs/Entries.antt`; `specs/EntryLaws.antt` has the laws that callers use.
ghost use Rattle.std.specs.Prelude.{◌≡◌, ◌+◌, ◌*◌, ◌≤◌, length};
ghost use Rattle.trees.specs.SplitFile.{record_bytes, records_in, trees_of};
ghost use Rattle.splitfile.specs.Entries.{mask_in, count_in, trees_in, put_record};

// How many bytes a record takes: `record_bytes` of crate trees, specs/SplitFile.antt.
pub(crate) const RECORD_BYTES: usize = 16;

// The mask of record i.
pub(crate) fn mask_of(file: &[u8], i: usize) -> u64
    requires { record_bytes * i + record_bytes ≤ length file.now }
    ensures { result ≡ mask_in file.now i }
{
    fields::get64(file, RECORD_BYTES * i)
}

// How many trees have record i's split.
pub(crate) fn count_of(file: &[u8], i: usize) -> u32
    requires { record_bytes * i + record_bytes ≤ length file.now }
    ensures { result ≡ count_in file.now i }
{
    fields::get32(file, RECORD_BYTES * i + 8)
}

// How many trees there are, as record i has it.
pub(crate) fn trees_of(file: &[u8], i: usize) -> u32
    requires { record_bytes * i + record_bytes ≤ length file.now }
    ensures { result ≡ trees_in file.now i }
{
    fields::get32(file, RECORD_BYTES * i + 12)
}

// How many trees the first n records are of: "An empty file has no known number of trees", and 0 stands for it.
pub(crate) fn known_trees(file: &[u8], n: usize) -> u32
    requires { record_bytes * n ≤ length file.now }
    ensures { result ≡ trees_of (records_in n file.now) }
{
    if n == 0 {
        return 0;
    }
    trees_of(file, 0)
}

// Writes record i: the mask m, which `count` of the trees have.
pub(crate) fn put_record(out: &mut [u8], i: usize, m: u64, count: u32, trees: u32)
    requires { record_bytes * i + record_bytes ≤ length out.old }
    ensures { out.new ≡ put_record out.old i (record { mask = m; count = count; trees = trees }) }
{
    let at = RECORD_BYTES * i;
    fields::put64(out, at, m);
    fields::put32(out, at + 8, count);
    fields::put32(out, at + 12, trees);
}
