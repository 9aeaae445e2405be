// The rows that no tree lists leave the table: the others keep their order, and all that names a row names it anew.
//
// What becomes of a store's parts stands in `specs/Left.antt`, what each step asks and promises in `specs/Dropping.antt`; the law that
// joins the steps is `dropped` of `DroppingLaws`.
ghost use Rattle.std.specs.Prelude.{◌≡◌, ◌≤◌, ◌<◌, length, take};
ghost use Rattle.head.specs.Head.{opening_at};
ghost use Rattle.layout.specs.Store.{parts_at, trees_held_at, splits_held_at};
ghost use Rattle.layout.specs.WholeFacts.{HeadAt};
ghost use Rattle.layout.specs.Sound.{Sound};
ghost use Rattle.withdrawing.specs.Left.{without_rows, Turned};
ghost use Rattle.withdrawing.specs.Dropping.{LeftIn, Becoming, ListsNamed, NamedAnew, Ordered, OrderClosed, Columned, ColumnsClosed};

use crate::columns;
use answers::Tree;

// Takes the rows that no tree lists out of the table. The order is closed before the counts, which say which of its rows stay.
pub(crate) fn drop_rows(s: &mut [u8])
    requires { HeadAt s.old × Sound (opening_at s.old) (parts_at s.old) }
    ensures { Turned s.old (without_rows (parts_at s.old)) s.new }
{
    let n = layout::splits_held(s);
    let mut rows = [0u16; layout::MOST_ROOM];
    let mut entries = [0u16; layout::MOST_ROOM + 1];
    let m = rows_left(s, n, &mut rows, &mut entries);
    if m == n {
        return;
    }
    name_anew(s, n, &entries);
    close_order(s, n, &entries);
    close_columns(s, &rows, m);
    fields::put16(s, 12, m as u16);
}

// Puts the rows that stay into `rows`, and into `entries` what each entry of a chain becomes; answers how many rows stay.
fn rows_left(s: &[u8], n: usize, rows: &mut [u16], entries: &mut [u16]) -> usize
    requires head_at { HeadAt s.now × Sound (opening_at s.now) (parts_at s.now) }
    requires n_value { n ≡ splits_held_at s.now }
    requires n_in_bounds { (n ≤ length rows.old) × (n < length entries.old) }
    ensures { LeftIn (parts_at s.now) n result rows.new entries.new }
{
    let counts = layout::counts_from(s);
    let links = layout::links_from(s);
    entries[0] = 0;
    let mut m = 0;
    for r in 0..n {
        if fields::get32(s, counts + 4 * r) != 0 {
            rows[m] = r as u16;
            m += 1;
            entries[r + 1] = m as u16;
        } else {
            let link = layout::number16(s, links + 2 * r);
            entries[r + 1] = entries[link];
        }
    }
    m
}

// Names each row anew in the lists, the links and the chains' starts.
fn name_anew(s: &mut [u8], n: usize, entries: &[u16])
    requires head_at { HeadAt s.old × Sound (opening_at s.old) (parts_at s.old) }
    requires n_value { n ≡ splits_held_at s.old }
    requires becoming { Becoming (parts_at s.old) entries.now }
    ensures { NamedAnew n entries.now s.old s.new }
{
    let links = layout::links_from(s);
    let starts = layout::places_from(s);
    let places = head::places(s) as usize;
    rename_lists(s, entries);
    columns::rename(s, links, n, entries, 0);
    columns::rename(s, starts, places, entries, 0);
}

// Names the rows in each tree's list anew.
fn rename_lists(s: &mut [u8], entries: &[u16])
    requires head_at { HeadAt s.old × Sound (opening_at s.old) (parts_at s.old) }
    requires becoming { Becoming (parts_at s.old) entries.now }
    ensures { ListsNamed (trees_held_at s.old) entries.now s.old s.new }
{
    let trees = layout::trees_held(s);
    let first = layout::tree_from(s, Tree(0));
    for i in 0..trees {
        let from = first + layout::TREE_BYTES * i;
        let n = layout::number16(s, from);
        columns::rename(s, from + 2, n, entries, 1);
    }
}

// Moves the rows of the order that count to its front, and names each anew.
fn close_order(s: &mut [u8], n: usize, entries: &[u16])
    requires { Ordered s.old n entries.now }
    ensures { OrderClosed n entries.now s.old s.new }
{
    let counts = layout::counts_from(s);
    let from = layout::order_from(s);
    let mut m = 0;
    for k in 0..n {
        let row = layout::number16(s, from + 2 * k);
        if fields::get32(s, counts + 4 * row) != 0 {
            fields::put16(s, from + 2 * m, entries[row + 1] - 1);
            m += 1;
        }
    }
}

// Moves what stands in the first m of the rows to the front of the columns of masks, identifiers, counts and links.
fn close_columns(s: &mut [u8], rows: &[u16], m: usize)
    requires m_in_bounds { m ≤ length rows.now }
    requires columned { Columned s.old (take m rows.now) }
    ensures { ColumnsClosed (take m rows.now) s.old s.new }
{
    let masks = layout::masks_from(s);
    let identifiers = layout::identifiers_from(s);
    let counts = layout::counts_from(s);
    let links = layout::links_from(s);
    columns::gather(s, masks, 8, rows, m);
    columns::gather(s, identifiers, 8, rows, m);
    columns::gather(s, counts, 4, rows, m);
    columns::gather(s, links, 2, rows, m);
}
