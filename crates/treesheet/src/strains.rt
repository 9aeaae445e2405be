// The strain that the option `--apart` names.
ghost use Rattle.std.specs.Prelude.{◌<◌, ◌≤◌, length};

use answers::Taxon;
use filing::STDERR_FILENO;
use std::rt::Env;

// The strain that argument i names, in the open collection. None of that name is told.
pub(crate) fn asked_for(rt: &impl Env, i: usize, taxa: u32, lent: &[u8]) -> Option<Taxon>
    requires { taxa ≤ 64 }
{
    let mut name = io::buffer();
    let n = filing::name_at(rt, b"treesheet", i, &mut name)?;
    let strain = strain_of(&name[..n], taxa, lent);
    if strain.is_none() {
        io::write_all(STDERR_FILENO, b"treesheet: no strain ");
        io::write_all(STDERR_FILENO, &name[..n]);
        io::write_all(STDERR_FILENO, b"\n");
    }
    strain
}

// The strain with this name, or else the one that has it as its label in the sheet.
fn strain_of(name: &[u8], taxa: u32, lent: &[u8]) -> Option<Taxon>
    requires { taxa ≤ 64 }
{
    if lent.len() < 4096 {
        return None;
    }
    let named = first_of(taxa, |i: Taxon| head::has_name(lent, i, name));
    if named.is_some() {
        return named;
    }
    first_of(taxa, |i: Taxon| has_label(lent, i, name))
}

// The first strain of which this holds.
fn first_of<F: Fn(Taxon) -> bool>(taxa: u32, is_it: F) -> Option<Taxon>
    requires { (i : _) → i.0 < taxa → F.pre is_it i }
{
    for i in 0..taxa {
        if is_it(Taxon(i)) {
            return Some(Taxon(i));
        }
    }
    None
}

// Whether strain i has this label.
fn has_label(lent: &[u8], i: Taxon, label: &[u8]) -> bool
    requires i_bound { i.0 < 64 }
    requires in_bounds { 4096 ≤ length lent.now }
{
    let mut written = [0u8; 512];
    let n = writer::write_name(lent, i, &mut written, 0);
    let k = filing::within(n, &written);
    filing::same(&written[..k], label)
}
