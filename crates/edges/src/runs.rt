// Runs of bytes copied and cleared in a buffer of twelve different bytes.
ghost use Rattle.std.specs.Prelude.{◌+◌, ◌≤◌};

use crate::{line, numbers};

pub(crate) fn every_run() {
    downwards();
    upwards();
    equal_and_empty();
    from_another();
    cleared();
}

// To a lower place: overlapping by all but one byte, by one, touching, and apart.
fn downwards() {
    within(1, 0, 11);
    within(5, 2, 4);
    within(6, 2, 4);
    within(11, 0, 1);
}

// To a higher place, likewise.
fn upwards() {
    within(0, 1, 11);
    within(2, 5, 4);
    within(2, 6, 4);
    within(0, 11, 1);
}

// Onto itself, and of no bytes, at each end too.
fn equal_and_empty() {
    within(0, 0, 12);
    within(3, 3, 4);
    within(0, 0, 0);
    within(4, 9, 0);
    within(9, 4, 0);
    within(12, 12, 0);
    within(0, 12, 0);
    within(12, 0, 0);
}

fn within(from: usize, to: usize, n: usize)
    requires n_bound { from + n ≤ 12 }
    requires n_bound_2 { to + n ≤ 12 }
{
    let mut b = [1, 2, 3, 4, 5, 6, 7, 8, 9, 10, 11, 12];
    line::name(b"copy_within");
    line::bytes(&b);
    line::offset(from);
    line::offset(to);
    line::offset(n);
    fields::copy_within(&mut b, from, to, n);
    line::gives();
    numbers::show12(&b);
}

fn from_another() {
    between(0, 0, 6);
    between(6, 0, 6);
    between(3, 2, 4);
    between(11, 5, 1);
    between(0, 0, 0);
    between(12, 6, 0);
}

fn between(to: usize, from: usize, n: usize)
    requires n_bound { to + n ≤ 12 }
    requires n_bound_2 { from + n ≤ 6 }
{
    let mut b = [1, 2, 3, 4, 5, 6, 7, 8, 9, 10, 11, 12];
    let other = [0, 255, 128, 127, 254, 200];
    line::name(b"copy_from");
    line::bytes(&b);
    line::offset(to);
    line::bytes(&other);
    line::offset(from);
    line::offset(n);
    fields::copy_from(&mut b, to, &other, from, n);
    line::gives();
    numbers::show12(&b);
}

fn cleared() {
    clear(0, 12);
    clear(0, 1);
    clear(11, 1);
    clear(4, 3);
    clear(0, 0);
    clear(5, 0);
    clear(12, 0);
}

fn clear(at: usize, n: usize)
    requires { at + n ≤ 12 }
{
    let mut b = [1, 2, 3, 4, 5, 6, 7, 8, 9, 10, 11, 12];
    line::name(b"clear_run");
    line::bytes(&b);
    line::offset(at);
    line::offset(n);
    fields::clear_run(&mut b, at, n);
    line::gives();
    numbers::show12(&b);
}
