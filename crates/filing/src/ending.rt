// How a program ends.
ghost use Rattle.std.specs.Prelude.{◌≤◌};

// What was done, where anything could be: all, or something was refused and the rest was done.
#[derive(Clone, Copy)]
pub enum Done {
    All,
    Rest,
}

// The exit status: 2, where nothing could be done, as was told.
pub fn exit_status(done: Option<Done>) -> u8
    ensures { result ≤ 2 }
{
    match done {
        Some(Done::All) => 0,
        Some(Done::Rest) => 1,
        None => 2,
    }
}
