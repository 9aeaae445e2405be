// Processor time.
use crate::answered::STDOUT;
use std::time::{CpuClock, Duration};

// The processor time that the program has used, in microseconds; 0 where the system does not tell it.
fn now(rt: &impl CpuClock) -> u64 {
    match rt.process_cpu_time() {
        Ok(t) => unsigned(t),
        Err(_) => 0,
    }
}

// t in microseconds, or 0 where they do not fit.
fn unsigned(t: Duration) -> u64 {
    u64::try_from(t.as_micros()).unwrap_or(0)
}

// The nanoseconds of one of so many times, since the time `from`.
fn nanoseconds(rt: &impl CpuClock, from: u64, times: u64) -> u64 {
    let to = now(rt);
    if to < from {
        return 0;
    }
    let micros = to - from;
    if 1000000000000 < micros {
        return 0;
    }
    if times == 0 {
        return 0;
    }
    micros * 1000 / times
}

// Makes a step n times, and answers the nanoseconds of one time.
pub(crate) fn time<F: FnMut(u64)>(rt: &impl CpuClock, n: u64, mut step: F) -> u64
    requires { F.IsAlwaysCallable step }
{
    let from = now(rt);
    for i in 0..n {
        step(i);
    }
    nanoseconds(rt, from, n)
}

// Writes a time.
pub(crate) fn write_time(t: u64) {
    io::print_decimal(STDOUT, t);
    io::write_all(STDOUT, b"\n");
}
