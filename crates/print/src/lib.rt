// What the programs that show a heap share: a text, a number between two texts, a phase's name, and the sizes of two heaps.
// What prints takes the runtime, and returns a write's failure.
#![tactic(auto)]

use layout::Sizes;
use std::io;

pub fn say(rt: &impl Print, text: &[u8]) -> io::Result<()> {
    rt.write_all(text)
}

// A number between two texts: 32 bits, a place or a length, or 64 bits.
pub fn count(rt: &impl Print, before: &[u8], n: u32, after: &[u8]) -> io::Result<()> {
    long(rt, before, n as u64, after)
}

pub fn at(rt: &impl Print, before: &[u8], n: usize, after: &[u8]) -> io::Result<()> {
    long(rt, before, n as u64, after)
}

pub fn long(rt: &impl Print, before: &[u8], n: u64, after: &[u8]) -> io::Result<()> {
    say(rt, before)?;
    rt.print(n)?;
    say(rt, after)
}

// A number that is stored plus 2^63, as the debt is.
pub fn signed(rt: &impl Print, before: &[u8], n: u64, after: &[u8]) -> io::Result<()> {
    say(rt, before)?;
    if n < 9223372036854775808 {
        long(rt, b"-", 9223372036854775808 - n, after)
    } else {
        long(rt, b"", n - 9223372036854775808, after)
    }
}

pub fn phase(rt: &impl Print, n: u64) -> io::Result<()> {
    match n {
        0 => say(rt, b"Pause"),
        1 => say(rt, b"Propagate"),
        2 => say(rt, b"SweepString"),
        3 => say(rt, b"Sweep"),
        4 => say(rt, b"Finalize"),
        _ => say(rt, b"odd"),
    }
}

// The smallest heap: two names, two tables, one frame.
pub fn smallest() -> Sizes {
    Sizes {
        strings: 2,
        tables: 2,
        functions: 0,
        upvalues: 0,
        userdata: 0,
        threads: 0,
        protos: 0,
        stack: 0,
        opens: 0,
        frames: 1,
    }
}

// heapscript's heap.
pub fn heapscript() -> Sizes {
    Sizes {
        strings: 16,
        tables: 16,
        userdata: 16,
        stack: 32,
        ..smallest()
    }
}
