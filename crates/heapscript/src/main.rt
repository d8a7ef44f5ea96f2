// heapscript (document 01): commands from standard input over a heap of 16 strings, tables and userdata, main stack 32 and one
// frame. It reads, has each line run, and prints what that gives; all else is in the libraries that it calls. A line ends at a
// newline; the last line may have none. A read or a write that fails ends the program.
#![tactic(auto)]

ghost use Rattle.std.specs.Prelude.{◌≡◌, ◌≤◌, ◌<◌, length, IfOk, OnErr};

use script_input::Reading;
use std::io;
use std::io::Read;

// How far the input is read, and whether more may follow.
#[derive(Clone, Copy)]
pub struct Input {
    pub reading: Reading,
    pub more: bool,
}

// A line is run, and what it gives is printed.
fn run(
    rt: &impl Print,
    w: &mut [u32],
    b: &mut [u8],
    made: &mut [u32],
    line: &[u8],
    number: u64,
) -> io::Result<()> {
    let mut out = [0u8; 1024];
    let n = script_run::run_line(w, b, made, &mut out, line, number);
    rt.write_all(&out[..n])
}

// The part is read up to a newline or its end; a line that is whole is run.
fn run_next(
    rt: &impl Print,
    w: &mut [u32],
    b: &mut [u8],
    made: &mut [u32],
    line: &mut [u8],
    part: &[u8],
    s: Reading,
) -> io::Result<Reading>
    requires { (s.count ≤ length line.old) × (s.at < length part.now) }
    ensures ok { IfOk result (λ r. (r.count ≤ length line.old) × (s.at < r.at)) }
    ensures err { OnErr result (length line.new ≡ length line.old) }
{
    let g = script_input::read_on(part, line, s);
    let count = g.count;
    if g.whole {
        run(rt, w, b, made, &line[..count], g.number)?;
        return Ok(script_input::pass(g));
    }
    Ok(g)
}

// All of a part.
fn run_part(
    rt: &impl Print,
    w: &mut [u32],
    b: &mut [u8],
    made: &mut [u32],
    line: &mut [u8],
    part: &[u8],
    first: Reading,
) -> io::Result<Reading>
    requires { first.count ≤ length line.old }
    ensures ok { IfOk result (λ r. r.count ≤ length line.old) }
    ensures err { OnErr result (length line.new ≡ length line.old) }
{
    let mut s = first;
    while s.at < part.len() {
        s = run_next(rt, w, b, made, line, part, s)?;
    }
    Ok(s)
}

// What is read at once, up to 65,536 bytes. No bytes: the input is at its end.
fn read_part(
    rt: &impl Print,
    input: &mut impl Read,
    w: &mut [u32],
    b: &mut [u8],
    made: &mut [u32],
    line: &mut [u8],
    s: Reading,
) -> io::Result<Input>
    requires { s.count ≤ length line.old }
    ensures ok { IfOk result (λ i. i.reading.count ≤ length line.old) }
    ensures err { OnErr result (length line.new ≡ length line.old) }
{
    let mut part = [0u8; 65536];
    let n = input.read(&mut part)?;
    let next = script_input::renew(s);
    let reading = run_part(rt, w, b, made, line, &part[..n], next)?;
    Ok(Input {
        reading,
        more: 0 < n,
    })
}

// The last line, if it has no newline.
fn run_last(
    rt: &impl Print,
    w: &mut [u32],
    b: &mut [u8],
    made: &mut [u32],
    line: &[u8],
    s: Reading,
) -> io::Result<()>
    requires { s.count ≤ length line.now }
{
    let count = s.count;
    let number = s.number;
    if script_input::is_left(s) {
        run(rt, w, b, made, &line[..count], number)?;
    }
    Ok(())
}

// The whole input. A proved loop has to end, so it counts its turns up to a number that no run reaches.
fn run_all(
    rt: &impl Print,
    input: &mut impl Read,
    w: &mut [u32],
    b: &mut [u8],
    made: &mut [u32],
    line: &mut [u8],
) -> io::Result<()> {
    let mut s = script_input::start();
    for _ in 0..u64::MAX {
        let i = read_part(rt, input, w, b, made, line, s)?;
        s = i.reading;
        if !i.more {
            return run_last(rt, w, b, made, line, s);
        }
    }
    Ok(())
}

fn main(rt: HostRuntime) -> io::Result<()> {
    let mut w = [0u32; 10034];
    let mut b = [0u8; 1024];
    let _ = newheap::make_heap(&mut w, &mut b, print::heapscript());
    let mut made = [0u32; 12289];
    let mut line = [0u8; 4097];
    run_all(&rt, &mut rt.reader(), &mut w, &mut b, &mut made, &mut line)
}
