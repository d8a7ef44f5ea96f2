// Buffers and sizes at the edge of what a new heap takes: each length of the words and of the bytes around the needed one,
// and each size at the ends of its range and one past them. Writes what making a heap answers.
#![tactic(auto)]

ghost use Rattle.std.specs.Prelude.{◌≤◌, ◌<◌, length};

use base::Refusal;
use layout::Sizes;
use print::{at, count, say, smallest};
use std::io;

fn answer(rt: &impl Print, m: Result<(), Refusal>) -> io::Result<()> {
    match m {
        Ok(()) => say(rt, b"made\n"),
        Err(n) => count(rt, b"refused ", n.number(), b"\n"),
    }
}

// The smallest heap in the first n words, or the first n bytes.
fn in_words(rt: &impl Print, w: &mut [u32], b: &mut [u8], n: usize) -> io::Result<()>
    requires { n ≤ length w.old }
{
    let part = &mut w[..n];
    at(rt, b"", n, b" words: ")?;
    answer(rt, newheap::make_heap(part, b, smallest()))
}

fn in_bytes(rt: &impl Print, w: &mut [u32], b: &mut [u8], n: usize) -> io::Result<()>
    requires { n ≤ length b.old }
{
    let part = &mut b[..n];
    at(rt, b"", n, b" bytes: ")?;
    answer(rt, newheap::make_heap(w, part, smallest()))
}

// It needs 1300 words and 128 bytes.
fn lengths(rt: &impl Print, w: &mut [u32; 1303], b: &mut [u8; 128]) -> io::Result<()> {
    in_words(rt, w, b, 1297)?;
    in_words(rt, w, b, 1298)?;
    in_words(rt, w, b, 1299)?;
    in_words(rt, w, b, 1300)?;
    in_words(rt, w, b, 1301)?;
    in_words(rt, w, b, 1302)?;
    in_words(rt, w, b, 1303)
}

fn byte_lengths(rt: &impl Print, w: &mut [u32; 1300], b: &mut [u8; 131]) -> io::Result<()> {
    in_bytes(rt, w, b, 125)?;
    in_bytes(rt, w, b, 126)?;
    in_bytes(rt, w, b, 127)?;
    in_bytes(rt, w, b, 128)?;
    in_bytes(rt, w, b, 129)?;
    in_bytes(rt, w, b, 130)?;
    in_bytes(rt, w, b, 131)
}

// A heap of other sizes in buffers as long as the smallest needs: within the ranges the lengths are refused, outside the sizes.
fn sized(rt: &impl Print, name: &[u8], n: usize, s: Sizes) -> io::Result<()> {
    let mut w = [0u32; 1300];
    let mut b = [0u8; 128];
    say(rt, name)?;
    at(rt, b" ", n, b": ")?;
    answer(rt, newheap::make_heap(&mut w, &mut b, s))
}

fn strings(rt: &impl Print, n: usize) -> io::Result<()> {
    let mut s = smallest();
    s.strings = n;
    sized(rt, b"strings", n, s)
}

fn tables(rt: &impl Print, n: usize) -> io::Result<()> {
    let mut s = smallest();
    s.tables = n;
    sized(rt, b"tables", n, s)
}

fn functions(rt: &impl Print, n: usize) -> io::Result<()> {
    let mut s = smallest();
    s.functions = n;
    sized(rt, b"functions", n, s)
}

fn upvalues(rt: &impl Print, n: usize) -> io::Result<()> {
    let mut s = smallest();
    s.upvalues = n;
    sized(rt, b"upvalues", n, s)
}

fn userdata(rt: &impl Print, n: usize) -> io::Result<()> {
    let mut s = smallest();
    s.userdata = n;
    sized(rt, b"userdata", n, s)
}

fn threads(rt: &impl Print, n: usize) -> io::Result<()> {
    let mut s = smallest();
    s.threads = n;
    sized(rt, b"threads", n, s)
}

fn protos(rt: &impl Print, n: usize) -> io::Result<()> {
    let mut s = smallest();
    s.protos = n;
    sized(rt, b"prototypes", n, s)
}

fn stack(rt: &impl Print, n: usize) -> io::Result<()> {
    let mut s = smallest();
    s.stack = n;
    sized(rt, b"main stack", n, s)
}

fn opens(rt: &impl Print, n: usize) -> io::Result<()> {
    let mut s = smallest();
    s.opens = n;
    sized(rt, b"main open list", n, s)
}

fn frames(rt: &impl Print, n: usize) -> io::Result<()> {
    let mut s = smallest();
    s.frames = n;
    sized(rt, b"frames", n, s)
}

fn sizes(rt: &impl Print) -> io::Result<()> {
    strings(rt, 1)?;
    strings(rt, 2)?;
    strings(rt, 4096)?;
    strings(rt, 4097)?;
    tables(rt, 1)?;
    tables(rt, 2)?;
    tables(rt, 4096)?;
    tables(rt, 4097)?;
    functions(rt, 4096)?;
    functions(rt, 4097)?;
    upvalues(rt, 4096)?;
    upvalues(rt, 4097)?;
    userdata(rt, 4096)?;
    userdata(rt, 4097)?;
    threads(rt, 4096)?;
    threads(rt, 4097)
}

fn main_sizes(rt: &impl Print) -> io::Result<()> {
    protos(rt, 256)?;
    protos(rt, 257)?;
    stack(rt, 256)?;
    stack(rt, 257)?;
    opens(rt, 64)?;
    opens(rt, 65)?;
    frames(rt, 0)?;
    frames(rt, 1)?;
    frames(rt, 32)?;
    frames(rt, 33)
}

fn main(rt: HostRuntime) -> io::Result<()> {
    let mut w = [0u32; 1303];
    let mut b = [0u8; 128];
    lengths(&rt, &mut w, &mut b)?;
    let mut few = [0u32; 1300];
    let mut more = [0u8; 131];
    byte_lengths(&rt, &mut few, &mut more)?;
    sizes(&rt)?;
    main_sizes(&rt)
}
