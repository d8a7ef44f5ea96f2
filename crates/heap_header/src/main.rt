// Makes two heaps in buffers that held odd words, writes the header of each in words a person reads, and says whether the
// rest of the buffers is as it was.
#![tactic(auto)]

ghost use Rattle.std.specs.Prelude.{◌+◌, ◌≤◌, ◌<◌, length};

use layout::Sizes;
use print::{at, count, long, say, signed};
use std::io;

const ODD: u32 = 2779096485;

// Word p between two texts.
fn word(rt: &impl Print, w: &[u32], before: &[u8], p: usize, after: &[u8]) -> io::Result<()>
    requires { p < length w.now }
{
    count(rt, before, base::get(w, p), after)
}

// Whether words p to e - 1 are all x.
fn alike(w: &[u32], p: usize, e: usize, x: u32) -> bool
    requires { e ≤ length w.now }
{
    for i in p..e {
        if w[i] != x {
            return false;
        }
    }
    true
}

fn alike_bytes(b: &[u8], p: usize, e: usize, x: u8) -> bool
    requires { e ≤ length b.now }
{
    for i in p..e {
        if b[i] != x {
            return false;
        }
    }
    true
}

// Words that are all 0 hold nothing.
fn none(rt: &impl Print, w: &[u32], name: &[u8], p: usize, e: usize) -> io::Result<()>
    requires { e ≤ length w.now }
{
    say(rt, name)?;
    if alike(w, p, e, 0) {
        say(rt, b"none\n")
    } else {
        say(rt, b"some\n")
    }
}

// A handle: index + 1 and generation.
fn handle(rt: &impl Print, w: &[u32], name: &[u8], p: usize) -> io::Result<()>
    requires { p + 1 < length w.now }
{
    let x = base::get(w, p);
    say(rt, name)?;
    if x == 0 {
        say(rt, b"none\n")
    } else {
        count(rt, b"", base::count_down(x), b"")?;
        word(rt, w, b", generation ", p + 1, b"\n")
    }
}

fn limit(rt: &impl Print, w: &[u32]) -> io::Result<()>
    requires { 91 ≤ length w.now }
{
    let n = base::get64(w, layout::LIMIT);
    if n == 18446744073709551615 {
        say(rt, b"limit: none\n")
    } else {
        long(rt, b"limit: ", n, b"\n")
    }
}

fn phase(rt: &impl Print, n: u64) -> io::Result<()> {
    say(rt, b"phase: ")?;
    print::phase(rt, n)?;
    say(rt, b"\n")
}

fn white(rt: &impl Print, n: u32) -> io::Result<()> {
    match n {
        1 => say(rt, b"current white: first\n"),
        2 => say(rt, b"current white: second\n"),
        _ => say(rt, b"current white: odd\n"),
    }
}

// An arena: words t to t + 2 are the head of its chain, the fresh index and the count; word k is its slots.
fn arena(rt: &impl Print, w: &[u32], name: &[u8], t: usize, k: usize) -> io::Result<()>
    requires { (t + 2 < length w.now) × (k < length w.now) }
{
    say(rt, name)?;
    word(rt, w, b": ", t + 2, b"")?;
    word(rt, w, b" of ", k, b" slots occupied, ")?;
    word(rt, w, b"fresh index ", t + 1, b", ")?;
    none(rt, w, b"free chain: ", t, t + 1)
}

fn main_thread(rt: &impl Print, w: &[u32]) -> io::Result<()>
    requires { 91 ≤ length w.now }
{
    word(rt, w, b"prototypes: ", layout::PROTOTYPES, b"")?;
    word(rt, w, b" of ", 6, b"\n")?;
    word(rt, w, b"main stack: top ", layout::TOP, b"")?;
    word(rt, w, b" of ", 7, b"\n")?;
    word(rt, w, b"main open list: ", layout::OPENS, b"")?;
    word(rt, w, b" of ", 8, b"\n")
}

fn frames(rt: &impl Print, w: &[u32]) -> io::Result<()>
    requires { 91 ≤ length w.now }
{
    word(rt, w, b"frames: ci ", layout::CI, b"")?;
    word(rt, w, b" of ", 9, b"\n")?;
    none(
        rt,
        w,
        b"error and hook value: ",
        layout::ERROR,
        layout::GLOBAL,
    )
}

fn roots(rt: &impl Print, w: &[u32]) -> io::Result<()>
    requires { 91 ≤ length w.now }
{
    handle(rt, w, b"global: table ", layout::GLOBAL)?;
    handle(rt, w, b"registry: table ", layout::REGISTRY)?;
    handle(rt, w, b"name __mode: string ", layout::NAME_MODE)?;
    handle(rt, w, b"name __gc: string ", layout::NAME_GC)?;
    none(
        rt,
        w,
        b"type metatables: ",
        layout::METATABLES,
        layout::LIMIT,
    )?;
    limit(rt, w)?;
    word(rt, w, b"pause: ", layout::PAUSE, b"\n")?;
    word(rt, w, b"stepmul: ", layout::STEPMUL, b"\n")?;
    word(rt, w, b"creation number: ", layout::CREATION, b"\n")
}

fn state(rt: &impl Print, w: &[u32]) -> io::Result<()>
    requires { 91 ≤ length w.now }
{
    none(rt, w, b"damage mark: ", layout::DAMAGE, layout::PHASE)?;
    phase(rt, base::get(w, layout::PHASE) as u64)?;
    white(rt, base::get(w, layout::WHITE))?;
    word(rt, w, b"cursor: arena ", layout::CURSOR_ARENA, b"")?;
    word(rt, w, b", slot ", layout::CURSOR_SLOT, b"\n")
}

fn counters(rt: &impl Print, w: &[u32]) -> io::Result<()>
    requires { 91 ≤ length w.now }
{
    word(rt, w, b"total: ", layout::TOTAL, b"\n")?;
    word(rt, w, b"peak: ", layout::PEAK, b"\n")?;
    word(rt, w, b"estimate: ", layout::ESTIMATE, b"\n")?;
    long(rt, b"threshold: ", base::get64(w, layout::THRESHOLD), b"\n")?;
    signed(rt, b"debt: ", base::get64(w, layout::DEBT), b"\n")
}

fn lists(rt: &impl Print, w: &[u32]) -> io::Result<()>
    requires { 91 ≤ length w.now }
{
    none(rt, w, b"finalizer out: ", layout::INTERRUPTED, layout::GRAY)?;
    word(rt, w, b"gray: ", layout::GRAY, b" items\n")?;
    word(rt, w, b"grayagain: ", layout::GRAYAGAIN, b" items\n")?;
    word(rt, w, b"weak: ", layout::WEAK, b" items\n")?;
    word(rt, w, b"queue: ", layout::QUEUE, b" items\n")
}

fn arenas(rt: &impl Print, w: &[u32]) -> io::Result<()>
    requires { 91 ≤ length w.now }
{
    arena(rt, w, b"strings", layout::STRINGS, 0)?;
    arena(rt, w, b"tables", layout::TABLES, 1)?;
    arena(rt, w, b"functions", layout::FUNCTIONS, 2)?;
    arena(rt, w, b"upvalues", layout::UPVALUES, 3)?;
    arena(rt, w, b"userdata", layout::USERDATA, 4)?;
    arena(rt, w, b"threads", layout::THREADS, 5)
}

fn header(rt: &impl Print, w: &[u32]) -> io::Result<()>
    requires { 91 ≤ length w.now }
{
    main_thread(rt, w)?;
    frames(rt, w)?;
    roots(rt, w)?;
    state(rt, w)?;
    counters(rt, w)?;
    lists(rt, w)?;
    arenas(rt, w)
}

fn kept(rt: &impl Print, name: &[u8], same: bool) -> io::Result<()> {
    say(rt, name)?;
    if same {
        say(rt, b"untouched\n")
    } else {
        say(rt, b"changed\n")
    }
}

fn rest(rt: &impl Print, w: &[u32], b: &[u8], s: Sizes) -> io::Result<()> {
    match layout::needed(s) {
        Ok((n, m)) => {
            at(rt, b"words from ", n, b" on: ")?;
            kept(rt, b"", alike(w, n, w.len(), ODD))?;
            at(rt, b"bytes from ", m, b" on: ")?;
            kept(rt, b"", alike_bytes(b, m, b.len(), 165))
        }
        Err(_) => say(rt, b"no heap\n"),
    }
}

// A heap is made and shown.
fn show(rt: &impl Print, name: &[u8], w: &mut [u32], b: &mut [u8], s: Sizes) -> io::Result<()>
    requires { 91 ≤ length w.old }
{
    say(rt, name)?;
    match newheap::make_heap(w, b, s) {
        Ok(()) => say(rt, b": made\n")?,
        Err(n) => count(rt, b": refused ", n.number(), b"\n")?,
    }
    header(rt, w)?;
    rest(rt, w, b, s)
}

fn main(rt: HostRuntime) -> io::Result<()> {
    let mut w = [ODD; 10040];
    let mut b = [165u8; 1030];
    show(&rt, b"the smallest heap", &mut w, &mut b, print::smallest())?;
    w = [ODD; 10040];
    b = [165u8; 1030];
    show(
        &rt,
        b"heapscript's heap",
        &mut w,
        &mut b,
        print::heapscript(),
    )
}
