// Buffers and headers of the smallest heap at the edge of what test 1 accepts: every length of the words and of the bytes,
// and each field of the header at the ends of its range and one past them. Writes what `enter` answers.
#![tactic(auto)]

ghost use Rattle.std.specs.Prelude.{◌≤◌, ◌<◌, length};

use std::io;

// The number of the refusal, or 0 where the buffers fit.
fn answer(w: &[u32], b: &[u8]) -> u32 {
    match test1::enter(w, b) {
        Ok(_) => 0,
        Err(n) => n.number(),
    }
}

fn say(rt: &impl Print, a: u32) -> io::Result<()> {
    if a == 0 {
        print::say(rt, b"fits\n")
    } else {
        print::count(rt, b"refused ", a, b"\n")
    }
}

// A line where the answer is another one than before.
fn turn(rt: &impl Print, name: &[u8], n: usize, a: u32, last: u32) -> io::Result<u32> {
    if a != last {
        print::at(rt, b"from ", n, name)?;
        say(rt, a)?;
    }
    Ok(a)
}

// The answer to the first n words, or the first n bytes.
fn cut_words(w: &[u32], b: &[u8], n: usize) -> u32
    requires { n ≤ length w.now }
{
    answer(&w[..n], b)
}

fn cut_bytes(w: &[u32], b: &[u8], n: usize) -> u32
    requires { n ≤ length b.now }
{
    answer(w, &b[..n])
}

// Every length of the words, from none to two more than needed.
fn all_words(rt: &impl Print, w: &[u32], b: &[u8]) -> io::Result<()> {
    let mut last: u32 = 9;
    for n in 0..=w.len() {
        last = turn(rt, b" words on: ", n, cut_words(w, b, n), last)?;
    }
    Ok(())
}

fn all_bytes(rt: &impl Print, w: &[u32], b: &[u8]) -> io::Result<()> {
    let mut last: u32 = 9;
    for n in 0..=b.len() {
        last = turn(rt, b" bytes on: ", n, cut_bytes(w, b, n), last)?;
    }
    Ok(())
}

// One word of the header has another value, for one call.
fn odd(rt: &impl Print, w: &mut [u32], b: &[u8], p: usize, x: u32, name: &[u8]) -> io::Result<()>
    requires { p < length w.old }
{
    let old = w[p];
    w[p] = x;
    let a = answer(w, b);
    w[p] = old;
    print::say(rt, name)?;
    print::count(rt, b" ", x, b": ")?;
    say(rt, a)
}

// The header of the smallest heap, with nothing in it.
fn smallest(w: &mut [u32])
    requires { 91 ≤ length w.old }
{
    base::put(w, 0, 2);
    base::put(w, 1, 2);
    base::put(w, 9, 1);
    base::put(w, layout::WHITE, 1);
}

// The ten sizes, at the ends of their ranges and one past them.
fn odd_strings(rt: &impl Print, w: &mut [u32], b: &[u8]) -> io::Result<()>
    requires { 91 ≤ length w.old }
{
    odd(rt, w, b, 0, 1, b"strings")?;
    odd(rt, w, b, 0, 2, b"strings")?;
    odd(rt, w, b, 0, 4096, b"strings")?;
    odd(rt, w, b, 0, 4097, b"strings")?;
    odd(rt, w, b, 1, 1, b"tables")?;
    odd(rt, w, b, 1, 2, b"tables")
}

fn odd_arenas(rt: &impl Print, w: &mut [u32], b: &[u8]) -> io::Result<()>
    requires { 91 ≤ length w.old }
{
    odd(rt, w, b, 1, 4097, b"tables")?;
    odd(rt, w, b, 2, 4096, b"functions")?;
    odd(rt, w, b, 2, 4097, b"functions")?;
    odd(rt, w, b, 3, 4096, b"upvalues")?;
    odd(rt, w, b, 3, 4097, b"upvalues")?;
    odd(rt, w, b, 5, 4097, b"threads")
}

fn odd_rest(rt: &impl Print, w: &mut [u32], b: &[u8]) -> io::Result<()>
    requires { 91 ≤ length w.old }
{
    odd(rt, w, b, 4, 4096, b"userdata")?;
    odd(rt, w, b, 4, 4097, b"userdata")?;
    odd(rt, w, b, 6, 256, b"prototypes")?;
    odd(rt, w, b, 6, 257, b"prototypes")?;
    odd(rt, w, b, 7, 256, b"stack")?;
    odd(rt, w, b, 7, 257, b"stack")
}

fn odd_frames(rt: &impl Print, w: &mut [u32], b: &[u8]) -> io::Result<()>
    requires { 91 ≤ length w.old }
{
    odd(rt, w, b, 8, 64, b"open list")?;
    odd(rt, w, b, 8, 65, b"open list")?;
    odd(rt, w, b, 9, 0, b"frames")?;
    odd(rt, w, b, 9, 1, b"frames")?;
    odd(rt, w, b, 9, 32, b"frames")?;
    odd(rt, w, b, 9, 33, b"frames")
}

// The fresh index of each arena, at most its slots.
fn odd_full(rt: &impl Print, w: &mut [u32], b: &[u8]) -> io::Result<()>
    requires { 91 ≤ length w.old }
{
    odd(rt, w, b, layout::STRINGS + 1, 2, b"strings fresh")?;
    odd(rt, w, b, layout::TABLES + 1, 2, b"tables fresh")
}

fn odd_fresh(rt: &impl Print, w: &mut [u32], b: &[u8]) -> io::Result<()>
    requires { 91 ≤ length w.old }
{
    odd(rt, w, b, layout::STRINGS + 1, 3, b"strings fresh")?;
    odd(rt, w, b, layout::TABLES + 1, 3, b"tables fresh")?;
    odd(rt, w, b, layout::FUNCTIONS + 1, 1, b"functions fresh")?;
    odd(rt, w, b, layout::UPVALUES + 1, 1, b"upvalues fresh")?;
    odd(rt, w, b, layout::USERDATA + 1, 1, b"userdata fresh")?;
    odd(rt, w, b, layout::THREADS + 1, 1, b"threads fresh")
}

// The count of occupied slots, at most the fresh index.
fn odd_counts(rt: &impl Print, w: &mut [u32], b: &[u8]) -> io::Result<()>
    requires { 91 ≤ length w.old }
{
    odd(rt, w, b, layout::STRINGS + 2, 1, b"strings count")?;
    odd(rt, w, b, layout::TABLES + 2, 1, b"tables count")?;
    odd(rt, w, b, layout::FUNCTIONS + 2, 1, b"functions count")?;
    odd(rt, w, b, layout::UPVALUES + 2, 1, b"upvalues count")?;
    odd(rt, w, b, layout::USERDATA + 2, 1, b"userdata count")?;
    odd(rt, w, b, layout::THREADS + 2, 1, b"threads count")
}

// The counts of the lists, at most their room.
fn odd_lists(rt: &impl Print, w: &mut [u32], b: &[u8]) -> io::Result<()>
    requires { 91 ≤ length w.old }
{
    odd(rt, w, b, layout::GRAY, 3, b"gray count")?;
    odd(rt, w, b, layout::GRAY, 4, b"gray count")?;
    odd(rt, w, b, layout::GRAYAGAIN, 3, b"grayagain count")?;
    odd(rt, w, b, layout::GRAYAGAIN, 4, b"grayagain count")?;
    odd(rt, w, b, layout::WEAK, 4, b"weak count")?;
    odd(rt, w, b, layout::WEAK, 5, b"weak count")
}

// The queue; prototypes used, and the main thread.
fn odd_main(rt: &impl Print, w: &mut [u32], b: &[u8]) -> io::Result<()>
    requires { 91 ≤ length w.old }
{
    odd(rt, w, b, layout::QUEUE, 1, b"queue count")?;
    odd(rt, w, b, layout::PROTOTYPES, 1, b"prototypes used")?;
    odd(rt, w, b, layout::TOP, 1, b"top")?;
    odd(rt, w, b, layout::OPENS, 1, b"open count")?;
    odd(rt, w, b, layout::CI, 0, b"ci")?;
    odd(rt, w, b, layout::CI, 1, b"ci")
}

// Phase, current white, total, and the damage mark.
fn odd_state(rt: &impl Print, w: &mut [u32], b: &[u8]) -> io::Result<()>
    requires { 91 ≤ length w.old }
{
    odd(rt, w, b, layout::PHASE, 4, b"phase")?;
    odd(rt, w, b, layout::PHASE, 5, b"phase")?;
    odd(rt, w, b, layout::WHITE, 0, b"white")?;
    odd(rt, w, b, layout::WHITE, 2, b"white")?;
    odd(rt, w, b, layout::WHITE, 3, b"white")
}

fn odd_total(rt: &impl Print, w: &mut [u32], b: &[u8]) -> io::Result<()>
    requires { 91 ≤ length w.old }
{
    odd(rt, w, b, layout::TOTAL, 2147483647, b"total")?;
    odd(rt, w, b, layout::TOTAL, 2147483648, b"total")?;
    odd(rt, w, b, layout::DAMAGE, 1, b"damage mark")
}

// Sizes need a large buffer, so that the length is not what refuses them.
fn odd_sizes(rt: &impl Print, w: &mut [u32], b: &[u8]) -> io::Result<()>
    requires { 91 ≤ length w.old }
{
    odd_strings(rt, w, b)?;
    odd_arenas(rt, w, b)?;
    odd_rest(rt, w, b)?;
    odd_frames(rt, w, b)
}

fn odd_fields(rt: &impl Print, w: &mut [u32], b: &[u8]) -> io::Result<()>
    requires { 91 ≤ length w.old }
{
    odd_fresh(rt, w, b)?;
    odd_counts(rt, w, b)?;
    odd_lists(rt, w, b)?;
    odd_main(rt, w, b)?;
    odd_state(rt, w, b)?;
    odd_total(rt, w, b)
}

// 1 comes before 8.
fn marked(rt: &impl Print, w: &mut [u32], b: &[u8]) -> io::Result<()>
    requires { 91 ≤ length w.old }
{
    base::put(w, layout::DAMAGE, 1);
    print::say(rt, b"with the damage mark, ")?;
    odd(rt, w, b, layout::PHASE, 5, b"phase")
}

fn lengths(rt: &impl Print) -> io::Result<()> {
    let mut w = [0u32; 1302];
    let b = [0u8; 130];
    smallest(&mut w);
    all_words(rt, &w, &b)?;
    all_bytes(rt, &w, &b)?;
    odd_full(rt, &mut w, &b)?;
    odd_fields(rt, &mut w, &b)?;
    marked(rt, &mut w, &b)
}

fn sizes(rt: &impl Print) -> io::Result<()> {
    let mut w = [0u32; 250000];
    let b = [0u8; 262208];
    smallest(&mut w);
    odd_sizes(rt, &mut w, &b)
}

fn main(rt: HostRuntime) -> io::Result<()> {
    lengths(&rt)?;
    sizes(&rt)
}
