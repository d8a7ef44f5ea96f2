// Drives a heap through whole cycles: two by single steps, one each by budgets of 0, 1, 100 and 10^9, and a full collection.
// Before each but the first the main stack is popped, so that there is something to free. A finalizer that is handed out
// succeeds; only that of userdata 6 fails, and while it is out other steps are tried. After each call its answer is written,
// then phase, cursor, counters and the four lists. The heap is read from standard input; README.md says how that and the
// stored output were made.
#![tactic(auto)]

ghost use Rattle.std.specs.Prelude.{◌≤◌, length};

use accounts::Answer;
use base::Refusal;
use lines::number_at;
use part_reads::{Listed, Main, Which};
use print::{count, long, say};
use reads::{Counter, Read};
use std::io;
use value::UdRef;

// A call that steps.
#[derive(Clone, Copy)]
pub enum By {
    Single,
    Budget(u32),
    Automatic,
    Check,
    Full,
}

// Words `from` to `end` - 1 are x; there are 9187.
fn fill(w: &mut [u32; 9187], from: usize, end: usize, x: u32) {
    for i in from..end {
        if 9187 <= i {
            return;
        }
        w[i] = x;
    }
}

// A line of words: a place, how many, and the word that each is.
fn words(w: &mut [u32; 9187], s: &[u8], at: usize)
    requires { at ≤ length s.now }
{
    let place = number_at(s, at);
    let times = number_at(s, place.next);
    let word = number_at(s, times.next);
    let from = base::wide(place.value);
    fill(w, from, from + base::wide(times.value), word.value);
}

// The rest of the line from `at` on stands in the bytes from `place` on; there are 1024.
fn copy(b: &mut [u8; 1024], s: &[u8], at: usize, place: usize) {
    let mut p = place;
    for i in at..s.len() {
        let c = s[i];
        if c == b'\n' || 1024 <= p {
            return;
        }
        b[p] = c;
        p += 1;
    }
}

// A line of text: its place, a space, and the bytes.
fn text(b: &mut [u8; 1024], s: &[u8], at: usize)
    requires { at ≤ length s.now }
{
    let place = number_at(s, at);
    if place.next < s.len() {
        copy(b, s, place.next + 1, base::wide(place.value));
    }
}

// A line is what its first letter says: a comment, a text or words.
fn line(w: &mut [u32; 9187], b: &mut [u8; 1024], letter: u8, s: &[u8], at: usize)
    requires { at ≤ length s.now }
{
    match letter {
        b'#' => {}
        b't' => text(b, s, at),
        _ => words(w, s, at),
    }
}

fn start(w: &mut [u32; 9187], b: &mut [u8; 1024], s: &[u8]) {
    let mut at: usize = 0;
    while at < s.len() {
        line(w, b, s[at], s, at);
        at = lines::line_end(s, at);
    }
}

// What a read gives as a number.
fn number(r: Result<Read, Refusal>) -> u64 {
    match r {
        Ok(Read::Number(n)) => n,
        _ => 0,
    }
}

fn counter(w: &[u32], b: &[u8], c: Counter) -> u64 {
    number(reads::read_counter(w, b, c))
}

// The arenas by the number that the cursor has for them.
fn arena(rt: &impl Print, n: u64) -> io::Result<()> {
    match n {
        0 => say(rt, b"tables"),
        1 => say(rt, b"functions"),
        2 => say(rt, b"upvalues"),
        3 => say(rt, b"userdata"),
        _ => say(rt, b"threads"),
    }
}

// Phase and cursor.
fn place(rt: &impl Print, w: &[u32], b: &[u8]) -> io::Result<()> {
    say(rt, b"  ")?;
    print::phase(rt, counter(w, b, Counter::Phase))?;
    say(rt, b", cursor at ")?;
    arena(rt, counter(w, b, Counter::CursorArena))
}

fn amount(rt: &impl Print, w: &[u32], b: &[u8], name: &[u8], c: Counter) -> io::Result<()> {
    long(rt, name, counter(w, b, c), b"")
}

// The cursor's slot, and the counters.
fn counters(rt: &impl Print, w: &[u32], b: &[u8]) -> io::Result<()> {
    amount(rt, w, b, b" ", Counter::CursorSlot)?;
    amount(rt, w, b, b", total ", Counter::Total)?;
    amount(rt, w, b, b", peak ", Counter::Peak)?;
    amount(rt, w, b, b", estimate ", Counter::Estimate)?;
    amount(rt, w, b, b", threshold ", Counter::Threshold)?;
    print::signed(rt, b", debt ", counter(w, b, Counter::Debt), b"\n")
}

// Item i of a list, with what parts it from the one before.
fn listed(rt: &impl Print, w: &[u32], b: &[u8], which: Which, i: u32) -> io::Result<()> {
    if 0 < i {
        say(rt, b", ")?;
    }
    match part_reads::read_list(w, b, which, Listed::At(i)) {
        Ok(Read::Item(x)) => print_answer::item(rt, x),
        _ => say(rt, b"no item"),
    }
}

// How many items a list has; no list has room for more than 12,289.
fn items(w: &[u32], b: &[u8], which: Which) -> u32 {
    let n = number(part_reads::read_list(w, b, which, Listed::Length));
    n.min(12289) as u32
}

fn list(rt: &impl Print, w: &[u32], b: &[u8], name: &[u8], which: Which) -> io::Result<()> {
    let n = items(w, b, which);
    say(rt, name)?;
    if n == 0 {
        say(rt, b"none")?;
    }
    for i in 0..n {
        listed(rt, w, b, which, i)?;
    }
    Ok(())
}

fn lists(rt: &impl Print, w: &[u32], b: &[u8]) -> io::Result<()> {
    list(rt, w, b, b"  gray: ", Which::Gray)?;
    list(rt, w, b, b"; grayagain: ", Which::Grayagain)?;
    list(rt, w, b, b"; weak: ", Which::Weak)?;
    list(rt, w, b, b"; queue: ", Which::Queue)?;
    say(rt, b"\n")
}

// What is written after each call.
fn show(rt: &impl Print, w: &[u32], b: &[u8], a: Result<Answer, Refusal>) -> io::Result<()> {
    print_answer::answer(rt, a)?;
    place(rt, w, b)?;
    counters(rt, w, b)?;
    lists(rt, w, b)
}

// A call, after its name.
fn make(
    rt: &impl Print,
    w: &mut [u32],
    b: &mut [u8],
    by: By,
) -> io::Result<Result<Answer, Refusal>> {
    match by {
        By::Single => {
            say(rt, b"gc_singlestep: ")?;
            Ok(steps::gc_singlestep(w, b))
        }
        By::Budget(n) => {
            count(rt, b"gc_step ", n, b": ")?;
            Ok(steps::gc_step(w, b, n as i64))
        }
        By::Automatic => {
            say(rt, b"gc_step_auto: ")?;
            Ok(steps::gc_step_auto(w, b))
        }
        By::Check => {
            say(rt, b"gc_check: ")?;
            Ok(steps::gc_check(w, b))
        }
        By::Full => {
            say(rt, b"full_gc: ")?;
            Ok(steps::full_gc(w, b))
        }
    }
}

fn once(rt: &impl Print, w: &mut [u32], b: &mut [u8], by: By) -> io::Result<()> {
    let a = make(rt, w, b, by)?;
    show(rt, w, b, a)
}

// While a finalizer is out other steps are busy, an automatic one adds to the debt, and a check tests the limit.
fn meanwhile(rt: &impl Print, w: &mut [u32], b: &mut [u8]) -> io::Result<()> {
    once(rt, w, b, By::Single)?;
    once(rt, w, b, By::Automatic)?;
    once(rt, w, b, By::Check)
}

// The finalizer of r is over. That of userdata 6 fails.
fn finish(
    rt: &impl Print,
    w: &mut [u32],
    b: &mut [u8],
    r: UdRef,
) -> io::Result<Result<Answer, Refusal>> {
    if r.0 == 6 {
        meanwhile(rt, w, b)?;
        say(rt, b"finish with failure: ")?;
        Ok(steps::finish(w, b, false))
    } else {
        say(rt, b"finish with success: ")?;
        Ok(steps::finish(w, b, true))
    }
}

// After a call that gave this answer: what it handed out is finished, else the cycle's call is made again.
fn go_on(
    rt: &impl Print,
    w: &mut [u32],
    b: &mut [u8],
    by: By,
    last: Result<Answer, Refusal>,
) -> io::Result<Result<Answer, Refusal>> {
    match last {
        Ok(Answer::Handed(r, _)) => finish(rt, w, b, r),
        _ => make(rt, w, b, by),
    }
}

fn turn(
    rt: &impl Print,
    w: &mut [u32],
    b: &mut [u8],
    by: By,
    last: Result<Answer, Refusal>,
) -> io::Result<Result<Answer, Refusal>> {
    let a = go_on(rt, w, b, by, last)?;
    show(rt, w, b, a)?;
    Ok(a)
}

// Calls until the phase is Pause, at most 100.
fn cycle(rt: &impl Print, w: &mut [u32; 9187], b: &mut [u8; 1024], by: By) -> io::Result<()> {
    let mut last = Ok(Answer::Busy);
    for _ in 0..100 {
        last = turn(rt, w, b, by, last)?;
        if counter(w, b, Counter::Phase) == 0 {
            return Ok(());
        }
    }
    Ok(())
}

// The main stack is popped: its top is one less, and the value stays where it is.
fn pop(rt: &impl Print, w: &mut [u32; 9187], b: &[u8]) -> io::Result<()> {
    let top = number(part_reads::read_main(w, b, Main::Top));
    if top == 0 || 256 < top {
        return Ok(());
    }
    match part_reads::read_main(w, b, Main::Stack((top - 1) as u32)) {
        Ok(Read::Value(v)) => print_answer::value(rt, v)?,
        _ => say(rt, b"no value")?,
    }
    say(rt, b" is popped\n")?;
    main_record::set_main_top(w, (top - 1) as usize);
    Ok(())
}

fn pop_and_cycle(
    rt: &impl Print,
    w: &mut [u32; 9187],
    b: &mut [u8; 1024],
    by: By,
) -> io::Result<()> {
    pop(rt, w, b)?;
    cycle(rt, w, b, by)
}

fn cycles(rt: &impl Print, w: &mut [u32; 9187], b: &mut [u8; 1024]) -> io::Result<()> {
    cycle(rt, w, b, By::Single)?;
    pop_and_cycle(rt, w, b, By::Single)?;
    pop_and_cycle(rt, w, b, By::Budget(0))?;
    pop_and_cycle(rt, w, b, By::Budget(1))?;
    pop_and_cycle(rt, w, b, By::Budget(100))?;
    pop_and_cycle(rt, w, b, By::Budget(1000000000))?;
    pop_and_cycle(rt, w, b, By::Full)
}

fn main(rt: HostRuntime) -> io::Result<()> {
    let mut read = [0u8; 65536];
    let n = lines::read_full(&mut rt.reader(), &mut read)?;
    let mut w = [0u32; 9187];
    let mut b = [0u8; 1024];
    start(&mut w, &mut b, &read[..n]);
    cycles(&rt, &mut w, &mut b)
}
