// Replays a fixed list of arena operations and prints each answer with the state after it. The answers in `stdout` were
// given by the source's own arena (rust/slots, `list`), so that this comparison needs no Rust at hand.
// A line is `take COLOUR`, `free INDEX GENERATION`, `paint INDEX GENERATION COLOUR` or `sweep DEAD WHITE START MOST`.
#![tactic(auto)]

ghost use Rattle.std.specs.Prelude.{◌≤◌, ◌<◌, length};

use arena::{Arena, Untaken};
use lines::{line_end, number_at, read_full};
use std::io;

// 24 slots, each with a body of 2 words and 4 bytes: 147 words, 96 bytes.
const PLACE: Arena = Arena {
    top: 0,
    base: 3,
    slots: 24,
    bodies: 99,
    stride: 2,
    width: 4,
};

fn say(rt: &impl Print, text: &[u8]) -> io::Result<()> {
    rt.write_all(text)
}

fn say_number(rt: &impl Print, n: u64) -> io::Result<()> {
    rt.print(n)
}

fn take(rt: &impl Print, w: &mut [u32; 147], colour: u32) -> io::Result<()> {
    match arena::take_slot(w, PLACE, colour, 2) {
        Ok((i, g)) => {
            say(rt, b"slot ")?;
            say_number(rt, i as u64)?;
            say(rt, b" ")?;
            say_number(rt, g as u64)
        }
        Err(Untaken::NoneFree) => say(rt, b"refused 3"),
        Err(Untaken::Broken) => say(rt, b"refused 8"),
    }
}

fn free(
    rt: &impl Print,
    w: &mut [u32; 147],
    b: &mut [u8; 96],
    index: u32,
    generation: u32,
) -> io::Result<()> {
    match arena::free(w, b, PLACE, index, generation) {
        Ok(()) => say(rt, b"done"),
        Err(_) => say(rt, b"refused 2"),
    }
}

fn paint(
    rt: &impl Print,
    w: &mut [u32; 147],
    index: u32,
    generation: u32,
    colour: u32,
) -> io::Result<()> {
    let Some(i) = arena::name_of(w, PLACE, index, generation) else {
        return say(rt, b"refused 2");
    };
    arena::set_colour(w, PLACE, i, colour);
    say(rt, b"done")
}

fn say_swept(rt: &impl Print, freed: u64, next: u64, done: bool) -> io::Result<()> {
    say(rt, b"freed ")?;
    say_number(rt, freed)?;
    say(rt, b" next ")?;
    say_number(rt, next)?;
    if done {
        say(rt, b" done")
    } else {
        say(rt, b" unfinished")
    }
}

fn sweep(
    rt: &impl Print,
    w: &mut [u32; 147],
    b: &mut [u8; 96],
    dead: u32,
    white: u32,
    start: u32,
    most: u32,
) -> io::Result<()> {
    let s = arena::sweep_partial(
        w,
        b,
        PLACE,
        dead,
        white,
        base::wide(start),
        base::wide(most),
    );
    say_swept(rt, s.freed as u64, s.next as u64, s.done)
}

// A slot as `GENERATION:COLOUR`.
fn say_slot(rt: &impl Print, w: &[u32; 147], i: usize) -> io::Result<()>
    requires { i < 24 }
{
    say(rt, b" ")?;
    say_number(rt, arena::generation_of(w, PLACE, i) as u64)?;
    say(rt, b":")?;
    say_number(rt, arena::colour_of(w, PLACE, i) as u64)
}

fn say_slots(rt: &impl Print, w: &[u32; 147]) -> io::Result<()> {
    for i in 0..arena::used_of(w, PLACE) {
        say_slot(rt, w, i)?;
    }
    Ok(())
}

// The chain from its head, at most 24 slots of it.
fn say_chain(rt: &impl Print, w: &[u32; 147]) -> io::Result<()> {
    let mut x = base::wide(arena::head_of(w, PLACE));
    for _ in 0..24 {
        if x == 0 || 24 < x {
            return Ok(());
        }
        say(rt, b" ")?;
        say_number(rt, (x - 1) as u64)?;
        x = base::wide(arena::link_of(w, PLACE, x - 1));
    }
    Ok(())
}

fn say_state(rt: &impl Print, w: &[u32; 147]) -> io::Result<()> {
    say(rt, b", count ")?;
    say_number(rt, arena::count_of(w, PLACE) as u64)?;
    say(rt, b", chain")?;
    say_chain(rt, w)?;
    say(rt, b", slots")?;
    say_slots(rt, w)?;
    say(rt, b"\n")
}

// One line is done by its first letter.
fn apply(
    rt: &impl Print,
    w: &mut [u32; 147],
    b: &mut [u8; 96],
    letter: u8,
    s: &[u8],
    at: usize,
) -> io::Result<()>
    requires { at ≤ length s.now }
{
    let one = number_at(s, at);
    let two = number_at(s, one.next);
    let three = number_at(s, two.next);
    let four = number_at(s, three.next);
    match letter {
        b't' => take(rt, w, one.value),
        b'f' => free(rt, w, b, one.value, two.value),
        b'p' => paint(rt, w, one.value, two.value, three.value),
        b's' => sweep(rt, w, b, one.value, two.value, three.value, four.value),
        _ => say(rt, b"not an operation"),
    }
}

fn main(rt: HostRuntime) -> io::Result<()> {
    let mut text = [0u8; 65536];
    let n = read_full(&mut rt.reader(), &mut text)?;
    let mut w = [0u32; 147];
    let mut b = [0u8; 96];
    replay(&rt, &mut w, &mut b, &text[..n])
}

fn replay(rt: &impl Print, w: &mut [u32; 147], b: &mut [u8; 96], s: &[u8]) -> io::Result<()> {
    let mut at: usize = 0;
    while at < s.len() {
        apply(rt, w, b, s[at], s, at)?;
        say_state(rt, w)?;
        at = line_end(s, at);
    }
    Ok(())
}
