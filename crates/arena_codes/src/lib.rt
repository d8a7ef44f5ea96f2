// What is done with one arena, and its answers, in numbers: a code, and words lent for the rest.
#![tactic(auto)]

ghost use Rattle.std.specs.Prelude.{◌≡◌, ℕ, ◌^◌, ◌≤◌, ◌<◌, length};
ghost use Rattle.base.specs.Heap.{heap};
ghost use Rattle.arena.specs.Slots.{Room, Wide};
ghost use Rattle.arena_codes.specs.Codes.{told, take_in, free_in, paint_in, told_swept, sweep_in};

use arena::{Arena, Swept, Untaken};
use base::Refusal;

// Words 0 and 1 of an answer.
fn tell(out: &mut [u32], x: u32, y: u32)
    requires { 3 ≤ length out.old }
    ensures { out.new ≡ told x y out.old }
{
    base::put(out, 0, x);
    base::put(out, 1, y);
}

// A slot is taken: 0, with index and generation in out; 3; or 8.
pub fn take_in(w: &mut [u32], a: Arena, c: u32, n: u32, out: &mut [u32]) -> u32
    requires room { Room a w.old }
    requires in_bounds { 3 ≤ length out.old }
    ensures { (result, heap w.new out.new) ≡ take_in a c n (heap w.old out.old) }
{
    match arena::take_slot(w, a, c, n) {
        Ok((i, g)) => {
            tell(out, i as u32, g);
            0
        }
        Err(Untaken::NoneFree) => Refusal::Full.number(),
        Err(Untaken::Broken) => Refusal::Damaged.number(),
    }
}

// The slot that a handle names is freed: 0; or 2.
pub fn free_in(w: &mut [u32], b: &mut [u8], a: Arena, index: u32, generation: u32) -> u32
    requires room { Room a w.old }
    requires wide { Wide a b.old }
    ensures { (result, heap w.new b.new) ≡ free_in a index generation (heap w.old b.old) }
{
    match arena::free(w, b, a, index, generation) {
        Ok(()) => 0,
        Err(r) => r.number(),
    }
}

// The slot that a handle names takes colour c: 0; or 2.
pub fn paint_in(w: &mut [u32], a: Arena, index: u32, generation: u32, c: u32) -> u32
    requires { Room a w.old }
    ensures { (result, w.new) ≡ paint_in a index generation c w.old }
{
    match arena::name_of(w, a, index, generation) {
        Some(i) => {
            arena::set_colour(w, a, i, c);
            0
        }
        None => Refusal::Stale.number(),
    }
}

// Words 0 to 2 of an answer: how many slots were freed, the next position, and 1 for a done sweep, 0 for an unfinished one.
fn tell_swept(out: &mut [u32], s: Swept)
    requires in_bounds { 3 ≤ length out.old }
    requires freed_bound { (s.freed < 2 ^ 32) × (s.next < 2 ^ 32) }
    ensures { out.new ≡ told_swept s out.old }
{
    tell(out, s.freed as u32, s.next as u32);
    base::put(out, 2, u32::from(s.done));
}

// Slots are swept: 0, with the answer in out.
pub fn sweep_in(
    w: &mut [u32],
    b: &mut [u8],
    a: Arena,
    dead: u32,
    white: u32,
    start: u32,
    most: u32,
    out: &mut [u32],
) -> u32
    requires room { Room a w.old }
    requires wide { Wide a b.old }
    requires in_bounds { 3 ≤ length out.old }
    ensures { (result, (heap w.new b.new, out.new)) ≡ sweep_in a dead white start most (heap w.old b.old, out.old) }
{
    let s = arena::sweep_partial(w, b, a, dead, white, base::wide(start), base::wide(most));
    tell_swept(out, s);
    0
}
