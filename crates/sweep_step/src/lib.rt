// One sweep step (document 01, 'Steps and pacing'; the source's sweep_strings_step and sweep_other_step): up to 80 occupied
// slots of the arena at the cursor, what they took off total and estimate, and the cursor moved.
#![tactic(auto)]

ghost use Rattle.std.specs.Prelude.{◌≡◌, ℕ, ◌+◌, ◌*◌, ◌^◌, ◌≤◌, ◌<◌, max, length};
ghost use Rattle.layout.specs.Layout.{lay_of};
ghost use Rattle.base.specs.Heap.{heap};
ghost use Rattle.arena.specs.Slots.{Room, Wide};
ghost use Rattle.sweep_step.specs.Cursor.{start, advanced, next_arena, cursor_at, put_cursor};
ghost use Rattle.sweep_step.specs.Sweeping.{arena_at, size_at, taken, sweep_arena, strings_moved, sweep_strings, others_moved, sweep_others};

use arena::{Arena, Swept};
use layout::Plan;

// Where a sweep goes on: the arena, of tables 0, closures 1, upvalues 2, userdata 3, threads 4, and the slot.
#[derive(Clone, Copy)]
pub struct SweepCursor {
    pub arena_index: u32,
    pub slot_position: u32,
}

impl SweepCursor {
    // At the first slot of the first arena.
    pub fn start() -> SweepCursor
        ensures { result ≡ start }
    {
        SweepCursor {
            arena_index: 0,
            slot_position: 0,
        }
    }

    // At another slot of the same arena.
    pub fn advance(self, next: u32) -> SweepCursor
        ensures { result ≡ advanced self next }
    {
        SweepCursor {
            arena_index: self.arena_index,
            slot_position: next,
        }
    }

    // At the first slot of the next arena.
    pub fn next_arena(self) -> SweepCursor
        requires { self.arena_index < 4 }
        ensures { result ≡ next_arena self }
    {
        SweepCursor {
            arena_index: self.arena_index + 1,
            slot_position: 0,
        }
    }
}

pub fn read_cursor(w: &[u32]) -> SweepCursor
    requires { 91 ≤ length w.now }
    ensures { result ≡ cursor_at w.now }
{
    SweepCursor {
        arena_index: base::get(w, layout::CURSOR_ARENA),
        slot_position: base::get(w, layout::CURSOR_SLOT),
    }
}

pub fn write_cursor(w: &mut [u32], c: SweepCursor)
    requires { 91 ≤ length w.old }
    ensures { w.new ≡ put_cursor c w.old }
{
    base::put(w, layout::CURSOR_ARENA, c.arena_index);
    base::put(w, layout::CURSOR_SLOT, c.slot_position);
}

// A stored arena index past 4 is threads.
fn arena_at(l: Plan, k: u32) -> Arena
    ensures { result ≡ arena_at (lay_of l.sizes) k }
{
    match k {
        0 => layout::tables_of(l),
        1 => layout::functions_of(l),
        2 => layout::upvalues_of(l),
        3 => layout::userdata_of(l),
        _ => layout::threads_of(l),
    }
}

// What one slot of it takes in the total.
fn size_at(k: u32) -> usize
    ensures { (result ≡ size_at k) × (result ≤ 256) }
{
    match k {
        0 => 64,
        1 => 48,
        2 => 24,
        3 => 48,
        _ => 256,
    }
}

// n is taken off total and estimate.
fn take_off(w: &mut [u32], n: usize)
    requires { 91 ≤ length w.old }
    ensures { w.new ≡ taken n w.old }
{
    let total = base::get(w, layout::TOTAL);
    base::put(w, layout::TOTAL, pacing::less(total, n));
    let estimate = base::get(w, layout::ESTIMATE);
    base::put(w, layout::ESTIMATE, pacing::less(estimate, n));
}

// One batch of an arena from a slot on, whose records take `size` each.
fn sweep_arena(w: &mut [u32], b: &mut [u8], a: Arena, size: usize, from: u32) -> Swept
    requires room { Room a w.old }
    requires wide { Wide a b.old }
    requires in_bounds { (91 ≤ length w.old) × (size ≤ 256) }
    ensures does { (result, heap w.new b.new) ≡ sweep_arena a size from (heap w.old b.old) }
    ensures small { result.next < 2 ^ 32 }
{
    let white = base::get(w, layout::WHITE);
    let dead = mark::other_white(white);
    let s = arena::sweep_partial(w, b, a, dead, white, base::wide(from), 80);
    take_off(w, s.freed * size);
    s
}

// After the strings, the others from the first slot of the first arena.
fn move_strings(w: &mut [u32], c: SweepCursor, s: Swept)
    requires { (91 ≤ length w.old) × (s.next < 2 ^ 32) }
    ensures { w.new ≡ strings_moved c s w.old }
{
    if s.done {
        write_cursor(w, SweepCursor::start());
        base::put(w, layout::PHASE, 3);
    } else {
        write_cursor(w, c.advance(s.next as u32));
    }
}

// A batch of strings. It costs 10.
pub fn sweep_strings_step(w: &mut [u32], b: &mut [u8], l: Plan)
    requires l_in_bounds { (lay_of l.sizes).words ≤ length w.old }
    requires l_in_bounds_2 { (lay_of l.sizes).bytes ≤ length b.old }
    ensures { heap w.new b.new ≡ sweep_strings (lay_of l.sizes) (heap w.old b.old) }
{
    let c = read_cursor(w);
    let s = sweep_arena(w, b, layout::strings_of(l), 48, c.slot_position);
    move_strings(w, c, s);
}

// After the last arena the cursor stays where it was, and the phase is Finalize.
fn move_others(w: &mut [u32], c: SweepCursor, s: Swept)
    requires { (91 ≤ length w.old) × (s.next < 2 ^ 32) }
    ensures { w.new ≡ others_moved c s w.old }
{
    if s.done {
        if c.arena_index < 4 {
            write_cursor(w, c.next_arena());
        } else {
            base::put(w, layout::PHASE, 4);
        }
    } else {
        write_cursor(w, c.advance(s.next as u32));
    }
}

// A batch of the others. It costs 800.
pub fn sweep_other_step(w: &mut [u32], b: &mut [u8], l: Plan)
    requires l_in_bounds { (lay_of l.sizes).words ≤ length w.old }
    requires l_in_bounds_2 { (lay_of l.sizes).bytes ≤ length b.old }
    ensures { heap w.new b.new ≡ sweep_others (lay_of l.sizes) (heap w.old b.old) }
{
    let c = read_cursor(w);
    let k = c.arena_index;
    let s = sweep_arena(w, b, arena_at(l, k), size_at(k), c.slot_position);
    move_others(w, c, s);
}
