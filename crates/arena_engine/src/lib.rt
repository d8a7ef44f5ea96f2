// One arena for Rust or C to link: numbers and slices only. The arena lies from word 0 on: head, fresh index, count, then
// colours, generations, links, extents, then the bodies. Buffers that are too short for it are refused with 1.
#![tactic(auto)]

ghost use Rattle.std.specs.Prelude.{◌≡◌, length};
ghost use Rattle.base.specs.Heap.{heap};
ghost use Rattle.arena_engine.specs.Exports.{placed, Places, take_on, free_on, paint_on, sweep_on};

use arena::Arena;
use base::Refusal;

// An arena of `slots` slots, each with a body of `stride` words and `width` bytes.
fn place(
    words: usize,
    bytes: usize,
    slots: usize,
    stride: usize,
    width: usize,
) -> Result<Arena, Refusal>
    ensures { (result ≡ placed words bytes slots stride width) × Places result words bytes }
{
    if 4096 < slots {
        return Err(Refusal::Unfit);
    }
    if 1024 < stride {
        return Err(Refusal::Unfit);
    }
    if 64 < width {
        return Err(Refusal::Unfit);
    }
    if words < 3 + 4 * slots + slots * stride {
        return Err(Refusal::Unfit);
    }
    if bytes < slots * width {
        return Err(Refusal::Unfit);
    }
    Ok(Arena {
        top: 0,
        base: 3,
        slots,
        bodies: 3 + 4 * slots,
        stride,
        width,
    })
}

// A slot is taken with colour c, for a record of n words: 0, with index and generation in out; 3; 8; or 1.
#[unsafe(no_mangle)]
pub extern "C" fn sieddesan_arena_take(
    w: &mut [u32],
    b: &[u8],
    slots: usize,
    stride: usize,
    width: usize,
    c: u32,
    n: u32,
    out: &mut [u32],
) -> u32
    ensures { (result, heap w.new out.new) ≡ take_on (length b.now) slots stride width c n (heap w.old out.old) }
{
    if out.len() < 3 {
        return 1;
    }
    match place(w.len(), b.len(), slots, stride, width) {
        Ok(a) => arena_codes::take_in(w, a, c, n, out),
        Err(r) => r.number(),
    }
}

// The slot that a handle names is freed: 0; 2; or 1.
#[unsafe(no_mangle)]
pub extern "C" fn sieddesan_arena_free(
    w: &mut [u32],
    b: &mut [u8],
    slots: usize,
    stride: usize,
    width: usize,
    index: u32,
    generation: u32,
) -> u32
    ensures { (result, heap w.new b.new) ≡ free_on slots stride width index generation (heap w.old b.old) }
{
    match place(w.len(), b.len(), slots, stride, width) {
        Ok(a) => arena_codes::free_in(w, b, a, index, generation),
        Err(r) => r.number(),
    }
}

// The slot that a handle names takes colour c: 0; 2; or 1.
#[unsafe(no_mangle)]
pub extern "C" fn sieddesan_arena_paint(
    w: &mut [u32],
    b: &[u8],
    slots: usize,
    stride: usize,
    width: usize,
    index: u32,
    generation: u32,
    c: u32,
) -> u32
    ensures { (result, w.new) ≡ paint_on (length b.now) slots stride width index generation c w.old }
{
    match place(w.len(), b.len(), slots, stride, width) {
        Ok(a) => arena_codes::paint_in(w, a, index, generation, c),
        Err(r) => r.number(),
    }
}

// Slots are swept upward from start, until `most` occupied ones were seen: 0, with the answer in out; or 1.
#[unsafe(no_mangle)]
pub extern "C" fn sieddesan_arena_sweep(
    w: &mut [u32],
    b: &mut [u8],
    slots: usize,
    stride: usize,
    width: usize,
    dead: u32,
    white: u32,
    start: u32,
    most: u32,
    out: &mut [u32],
) -> u32
    ensures { (result, (heap w.new b.new, out.new)) ≡ sweep_on slots stride width dead white start most (heap w.old b.old, out.old) }
{
    if out.len() < 3 {
        return 1;
    }
    match place(w.len(), b.len(), slots, stride, width) {
        Ok(a) => arena_codes::sweep_in(w, b, a, dead, white, start, most, out),
        Err(r) => r.number(),
    }
}
