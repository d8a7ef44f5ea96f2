// One arena of slots in the lent words (document 01, 'Slots and colours'): generations, colours, the chain of free slots,
// taking and freeing a slot, and the sweep. What the six arenas share is here, once, over the kind: an `Arena` says where
// the parts of one lie. All contents of the words are taken as they are; only the places must lie within the buffers.
#![tactic(auto)]

ghost use Rattle.std.specs.Prelude.{◌≡◌, ℕ, ◌+◌, ◌*◌, ◌<◌, ◌≤◌, max, length};
ghost use Rattle.base.specs.Heap.{heap};
ghost use Rattle.arena.specs.Slots.{Room, Wide, colour, set_colour, gen, set_gen, link, set_link, extent, set_extent, head, set_head, set_fresh, count, used, named, Within, tallied, occupied, clear_body, clear_text, aged, pushed, count_less, free_slot, freed, filled, no_room, take_head, take_fresh, take_slot, Taken, visit, sweep_partial};

use base::{Refusal, wide};

// Where the parts of one arena lie.
#[derive(Clone, Copy)]
pub struct Arena {
    // Three words of the header: the head of the chain, the fresh index, the count of occupied slots.
    pub top: usize,
    // Colours, generations, links and extents, one after the other, a word for each slot in each.
    pub base: usize,
    pub slots: usize,
    // The bodies, stride words for each slot.
    pub bodies: usize,
    pub stride: usize,
    // The bytes of a slot, from slot times width on: 64 for a string, else 0.
    pub width: usize,
}

// Why no slot is taken.
#[derive(Clone, Copy, PartialEq, Eq)]
pub enum Untaken {
    // Every slot is occupied.
    NoneFree,
    // The head or the fresh index names no free slot.
    Broken,
}

// A sweep on its way: how many occupied slots it may still see, and how many it freed.
#[derive(Clone, Copy)]
pub struct Sweep {
    pub left: usize,
    pub freed: usize,
}

// What a sweep did, where the next one starts, and whether it reached the end.
#[derive(Clone, Copy)]
pub struct Swept {
    pub freed: usize,
    pub next: usize,
    pub done: bool,
}

// An unknown colour is free, 0.
pub fn colour_of(w: &[u32], a: Arena, i: usize) -> u32
    requires room { Room a w.now }
    requires i_lt_slots { i < a.slots }
    ensures { result ≡ colour a i w.now }
{
    let at = a.base + i;
    let c = w[at];
    if c <= 4 { c } else { 0 }
}

pub fn set_colour(w: &mut [u32], a: Arena, i: usize, c: u32)
    requires room { Room a w.old }
    requires i_lt_slots { i < a.slots }
    ensures { w.new ≡ set_colour a i c w.old }
{
    let at = a.base + i;
    w[at] = c;
}

pub fn generation_of(w: &[u32], a: Arena, i: usize) -> u32
    requires room { Room a w.now }
    requires i_lt_slots { i < a.slots }
    ensures { result ≡ gen a i w.now }
{
    let at = a.base + a.slots + i;
    w[at]
}

// The slot after slot i in the chain: its index + 1, 0 for none.
pub fn link_of(w: &[u32], a: Arena, i: usize) -> u32
    requires room { Room a w.now }
    requires i_lt_slots { i < a.slots }
    ensures { result ≡ link a i w.now }
{
    let at = a.base + 2 * a.slots + i;
    w[at]
}

// How many words of slot i's body its record takes. One past the stride reads as 0.
pub fn extent_of(w: &[u32], a: Arena, i: usize) -> usize
    requires room { Room a w.now }
    requires i_lt_slots { i < a.slots }
    ensures { (result ≡ extent a i w.now) × (result ≤ a.stride) }
{
    let at = a.base + 3 * a.slots + i;
    let n = a.stride;
    base::within(base::get(w, at), n)
}

// The head of the chain: a slot's index + 1, 0 for none.
pub fn head_of(w: &[u32], a: Arena) -> u32
    requires { Room a w.now }
    ensures { result ≡ head a w.now }
{
    let at = a.top;
    w[at]
}

// The stored count of occupied slots.
pub fn count_of(w: &[u32], a: Arena) -> u32
    requires { Room a w.now }
    ensures { result ≡ count a w.now }
{
    let at = a.top + 2;
    w[at]
}

// The end of the slots: the fresh index. No index from there on names a slot.
pub fn used_of(w: &[u32], a: Arena) -> usize
    requires { Room a w.now }
    ensures { (result ≡ used a w.now) × (result ≤ a.slots) }
{
    let at = a.top + 1;
    wide(w[at]).min(a.slots)
}

// The occupied slot below the fresh index that a handle names. This is the one place that tests a handle.
pub fn name_of(w: &[u32], a: Arena, index: u32, generation: u32) -> Option<usize>
    requires { Room a w.now }
    ensures { (result ≡ named a index generation w.now) × Within result a.slots }
{
    let i = wide(index);
    if i < used_of(w, a) && generation_of(w, a, i) == generation && colour_of(w, a, i) != 0 {
        Some(i)
    } else {
        None
    }
}

// One turn of the count below: a slot that is not free is one more.
fn tally(w: &[u32], a: Arena, i: usize, n: usize) -> usize
    requires room { Room a w.now }
    requires i_lt_slots { (i < a.slots) × (n ≤ i) }
    ensures { (result ≡ tallied a w.now i n) × (result ≤ i + 1) }
{
    if colour_of(w, a, i) == 0 {
        return n;
    }
    n + 1
}

// How many slots below the fresh index are occupied, by their colours.
pub fn occupied_of(w: &[u32], a: Arena) -> usize
    requires { Room a w.now }
    ensures { result ≡ occupied a w.now }
{
    let end = used_of(w, a);
    let mut n: usize = 0;
    for i in 0..end {
        n = tally(w, a, i, n);
    }
    n
}

// The record of slot i, as sized, is made 0.
fn clear_body(w: &mut [u32], a: Arena, i: usize)
    requires room { Room a w.old }
    requires i_lt_slots { i < a.slots }
    ensures { w.new ≡ clear_body a i w.old }
{
    let n = extent_of(w, a, i);
    let body = a.bodies + i * a.stride;
    base::clear_words(w, body, n);
}

// The bytes of slot i are made 0.
fn clear_text(b: &mut [u8], a: Arena, i: usize)
    requires wide { Wide a b.old }
    requires i_lt_slots { i < a.slots }
    ensures { b.new ≡ clear_text a i b.old }
{
    let n = a.width;
    let text = i * n;
    base::clear_bytes(b, text, n);
}

// Slot i has no record, its generation is one more, modulo 2^32, and its colour is free.
fn age_slot(w: &mut [u32], a: Arena, i: usize)
    requires room { Room a w.old }
    requires i_lt_slots { i < a.slots }
    ensures { w.new ≡ set_colour a i 0 (aged a i (set_extent a i 0 w.old)) }
{
    let size = a.base + 3 * a.slots + i;
    let at = a.base + a.slots + i;
    let paint = a.base + i;
    w[size] = 0;
    w[at] = w[at].wrapping_add(1);
    w[paint] = 0;
}

// Slot i becomes the head of the chain, and one slot less is occupied.
fn push_slot(w: &mut [u32], a: Arena, i: usize)
    requires room { Room a w.old }
    requires i_lt_slots { i < a.slots }
    ensures { w.new ≡ count_less a (pushed a i w.old) }
{
    let at = a.base + 2 * a.slots + i;
    let top = a.top;
    let count = a.top + 2;
    w[at] = w[top];
    w[top] = i as u32 + 1;
    w[count] = base::count_down(w[count]);
}

// Slot i is freed. This is the one place that frees.
pub fn free_slot(w: &mut [u32], b: &mut [u8], a: Arena, i: usize)
    requires room { Room a w.old }
    requires wide { Wide a b.old }
    requires i_lt_slots { i < a.slots }
    ensures { heap w.new b.new ≡ free_slot a i (heap w.old b.old) }
{
    clear_body(w, a, i);
    clear_text(b, a, i);
    age_slot(w, a, i);
    push_slot(w, a, i);
}

// The slot that a handle names is freed; a handle that names none is refused with 2.
pub fn free(
    w: &mut [u32],
    b: &mut [u8],
    a: Arena,
    index: u32,
    generation: u32,
) -> Result<(), Refusal>
    requires room { Room a w.old }
    requires wide { Wide a b.old }
    ensures { (result, heap w.new b.new) ≡ freed a index generation (heap w.old b.old) }
{
    match name_of(w, a, index, generation) {
        Some(i) => {
            free_slot(w, b, a, i);
            Ok(())
        }
        None => Err(Refusal::Stale),
    }
}

// Slot i is occupied, with colour c and a record of n words.
fn fill_slot(w: &mut [u32], a: Arena, i: usize, c: u32, n: u32)
    requires room { Room a w.old }
    requires i_lt_slots { i < a.slots }
    ensures { w.new ≡ filled a i c n w.old }
{
    let paint = a.base + i;
    let size = a.base + 3 * a.slots + i;
    let count = a.top + 2;
    w[paint] = c;
    w[size] = n;
    w[count] = base::count_up(w[count]);
}

// Slot i, the head, leaves the chain. Its generation is the answer.
fn pop_slot(w: &mut [u32], a: Arena, i: usize) -> u32
    requires room { Room a w.old }
    requires i_lt_slots { i < a.slots }
    ensures { (result ≡ gen a i w.old) × (w.new ≡ set_link a i 0 (set_head a (link a i w.old) w.old)) }
{
    let at = a.base + 2 * a.slots + i;
    let top = a.top;
    let age = a.base + a.slots + i;
    let g = w[age];
    w[top] = w[at];
    w[at] = 0;
    g
}

// Slot i, the fresh index, begins at generation 0.
fn open_slot(w: &mut [u32], a: Arena, i: usize)
    requires room { Room a w.old }
    requires i_lt_slots { i < a.slots }
    ensures { w.new ≡ set_gen a i 0 (set_fresh a (i + 1) w.old) }
{
    let next = a.top + 1;
    let at = a.base + a.slots + i;
    w[next] = i as u32 + 1;
    w[at] = 0;
}

// No slot was found: every slot is occupied, or the words are damaged. This is the one place that decides "no room".
fn no_room(w: &[u32], a: Arena) -> Result<(usize, u32), Untaken>
    requires { Room a w.now }
    ensures { (result ≡ no_room a w.now) × Taken result a.slots }
{
    if occupied_of(w, a) < a.slots {
        Err(Untaken::Broken)
    } else {
        Err(Untaken::NoneFree)
    }
}

// The head is taken, if it names a free slot.
fn take_head(w: &mut [u32], a: Arena, i: usize, c: u32, n: u32) -> Result<(usize, u32), Untaken>
    requires { Room a w.old }
    ensures { ((result, w.new) ≡ take_head a i c n w.old) × Taken result a.slots }
{
    if used_of(w, a) <= i {
        return no_room(w, a);
    }
    if 0 < colour_of(w, a, i) {
        return no_room(w, a);
    }
    let g = pop_slot(w, a, i);
    fill_slot(w, a, i, c, n);
    Ok((i, g))
}

// The next fresh index is taken, if it names a free slot.
fn take_fresh(w: &mut [u32], a: Arena, i: usize, c: u32, n: u32) -> Result<(usize, u32), Untaken>
    requires { Room a w.old }
    ensures { ((result, w.new) ≡ take_fresh a i c n w.old) × Taken result a.slots }
{
    let slots = a.slots;
    if slots <= i {
        return no_room(w, a);
    }
    if 0 < colour_of(w, a, i) {
        return no_room(w, a);
    }
    open_slot(w, a, i);
    fill_slot(w, a, i, c, n);
    Ok((i, 0))
}

// A slot is taken for a record of n words, with colour c: the head of the chain, else the next fresh index.
pub fn take_slot(w: &mut [u32], a: Arena, c: u32, n: u32) -> Result<(usize, u32), Untaken>
    requires { Room a w.old }
    ensures { ((result, w.new) ≡ take_slot a c n w.old) × Taken result a.slots }
{
    let top = a.top;
    let h = wide(w[top]);
    if 0 < h {
        return take_head(w, a, h - 1, c, n);
    }
    let fresh = a.top + 1;
    let f = wide(w[fresh]);
    take_fresh(w, a, f, c, n)
}

// One slot is visited by a sweep: a free one is passed, an old-white one is freed, another takes the new white.
fn visit_slot(
    w: &mut [u32],
    b: &mut [u8],
    a: Arena,
    dead: u32,
    white: u32,
    i: usize,
    s: Sweep,
) -> Sweep
    requires room { Room a w.old }
    requires wide { Wide a b.old }
    requires i_lt_slots { (i < a.slots) × (0 < s.left) × (s.freed ≤ i) }
    ensures does { (result, heap w.new b.new) ≡ visit a dead white i s (heap w.old b.old) }
    ensures small { result.freed ≤ i + 1 }
{
    let at = a.base + i;
    let c = colour_of(w, a, i);
    if c == 0 {
        return s;
    }
    if c == dead {
        free_slot(w, b, a, i);
        return Sweep {
            left: s.left - 1,
            freed: s.freed + 1,
        };
    }
    w[at] = white;
    Sweep {
        left: s.left - 1,
        freed: s.freed,
    }
}

// Slots are visited upward from start, until `most` occupied ones were seen or the end, the fresh index.
pub fn sweep_partial(
    w: &mut [u32],
    b: &mut [u8],
    a: Arena,
    dead: u32,
    white: u32,
    start: usize,
    most: usize,
) -> Swept
    requires room { Room a w.old }
    requires wide { Wide a b.old }
    ensures does { (result, heap w.new b.new) ≡ sweep_partial a dead white start most (heap w.old b.old) }
    ensures small { (result.freed ≤ a.slots) × (result.next ≤ max start a.slots) }
{
    let end = used_of(w, a);
    let mut s = Sweep {
        left: most,
        freed: 0,
    };
    for i in start..end {
        if s.left == 0 {
            return Swept {
                freed: s.freed,
                next: i,
                done: false,
            };
        }
        s = visit_slot(w, b, a, dead, white, i, s);
    }
    Swept {
        freed: s.freed,
        next: start.max(end),
        done: true,
    }
}
