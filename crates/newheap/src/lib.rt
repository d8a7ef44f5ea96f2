// A new heap (document 01, 'Sizes'): one call makes it in two lent buffers with chosen sizes. It tests the sizes (4), then
// the lengths (1), nothing else; it zeroes what the heap needs and writes what is not 0. The rest of longer buffers is
// untouched.
#![tactic(auto)]

ghost use Rattle.std.specs.Prelude.{◌≡◌, ℕ, ◌+◌, ◌*◌, ◌≤◌, ◌<◌, length};
ghost use Rattle.base.specs.Words.{put};
ghost use Rattle.base.specs.Heap.{heap};
ghost use Rattle.layout.specs.Fits.{Fits};
ghost use Rattle.newheap.specs.New.{arena_sizes, main_sizes, settings, counters, roots, two_marks, two_extents, lengths, table_sizes, names, tables, fields, new_words, mode_text, gc_text, new_bytes, new_heap, make_heap};

use arena::Arena;
use base::{Refusal, put};
use layout::{Lay, Sizes};

// A size at its place.
fn put_size(w: &mut [u32], p: usize, n: usize)
    requires { (p < length w.old) × (n ≤ 4096) }
    ensures { w.new ≡ put p n w.old }
{
    w[p] = n as u32;
}

fn put_arena_sizes(w: &mut [u32], l: Lay)
    requires ok { Fits l l.words l.bytes }
    requires words_in_bounds { l.words ≤ length w.old }
    ensures { w.new ≡ arena_sizes l w.old }
{
    put_size(w, 0, l.strings.slots);
    put_size(w, 1, l.tables.slots);
    put_size(w, 2, l.functions.slots);
    put_size(w, 3, l.upvalues.slots);
    put_size(w, 4, l.userdata.slots);
    put_size(w, 5, l.threads.slots);
}

fn put_main_sizes(w: &mut [u32], l: Lay)
    requires ok { Fits l l.words l.bytes }
    requires words_in_bounds { l.words ≤ length w.old }
    ensures { w.new ≡ main_sizes l w.old }
{
    put_size(w, 6, l.protos.room);
    put_size(w, 7, l.stack.room);
    put_size(w, 8, l.opens.room);
    put_size(w, 9, l.frames.room);
}

fn put_settings(w: &mut [u32])
    requires { 91 ≤ length w.old }
    ensures { w.new ≡ settings w.old }
{
    put(w, layout::LIMIT, 4294967295);
    put(w, layout::LIMIT + 1, 4294967295);
    put(w, layout::PAUSE, 200);
    put(w, layout::STEPMUL, 200);
}

fn put_counters(w: &mut [u32])
    requires { 91 ≤ length w.old }
    ensures { w.new ≡ counters w.old }
{
    put(w, layout::WHITE, 1);
    put(w, layout::TOTAL, 224);
    put(w, layout::PEAK, 224);
    put(w, layout::THRESHOLD, 65536);
    put(w, layout::DEBT + 1, 2147483648);
}

fn put_roots(w: &mut [u32])
    requires { 91 ≤ length w.old }
    ensures { w.new ≡ roots w.old }
{
    put(w, layout::GLOBAL, 1);
    put(w, layout::REGISTRY, 2);
    put(w, layout::NAME_MODE, 1);
    put(w, layout::NAME_GC, 2);
}

// Slots 0 and 1 of an arena are in use.
fn put_two_marks(w: &mut [u32], a: Arena)
    requires { (a.top + 3 ≤ a.base) × (a.base + 2 ≤ length w.old) }
    ensures { w.new ≡ two_marks a w.old }
{
    put(w, a.top + 1, 2);
    put(w, a.top + 2, 2);
    put(w, a.base, 1);
    put(w, a.base + 1, 1);
}

// Each has a record of n words.
fn put_two_extents(w: &mut [u32], a: Arena, n: u32)
    requires { (2 ≤ a.slots) × (a.slots ≤ 4096) × (a.base + 4 * a.slots ≤ length w.old) }
    ensures { w.new ≡ two_extents a n w.old }
{
    let at = a.base + 3 * a.slots;
    put(w, at, n);
    put(w, at + 1, n);
}

fn put_lengths(w: &mut [u32], a: Arena)
    requires { a.bodies + 2 ≤ length w.old }
    ensures { w.new ≡ lengths a w.old }
{
    put(w, a.bodies, 6);
    put(w, a.bodies + 1, 4);
}

fn put_table_sizes(w: &mut [u32], a: Arena)
    requires { a.bodies + 1160 ≤ length w.old }
    ensures { w.new ≡ table_sizes a w.old }
{
    put(w, a.bodies + 2, 8);
    put(w, a.bodies + 3, 8);
    put(w, a.bodies + layout::TABLE_WORDS + 2, 8);
    put(w, a.bodies + layout::TABLE_WORDS + 3, 8);
}

// Both names and both tables.
fn put_names(w: &mut [u32], l: Lay)
    requires ok { Fits l l.words l.bytes }
    requires words_in_bounds { l.words ≤ length w.old }
    ensures { w.new ≡ names l w.old }
{
    put_two_marks(w, l.strings);
    put_two_extents(w, l.strings, 1);
    put_lengths(w, l.strings);
}

fn put_tables(w: &mut [u32], l: Lay)
    requires ok { Fits l l.words l.bytes }
    requires words_in_bounds { l.words ≤ length w.old }
    ensures { w.new ≡ tables l w.old }
{
    put_two_marks(w, l.tables);
    put_two_extents(w, l.tables, 76);
    put_table_sizes(w, l.tables);
}

// What is not 0 of a heap with no object.
fn put_fields(w: &mut [u32], l: Lay)
    requires ok { Fits l l.words l.bytes }
    requires words_in_bounds { l.words ≤ length w.old }
    ensures { w.new ≡ fields l w.old }
{
    put_arena_sizes(w, l);
    put_main_sizes(w, l);
    put_settings(w);
    put_counters(w);
    put_roots(w);
}

fn put_words(w: &mut [u32], l: Lay)
    requires ok { Fits l l.words l.bytes }
    requires words_in_bounds { l.words ≤ length w.old }
    ensures { w.new ≡ new_words l w.old }
{
    base::clear_words(w, 0, l.words);
    put_fields(w, l);
    put_names(w, l);
    put_tables(w, l);
}

fn put_byte(b: &mut [u8], p: usize, x: u8)
    requires { p < length b.old }
    ensures { b.new ≡ put p x b.old }
{
    b[p] = x;
}

fn put_mode_text(b: &mut [u8])
    requires { 128 ≤ length b.old }
    ensures { b.new ≡ mode_text b.old }
{
    put_byte(b, 0, b'_');
    put_byte(b, 1, b'_');
    put_byte(b, 2, b'm');
    put_byte(b, 3, b'o');
    put_byte(b, 4, b'd');
    put_byte(b, 5, b'e');
}

fn put_gc_text(b: &mut [u8])
    requires { 128 ≤ length b.old }
    ensures { b.new ≡ gc_text b.old }
{
    put_byte(b, 64, b'_');
    put_byte(b, 65, b'_');
    put_byte(b, 66, b'g');
    put_byte(b, 67, b'c');
}

fn put_bytes(b: &mut [u8], l: Lay)
    requires { (128 ≤ l.bytes) × (l.bytes ≤ length b.old) }
    ensures { b.new ≡ new_bytes l b.old }
{
    base::clear_bytes(b, 0, l.bytes);
    put_mode_text(b);
    put_gc_text(b);
}

// A heap of chosen sizes in the two lent buffers.
pub fn make_heap(w: &mut [u32], b: &mut [u8], s: Sizes) -> Result<(), Refusal>
    ensures { (result, heap w.new b.new) ≡ make_heap s (heap w.old b.old) }
{
    let z = layout::plan(s)?;
    let l = layout::lay_of(z);
    if w.len() < l.words {
        return Err(Refusal::Unfit);
    }
    if b.len() < l.bytes {
        return Err(Refusal::Unfit);
    }
    put_words(w, l);
    put_bytes(b, l);
    Ok(())
}
