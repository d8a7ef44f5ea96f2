// Reads of the header and of the slots, for Rust or C. Each lends four words or more for the answer, whose first says which
// kind it is (crates/codes, `words_of`), and answers 0, 1, 8 or 4; a refusal leaves the words as they were. A question is
// given by its number (crates/asked, specs/Header.antt), with an index that only some questions look at.
ghost use Rattle.std.specs.Prelude.{◌≡◌};
ghost use Rattle.base.specs.Heap.{heap};
ghost use Rattle.codes.specs.Answers.{told};
ghost use Rattle.reads.specs.Reads.{read_out};
ghost use Rattle.asked.specs.Header.{ask_counter, ask_size, ask_root, ask_main, ask_list, ask_arena};

use asked::header::{ask_arena, ask_counter, ask_list, ask_main, ask_root, ask_size};
use codes::tell;

// A counter, setting or mark.
#[unsafe(no_mangle)]
pub extern "C" fn sieddesan_read_counter(w: &[u32], b: &[u8], counter: u32, out: &mut [u32]) -> u32
    ensures { (result, out.new) ≡ told (ask_counter counter (heap w.now b.now)) out.old }
{
    tell(out, ask_counter(w, b, counter))
}

// One of the ten sizes.
#[unsafe(no_mangle)]
pub extern "C" fn sieddesan_read_size(w: &[u32], b: &[u8], size: u32, out: &mut [u32]) -> u32
    ensures { (result, out.new) ≡ told (ask_size size (heap w.now b.now)) out.old }
{
    tell(out, ask_size(w, b, size))
}

// The userdata whose finalizer is out.
#[unsafe(no_mangle)]
pub extern "C" fn sieddesan_read_out(w: &[u32], b: &[u8], out: &mut [u32]) -> u32
    ensures { (result, out.new) ≡ told (read_out (heap w.now b.now)) out.old }
{
    tell(out, reads::read_out(w, b))
}

// A root that is a handle.
#[unsafe(no_mangle)]
pub extern "C" fn sieddesan_read_root(
    w: &[u32],
    b: &[u8],
    root: u32,
    index: u32,
    out: &mut [u32],
) -> u32
    ensures { (result, out.new) ≡ told (ask_root root index (heap w.now b.now)) out.old }
{
    tell(out, ask_root(w, b, root, index))
}

// A field of the main record.
#[unsafe(no_mangle)]
pub extern "C" fn sieddesan_read_main(
    w: &[u32],
    b: &[u8],
    field: u32,
    index: u32,
    out: &mut [u32],
) -> u32
    ensures { (result, out.new) ≡ told (ask_main field index (heap w.now b.now)) out.old }
{
    tell(out, ask_main(w, b, field, index))
}

// A working list: its length, or an item.
#[unsafe(no_mangle)]
pub extern "C" fn sieddesan_read_list(
    w: &[u32],
    b: &[u8],
    list: u32,
    field: u32,
    index: u32,
    out: &mut [u32],
) -> u32
    ensures { (result, out.new) ≡ told (ask_list list field index (heap w.now b.now)) out.old }
{
    tell(out, ask_list(w, b, list, field, index))
}

// What an arena keeps beside its bodies.
#[unsafe(no_mangle)]
pub extern "C" fn sieddesan_read_arena(
    w: &[u32],
    b: &[u8],
    kind: u32,
    field: u32,
    index: u32,
    out: &mut [u32],
) -> u32
    ensures { (result, out.new) ≡ told (ask_arena kind field index (heap w.now b.now)) out.old }
{
    tell(out, ask_arena(w, b, kind, field, index))
}
