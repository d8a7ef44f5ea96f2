// Reads of the fields of objects, for Rust or C, as those of the header: a field is given by its number (crates/asked,
// specs/Objects.antt), with a place that only some fields look at, and the object by its handle. Each answers 0, 1, 8, 4 for
// a number that names no field, 2 for a handle that names no occupied slot, or 4 for a place outside its range.
ghost use Rattle.std.specs.Prelude.{◌≡◌};
ghost use Rattle.base.specs.Heap.{heap};
ghost use Rattle.codes.specs.Answers.{told};
ghost use Rattle.asked.specs.Objects.{ask_string, ask_table, ask_closure, ask_upvalue, ask_userdata, ask_thread, ask_proto};

use asked::objects::{
    ask_closure, ask_proto, ask_string, ask_table, ask_thread, ask_upvalue, ask_userdata,
};
use codes::tell;

// A field of a string: its length, or a byte.
#[unsafe(no_mangle)]
pub extern "C" fn sieddesan_read_string(
    w: &[u32],
    b: &[u8],
    index: u32,
    generation: u32,
    field: u32,
    at: u32,
    out: &mut [u32],
) -> u32
    ensures { (result, out.new) ≡ told (ask_string index generation field at (heap w.now b.now)) out.old }
{
    tell(out, ask_string(w, b, index, generation, field, at))
}

// A field of a table.
#[unsafe(no_mangle)]
pub extern "C" fn sieddesan_read_table(
    w: &[u32],
    b: &[u8],
    index: u32,
    generation: u32,
    field: u32,
    at: u32,
    out: &mut [u32],
) -> u32
    ensures { (result, out.new) ≡ told (ask_table index generation field at (heap w.now b.now)) out.old }
{
    tell(out, ask_table(w, b, index, generation, field, at))
}

// A field of a closure.
#[unsafe(no_mangle)]
pub extern "C" fn sieddesan_read_closure(
    w: &[u32],
    b: &[u8],
    index: u32,
    generation: u32,
    field: u32,
    at: u32,
    out: &mut [u32],
) -> u32
    ensures { (result, out.new) ≡ told (ask_closure index generation field at (heap w.now b.now)) out.old }
{
    tell(out, ask_closure(w, b, index, generation, field, at))
}

// A field of an upvalue.
#[unsafe(no_mangle)]
pub extern "C" fn sieddesan_read_upvalue(
    w: &[u32],
    b: &[u8],
    index: u32,
    generation: u32,
    field: u32,
    out: &mut [u32],
) -> u32
    ensures { (result, out.new) ≡ told (ask_upvalue index generation field (heap w.now b.now)) out.old }
{
    tell(out, ask_upvalue(w, b, index, generation, field))
}

// A field of a userdata.
#[unsafe(no_mangle)]
pub extern "C" fn sieddesan_read_userdata(
    w: &[u32],
    b: &[u8],
    index: u32,
    generation: u32,
    field: u32,
    out: &mut [u32],
) -> u32
    ensures { (result, out.new) ≡ told (ask_userdata index generation field (heap w.now b.now)) out.old }
{
    tell(out, ask_userdata(w, b, index, generation, field))
}

// A field of a thread.
#[unsafe(no_mangle)]
pub extern "C" fn sieddesan_read_thread(
    w: &[u32],
    b: &[u8],
    index: u32,
    generation: u32,
    field: u32,
    at: u32,
    out: &mut [u32],
) -> u32
    ensures { (result, out.new) ≡ told (ask_thread index generation field at (heap w.now b.now)) out.old }
{
    tell(out, ask_thread(w, b, index, generation, field, at))
}

// A field of a prototype, which is named by its number; 4 for a number that is not used.
#[unsafe(no_mangle)]
pub extern "C" fn sieddesan_read_proto(
    w: &[u32],
    b: &[u8],
    number: u32,
    field: u32,
    at: u32,
    out: &mut [u32],
) -> u32
    ensures { (result, out.new) ≡ told (ask_proto number field at (heap w.now b.now)) out.old }
{
    tell(out, ask_proto(w, b, number, field, at))
}
