// The calls in numbers, for Rust or C: what a number given as a tag or as a presence stands for, and an answer as a code, 0 or
// the number of a refusal, with words lent for the rest. A number that stands for nothing is refused with 4, after 1 and 8.
#![tactic(auto)]

ghost use Rattle.std.specs.Prelude.{◌≡◌, ◌≤◌, length};
ghost use Rattle.base.specs.Heap.{heap};
ghost use Rattle.base.specs.Refusals.{number};
ghost use Rattle.given.specs.Answers.{served_number};
ghost use Rattle.told.specs.Numbers.{no_number, table_of};
ghost use Rattle.told.specs.Answers.{two, got_told};

use base::Refusal;
use value::{TableRef, Value};

// What a number that stands for nothing is answered.
pub fn no_number(w: &[u32], b: &[u8]) -> u32
    ensures { result ≡ number (no_number (heap w.now b.now)) }
{
    match test1::enter(w, b) {
        Ok(_) => Refusal::OutOfRange.number(),
        Err(n) => n.number(),
    }
}

// A table's handle that may be missing: 0 is none.
pub fn table_of(some: u32, index: u32, generation: u32) -> Option<TableRef>
    ensures { result ≡ table_of some index generation }
{
    if some == 0 {
        None
    } else {
        Some(TableRef(index, generation))
    }
}

// The code of a call that has nothing to tell.
pub fn code(a: Result<(), Refusal>) -> u32
    ensures { result ≡ served_number a }
{
    match a {
        Ok(()) => 0,
        Err(n) => n.number(),
    }
}

// Words 0 and 1 of an answer.
pub fn put_two(out: &mut [u32], x: u32, y: u32)
    requires { 2 ≤ length out.old }
    ensures { out.new ≡ two x y out.old }
{
    base::put(out, 0, x);
    base::put(out, 1, y);
}

// The code of a call that hands a value back, with the value in words 0 to 2.
pub fn tell_value(out: &mut [u32], a: Result<Value, Refusal>) -> u32
    requires { 3 ≤ length out.old }
    ensures { (result, out.new) ≡ got_told a out.old }
{
    match a {
        Ok(v) => {
            value::write_value(out, 0, v);
            0
        }
        Err(n) => n.number(),
    }
}
