// The calls that set a place or the top of a thread's stack (document 01, module 5). Each gives 1 and 8 first, then 2 for a
// handle that names no thread, then 4 and 2 as they apply, and changes nothing where it refuses.
#![tactic(auto)]

ghost use Rattle.std.specs.Prelude.{◌≡◌};
ghost use Rattle.base.specs.Heap.{heap};
ghost use Rattle.thread_set_calls.specs.ThreadSets.{thread_set, thread_set_top};

use base::Refusal;
use value::{ThreadRef, Value};

// A value in place i, also at or above the top: 4 past the stack's size, 2 for a value that names nothing.
pub fn thread_set(w: &mut [u32], b: &[u8], t: ThreadRef, i: u32, v: Value) -> Result<(), Refusal>
    ensures { (result, heap w.new b.now) ≡ thread_set t i v (heap w.old b.now) }
{
    let l = test1::enter(w, b)?;
    let p = owners::thread_body(w, l, t).ok_or(Refusal::Stale)?;
    let s = owners::thread_stack(w, p);
    stacks::set_value(w, l, s, i, v)
}

// The top is n, and places newly below it are nil; 4 past the stack's size.
pub fn thread_set_top(w: &mut [u32], b: &[u8], t: ThreadRef, n: u32) -> Result<(), Refusal>
    ensures { (result, heap w.new b.now) ≡ thread_set_top t n (heap w.old b.now) }
{
    let l = test1::enter(w, b)?;
    let p = owners::thread_body(w, l, t).ok_or(Refusal::Stale)?;
    let s = owners::thread_stack(w, p);
    stacks::set_height(w, s, n)
}
