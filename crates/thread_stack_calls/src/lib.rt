// The calls that push onto a thread's stack and pop from it (document 01, module 5). Each gives 1 and 8 first, then 2 for a
// handle that names no thread, then 5, 4 and 2 as they apply, and changes nothing where it refuses.
#![tactic(auto)]

ghost use Rattle.std.specs.Prelude.{◌≡◌};
ghost use Rattle.base.specs.Heap.{heap};
ghost use Rattle.thread_stack_calls.specs.ThreadStacks.{thread_push, thread_pop};

use base::Refusal;
use value::{ThreadRef, Value};

// A value on top of the thread's stack: 4 for a full one, 2 for a value that names nothing.
pub fn thread_push(w: &mut [u32], b: &[u8], t: ThreadRef, v: Value) -> Result<(), Refusal>
    ensures { (result, heap w.new b.now) ≡ thread_push t v (heap w.old b.now) }
{
    let l = test1::enter(w, b)?;
    let p = owners::thread_body(w, l, t).ok_or(Refusal::Stale)?;
    let s = owners::thread_stack(w, p);
    stacks::push_value(w, l, s, v)
}

// The value on top, which stays where it is; 5 for an empty stack.
pub fn thread_pop(w: &mut [u32], b: &[u8], t: ThreadRef) -> Result<Value, Refusal>
    ensures { (result, heap w.new b.now) ≡ thread_pop t (heap w.old b.now) }
{
    let l = test1::enter(w, b)?;
    let p = owners::thread_body(w, l, t).ok_or(Refusal::Stale)?;
    let s = owners::thread_stack(w, p);
    stacks::pop_value(w, s)
}
