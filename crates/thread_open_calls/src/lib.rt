// The calls that change a thread's open upvalues (document 01, module 5). Each gives 1 and 8 first, then 2 for a handle that
// names no thread, then 4 and 2 as they apply, and changes nothing where it refuses.
#![tactic(auto)]

ghost use Rattle.std.specs.Prelude.{◌≡◌};
ghost use Rattle.base.specs.Heap.{heap};
ghost use Rattle.thread_open_calls.specs.ThreadOpens.{thread_open_push, thread_open_cut};

use base::Refusal;
use value::{ThreadRef, UpvalRef};

// An upvalue at the end of the open list: 4 for a full one, 2 for a handle that names nothing.
pub fn thread_open_push(w: &mut [u32], b: &[u8], t: ThreadRef, u: UpvalRef) -> Result<(), Refusal>
    ensures { (result, heap w.new b.now) ≡ thread_open_push t u (heap w.old b.now) }
{
    let l = test1::enter(w, b)?;
    let p = owners::thread_body(w, l, t).ok_or(Refusal::Stale)?;
    let s = owners::thread_opens(w, p);
    upvalue_lists::push_upvalue(w, l, s, u)
}

// The first n open upvalues stay; 4 for more than there are.
pub fn thread_open_cut(w: &mut [u32], b: &[u8], t: ThreadRef, n: u32) -> Result<(), Refusal>
    ensures { (result, heap w.new b.now) ≡ thread_open_cut t n (heap w.old b.now) }
{
    let l = test1::enter(w, b)?;
    let p = owners::thread_body(w, l, t).ok_or(Refusal::Stale)?;
    let s = owners::thread_opens(w, p);
    upvalue_lists::cut_upvalues(w, s, n)
}
