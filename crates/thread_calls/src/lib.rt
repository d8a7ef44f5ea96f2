// The calls that give a thread its global table and its error value (document 01, module 5). Each gives 1 and 8 first, then 2 for
// a handle that names no thread, then 2 for what is given to store, and changes nothing where it refuses.
#![tactic(auto)]

ghost use Rattle.std.specs.Prelude.{◌≡◌, ◌+◌, ◌≤◌, length};
ghost use Rattle.layout.specs.Layout.{lay_of};
ghost use Rattle.base.specs.Heap.{heap};
ghost use Rattle.thread_calls.specs.ThreadCalls.{global_at, thread_set_global, thread_set_error};

use base::Refusal;
use layout::Plan;
use value::{TableRef, ThreadRef, Value};

// The global table of the thread whose record is at p.
fn set_global_at(w: &mut [u32], l: Plan, p: usize, g: TableRef) -> Result<(), Refusal>
    requires l_in_bounds { (lay_of l.sizes).words ≤ length w.old }
    requires p_in_bounds { p + 268 ≤ length w.old }
    ensures { (result, w.new) ≡ global_at (lay_of l.sizes) g p w.old }
{
    if !given::is_table(w, l, g) {
        return Err(Refusal::Stale);
    }
    run_record::threads::set_thread_global(w, p, Some(g));
    Ok(())
}

// The thread's global table; 2 for a handle that names nothing.
pub fn thread_set_global(w: &mut [u32], b: &[u8], t: ThreadRef, g: TableRef) -> Result<(), Refusal>
    ensures { (result, heap w.new b.now) ≡ thread_set_global t g (heap w.old b.now) }
{
    let l = test1::enter(w, b)?;
    let p = owners::thread_body(w, l, t).ok_or(Refusal::Stale)?;
    set_global_at(w, l, p, g)
}

// The thread's error value, which no traversal follows; 2 for a value that names nothing.
pub fn thread_set_error(w: &mut [u32], b: &[u8], t: ThreadRef, v: Value) -> Result<(), Refusal>
    ensures { (result, heap w.new b.now) ≡ thread_set_error t v (heap w.old b.now) }
{
    let l = test1::enter(w, b)?;
    let p = owners::thread_body(w, l, t).ok_or(Refusal::Stale)?;
    stacks::store_value(w, l, p + 5, v)
}
