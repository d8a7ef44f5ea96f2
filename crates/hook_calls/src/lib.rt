// The call that gives a thread its hook function (document 01, module 5), with the forward barrier: 1 and 8 first, then 2 for a
// handle that names no thread, then 2 for a value that names nothing; 8 also where the barrier set the damage mark.
#![tactic(auto)]

ghost use Rattle.std.specs.Prelude.{◌≡◌, ◌+◌, ◌≤◌, length};
ghost use Rattle.layout.specs.Layout.{lay_of};
ghost use Rattle.base.specs.Heap.{heap};
ghost use Rattle.hook_calls.specs.HookCalls.{hook_at, thread_set_hook_in, thread_set_hook};

use base::Refusal;
use layout::Plan;
use value::{ThreadRef, Value};

// The hook function of thread t, whose record is at p; the value is marked if the thread is black.
fn set_hook_at(w: &mut [u32], l: Plan, t: ThreadRef, p: usize, v: Value) -> Result<(), Refusal>
    requires l_in_bounds { (lay_of l.sizes).words ≤ length w.old }
    requires p_in_bounds { p + 268 ≤ length w.old }
    ensures { (result, w.new) ≡ hook_at (lay_of l.sizes) t v p w.old }
{
    if !given::is_sound(w, l, v) {
        return Err(Refusal::Stale);
    }
    run_record::threads::set_thread_hook(w, p, v);
    let colour = mark::shade(w, layout::threads_of(l), t.0, t.1);
    propagate::barrier_forward(w, l, colour, v);
    Ok(())
}

fn set_hook_in(w: &mut [u32], l: Plan, t: ThreadRef, v: Value) -> Result<(), Refusal>
    requires l_in_bounds { (lay_of l.sizes).words ≤ length w.old }
    ensures { (result, w.new) ≡ thread_set_hook_in t v (lay_of l.sizes) w.old }
{
    let p = owners::thread_body(w, l, t).ok_or(Refusal::Stale)?;
    set_hook_at(w, l, t, p, v)
}

// The thread's hook function; 2 for a value that names nothing.
pub fn thread_set_hook(w: &mut [u32], b: &[u8], t: ThreadRef, v: Value) -> Result<(), Refusal>
    ensures { (result, heap w.new b.now) ≡ thread_set_hook t v (heap w.old b.now) }
{
    let l = test1::enter(w, b)?;
    let r = set_hook_in(w, l, t, v);
    given::unmarked(w, r)
}
