// The calls that make an upvalue or a thread (document 01, 'Sizes'). Each gives 1 and 8 first, then the refusals of its row in
// their order, and changes nothing that way; damage found on the way is marked, and is 8.
#![tactic(auto)]

ghost use Rattle.std.specs.Prelude.{◌≡◌, ◌≤◌, length};
ghost use Rattle.layout.specs.Layout.{lay_of};
ghost use Rattle.base.specs.Heap.{heap};
ghost use Rattle.make_threads.specs.Making.{new_upvalue, make_open_upvalue, closed_in, make_closed_upvalue, new_thread, thread_in, make_thread};

use base::Refusal;
use layout::Plan;
use making::Made;
use value::{TableRef, ThreadRef, UpvalRef, Value};

fn new_upvalue(w: &mut [u32], l: Plan, closed: bool, v: Value) -> Result<Made, Refusal>
    requires l_in_bounds { (lay_of l.sizes).words ≤ length w.old }
    ensures { (result, w.new) ≡ new_upvalue closed v (lay_of l.sizes) w.old }
{
    let (i, g, p) = making::new_object(
        w,
        layout::upvalues_of(l),
        making::UPVALUE,
        layout::UPVALUE_WORDS,
    )?;
    run_record::upvalues::set_closed(w, p, closed);
    run_record::upvalues::set_upvalue_value(w, p, v);
    Ok(Made::Upvalue(UpvalRef(i, g)))
}

// An open upvalue. Its stack index stays with the host.
pub fn make_open_upvalue(w: &mut [u32], b: &[u8]) -> Result<Made, Refusal>
    ensures { (result, heap w.new b.now) ≡ make_open_upvalue (heap w.old b.now) }
{
    let l = test1::enter(w, b)?;
    new_upvalue(w, l, false, Value::Nil)
}

fn closed_in(w: &mut [u32], l: Plan, v: Value) -> Result<Made, Refusal>
    requires l_in_bounds { (lay_of l.sizes).words ≤ length w.old }
    ensures { (result, w.new) ≡ closed_in v (lay_of l.sizes) w.old }
{
    if given::is_sound(w, l, v) {
        new_upvalue(w, l, true, v)
    } else {
        Err(Refusal::Stale)
    }
}

// A closed upvalue with its value.
pub fn make_closed_upvalue(w: &mut [u32], b: &[u8], v: Value) -> Result<Made, Refusal>
    ensures { (result, heap w.new b.now) ≡ make_closed_upvalue v (heap w.old b.now) }
{
    let l = test1::enter(w, b)?;
    closed_in(w, l, v)
}

fn new_thread(w: &mut [u32], l: Plan, global: TableRef, stack: usize) -> Result<Made, Refusal>
    requires l_in_bounds { (lay_of l.sizes).words ≤ length w.old }
    requires stack_bound { stack ≤ 64 }
    ensures { (result, w.new) ≡ new_thread global stack (lay_of l.sizes) w.old }
{
    let n = run_record::threads::thread_extent(stack);
    let (i, g, p) = making::new_object(w, layout::threads_of(l), making::THREAD, n)?;
    run_record::threads::set_thread_global(w, p, Some(global));
    run_record::threads::set_thread_size(w, p, stack);
    Ok(Made::Thread(ThreadRef(i, g)))
}

fn thread_in(w: &mut [u32], l: Plan, global: TableRef, stack: u32) -> Result<Made, Refusal>
    requires l_in_bounds { (lay_of l.sizes).words ≤ length w.old }
    ensures { (result, w.new) ≡ thread_in global stack (lay_of l.sizes) w.old }
{
    if 64 < stack {
        return Err(Refusal::OutOfRange);
    }
    if given::is_table(w, l, global) {
        new_thread(w, l, global, base::wide(stack))
    } else {
        Err(Refusal::Stale)
    }
}

// A thread with its global and a stack of so many places, all nil, with top 0, no hook, no error and no upvalues.
pub fn make_thread(w: &mut [u32], b: &[u8], global: TableRef, stack: u32) -> Result<Made, Refusal>
    ensures { (result, heap w.new b.now) ≡ make_thread global stack (heap w.old b.now) }
{
    let l = test1::enter(w, b)?;
    thread_in(w, l, global, stack)
}
