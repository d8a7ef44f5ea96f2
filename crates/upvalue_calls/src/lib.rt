// The calls that close an upvalue over a value, or set a closed one (document 01, module 5). Each gives 1 and 8 first, then 5, then
// 2, and changes nothing where it refuses. The forward barrier follows the store; where it set the damage mark the answer is 8.
#![tactic(auto)]

ghost use Rattle.std.specs.Prelude.{◌≡◌, ◌+◌, ◌≤◌, length};
ghost use Rattle.layout.specs.Layout.{lay_of};
ghost use Rattle.base.specs.Heap.{heap};
ghost use Rattle.upvalue_calls.specs.UpvalueCalls.{store_closed, store_at, store_in, upvalue_close, upvalue_set};

use base::Refusal;
use layout::Plan;
use value::{UpvalRef, Value};

// Upvalue u, whose record is at p, is closed over a value.
fn store_closed(w: &mut [u32], l: Plan, u: UpvalRef, v: Value, p: usize) -> Result<(), Refusal>
    requires l_in_bounds { (lay_of l.sizes).words ≤ length w.old }
    requires p_in_bounds { p + 4 ≤ length w.old }
    ensures { (result, w.new) ≡ store_closed (lay_of l.sizes) u v p w.old }
{
    if !given::is_sound(w, l, v) {
        return Err(Refusal::Stale);
    }
    run_record::upvalues::set_closed(w, p, true);
    run_record::upvalues::set_upvalue_value(w, p, v);
    let c = mark::shade(w, layout::upvalues_of(l), u.0, u.1);
    propagate::barrier_forward(w, l, c, v);
    Ok(())
}

// The same if it is closed, or is open, as the call asks.
fn store_at(
    w: &mut [u32],
    l: Plan,
    u: UpvalRef,
    v: Value,
    closed: bool,
    p: usize,
) -> Result<(), Refusal>
    requires l_in_bounds { (lay_of l.sizes).words ≤ length w.old }
    requires p_in_bounds { p + 4 ≤ length w.old }
    ensures { (result, w.new) ≡ store_at closed (lay_of l.sizes) u v p w.old }
{
    if run_record::upvalues::is_closed(w, p) != closed {
        return Err(Refusal::WrongState);
    }
    store_closed(w, l, u, v, p)
}

fn store_in(w: &mut [u32], l: Plan, u: UpvalRef, v: Value, closed: bool) -> Result<(), Refusal>
    requires l_in_bounds { (lay_of l.sizes).words ≤ length w.old }
    ensures { (result, w.new) ≡ store_in closed u v (lay_of l.sizes) w.old }
{
    let upvalues = layout::upvalues_of(l);
    let n = arena::name_of(w, upvalues, u.0, u.1).ok_or(Refusal::Stale)?;
    let p = record::body_of(w, upvalues, n);
    store_at(w, l, u, v, closed, p)
}

// An open upvalue is closed over a value: 5 for a closed one, 2 for an upvalue or a value that names nothing.
pub fn upvalue_close(w: &mut [u32], b: &[u8], u: UpvalRef, v: Value) -> Result<(), Refusal>
    ensures { (result, heap w.new b.now) ≡ upvalue_close u v (heap w.old b.now) }
{
    let l = test1::enter(w, b)?;
    let a = store_in(w, l, u, v, false);
    given::unmarked(w, a)
}

// A closed upvalue takes a value: 5 for an open one, 2 for an upvalue or a value that names nothing.
pub fn upvalue_set(w: &mut [u32], b: &[u8], u: UpvalRef, v: Value) -> Result<(), Refusal>
    ensures { (result, heap w.new b.now) ≡ upvalue_set u v (heap w.old b.now) }
{
    let l = test1::enter(w, b)?;
    let a = store_in(w, l, u, v, true);
    given::unmarked(w, a)
}
