// The single step (document 01, 'Steps and pacing'; the source's gc_singlestep and call_gc_finalizer): one unit of work in the
// phase that the words say. Phases are Pause 0, Propagate 1, SweepString 2, Sweep 3, Finalize 4.
#![tactic(auto)]

ghost use Rattle.std.specs.Prelude.{◌≡◌, ◌+◌, ◌≤◌, ◌<◌, length};
ghost use Rattle.layout.specs.Layout.{lay_of};
ghost use Rattle.base.specs.Heap.{heap};
ghost use Rattle.step.specs.Step.{Small, start_cycle, propagate_step, method_of, handed_out, lower_estimate, finalize, finalize_item, end_cycle, finalize_step, single_step};

use layout::Plan;
use lists::Item;
use propagate::Propagated;
use value::{UdRef, Value};

// What a step answers: its cost, or a finalizer that is handed out: the userdata and the method.
#[derive(Clone, Copy)]
pub enum Single {
    Cost(usize),
    Out(UdRef, Value),
}

// The lists are emptied, the roots marked, and the phase is Propagate.
pub fn start_cycle(w: &mut [u32], l: Plan)
    requires l_in_bounds { (lay_of l.sizes).words ≤ length w.old }
    ensures { w.new ≡ start_cycle (lay_of l.sizes) w.old }
{
    propagate::clear_lists(w, l);
    propagate::mark_roots(w, l);
    base::put(w, layout::PHASE, 1);
}

// One gray object; where there is none, the atomic phase, at cost 0.
fn propagate_step(w: &mut [u32], b: &[u8], l: Plan) -> usize
    requires l_in_bounds { (lay_of l.sizes).words ≤ length w.old }
    requires l_in_bounds_2 { (lay_of l.sizes).bytes ≤ length b.now }
    ensures { ((result, w.new) ≡ propagate_step (lay_of l.sizes) b.now w.old) × (result ≤ 5632) }
{
    match propagate::propagate_one(w, b, l) {
        Propagated::Done(c) => c,
        Propagated::NeedMainThread => run_walk::main_thread::traverse_main_thread(w, l),
        Propagated::Empty => {
            atomic::atomic(w, b, l);
            0
        }
    }
}

// The method is looked up now, and not as it was when the userdata was queued; nil where there is none.
fn method_of(w: &[u32], l: Plan, r: UdRef) -> Value
    requires l_in_bounds { (lay_of l.sizes).words ≤ length w.now }
    ensures { result ≡ method_of (lay_of l.sizes) r w.now }
{
    let userdata = layout::userdata_of(l);
    if mark::shade(w, userdata, r.0, r.1) == 0 {
        return Value::Nil;
    }
    let p = record::body_of(w, userdata, base::wide(r.0));
    modes::gc_method(w, l, record::userdata::ud_meta(w, p))
}

// With a method the threshold is total + 1,024, and both are handed out.
fn hand_out(w: &mut [u32])
    requires { 91 ≤ length w.old }
    ensures { w.new ≡ handed_out w.old }
{
    let total = base::get(w, layout::TOTAL) as u64;
    base::put64(w, layout::THRESHOLD, total + 1024);
}

// A finalizer that is over, or an entry with no method, costs 100 and lowers an estimate above 100 by that.
pub fn lower_estimate(w: &mut [u32])
    requires { 91 ≤ length w.old }
    ensures { w.new ≡ lower_estimate w.old }
{
    let e = base::get(w, layout::ESTIMATE);
    base::put(w, layout::ESTIMATE, pacing::lowered(e));
}

fn finalize(w: &mut [u32], l: Plan, r: UdRef) -> Single
    requires l_in_bounds { (lay_of l.sizes).words ≤ length w.old }
    ensures { ((result, w.new) ≡ finalize (lay_of l.sizes) r w.old) × Small result }
{
    let v = method_of(w, l, r);
    if value::is_nil(v) {
        lower_estimate(w);
        Single::Cost(100)
    } else {
        hand_out(w);
        Single::Out(r, v)
    }
}

// An unknown item is taken out at cost 0.
fn finalize_item(w: &mut [u32], l: Plan, x: Item) -> Single
    requires l_in_bounds { (lay_of l.sizes).words ≤ length w.old }
    ensures { ((result, w.new) ≡ finalize_item (lay_of l.sizes) x w.old) × Small result }
{
    match x {
        Item::Userdata(r) => finalize(w, l, r),
        _ => Single::Cost(0),
    }
}

// The end of the cycle: Pause, and no debt.
fn end_cycle(w: &mut [u32])
    requires { 91 ≤ length w.old }
    ensures { w.new ≡ end_cycle w.old }
{
    base::put(w, layout::PHASE, 0);
    base::put64(w, layout::DEBT, pacing::NO_DEBT);
}

// The queue's end.
fn finalize_step(w: &mut [u32], l: Plan) -> Single
    requires l_in_bounds { (lay_of l.sizes).words ≤ length w.old }
    ensures { ((result, w.new) ≡ finalize_step (lay_of l.sizes) w.old) × Small result }
{
    match lists::pop(w, layout::queue_of(l)) {
        Some(x) => finalize_item(w, l, x),
        None => {
            end_cycle(w);
            Single::Cost(0)
        }
    }
}

// One step. A string sweep step costs 10, another 800; marking roots, the atomic step and the end 0.
pub fn single_step(w: &mut [u32], b: &mut [u8], l: Plan) -> Single
    requires l_in_bounds { (lay_of l.sizes).words ≤ length w.old }
    requires l_in_bounds_2 { (lay_of l.sizes).bytes ≤ length b.old }
    ensures { ((result, heap w.new b.new) ≡ single_step (lay_of l.sizes) (heap w.old b.old)) × Small result }
{
    let phase = base::get(w, layout::PHASE);
    match phase {
        0 => {
            start_cycle(w, l);
            Single::Cost(0)
        }
        1 => Single::Cost(propagate_step(w, b, l)),
        2 => {
            sweep_step::sweep_strings_step(w, b, l);
            Single::Cost(10)
        }
        3 => {
            sweep_step::sweep_other_step(w, b, l);
            Single::Cost(800)
        }
        _ => finalize_step(w, l),
    }
}
