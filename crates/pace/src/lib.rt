// Budgeted and full collection with hand-out and finish (document 01, 'Steps and pacing'; the source's gc_step, full_gc,
// gc_step_auto, gc_check, update_threshold). A finalizer that is handed out interrupts its call: the words keep what was
// interrupted, the userdata and the remaining budget, and `finish` goes on with exactly that.
#![tactic(auto)]

ghost use Rattle.std.specs.Prelude.{◌≡◌, ◌≤◌, ◌<◌, length};
ghost use Rattle.layout.specs.Layout.{lay_of};
ghost use Rattle.base.specs.Heap.{heap};
ghost use Rattle.pace.specs.Pace.{steps_most, turn, budgeted, driven, full_second, full_first, gave_up, automatic};

use accounts::Answer;
use base::Refusal;
use layout::Plan;
use std::ops::ControlFlow;
use step::Single;
use sweep_step::SweepCursor;
use value::{UdRef, Value};

// No cycle has more steps: the roots, one for each gray item that there can be, the atomic step, one for each slot that is
// swept and each arena, one for each queued userdata, the end.
fn steps_most(l: Plan) -> usize
    ensures { (result ≡ steps_most (lay_of l.sizes)) × (result ≤ 65536) }
{
    let gray = 2 * (l.sizes.tables + l.sizes.functions + l.sizes.threads) + 1;
    let first = l.sizes.strings + l.sizes.tables + l.sizes.functions;
    let second = l.sizes.upvalues + l.sizes.userdata + l.sizes.threads;
    gray + first + second + l.sizes.userdata + 16
}

fn turn(
    w: &mut [u32],
    b: &mut [u8],
    l: Plan,
    kind: u32,
    left: u64,
) -> ControlFlow<Result<Answer, Refusal>, u64>
    requires l_in_bounds { (lay_of l.sizes).words ≤ length w.old }
    requires l_in_bounds_2 { (lay_of l.sizes).bytes ≤ length b.old }
    ensures { (result, heap w.new b.new) ≡ turn (lay_of l.sizes) kind left (heap w.old b.old) }
{
    match step::single_step(w, b, l) {
        Single::Cost(c) => accounts::after_cost(w, left, c),
        Single::Out(r, v) => {
            accounts::hand(w, kind, r, left);
            ControlFlow::Break(Ok(Answer::Handed(r, v)))
        }
    }
}

// Steps until the budget is used up, the cycle ends or a finalizer is handed out. At least one is made.
pub fn budgeted(
    w: &mut [u32],
    b: &mut [u8],
    l: Plan,
    kind: u32,
    budget: u64,
) -> Result<Answer, Refusal>
    requires l_in_bounds { (lay_of l.sizes).words ≤ length w.old }
    requires l_in_bounds_2 { (lay_of l.sizes).bytes ≤ length b.old }
    ensures { (result, heap w.new b.new) ≡ budgeted (lay_of l.sizes) kind budget (heap w.old b.old) }
{
    let mut left = budget;
    for _ in 0..steps_most(l) {
        match turn(w, b, l, kind, left) {
            ControlFlow::Continue(k) => {
                left = k;
            }
            ControlFlow::Break(a) => {
                return a;
            }
        }
    }
    Ok(Answer::Unfinished)
}

// Steps until the phase is at most `end`, or a finalizer is handed out.
fn drive(w: &mut [u32], b: &mut [u8], l: Plan, kind: u32, end: u32) -> Option<(UdRef, Value)>
    requires l_in_bounds { (lay_of l.sizes).words ≤ length w.old }
    requires l_in_bounds_2 { (lay_of l.sizes).bytes ≤ length b.old }
    ensures { (result, heap w.new b.new) ≡ driven (lay_of l.sizes) kind end (heap w.old b.old) }
{
    for _ in 0..steps_most(l) {
        if base::get(w, layout::PHASE) <= end {
            return None;
        }
        match step::single_step(w, b, l) {
            Single::Cost(_) => {}
            Single::Out(r, v) => {
                accounts::hand(w, kind, r, 0);
                return Some((r, v));
            }
        }
    }
    None
}

// The fresh cycle of a full collection.
pub fn full_second(w: &mut [u32], b: &mut [u8], l: Plan) -> Result<Answer, Refusal>
    requires l_in_bounds { (lay_of l.sizes).words ≤ length w.old }
    requires l_in_bounds_2 { (lay_of l.sizes).bytes ≤ length b.old }
    ensures { (result, heap w.new b.new) ≡ full_second (lay_of l.sizes) (heap w.old b.old) }
{
    match drive(w, b, l, accounts::FULL_SECOND, 0) {
        None => {
            accounts::update_threshold(w);
            Ok(Answer::Ended)
        }
        Some((r, v)) => Ok(Answer::Handed(r, v)),
    }
}

// What was under way is swept and finalized to its end; then a cycle is run from its beginning.
pub fn full_first(w: &mut [u32], b: &mut [u8], l: Plan) -> Result<Answer, Refusal>
    requires l_in_bounds { (lay_of l.sizes).words ≤ length w.old }
    requires l_in_bounds_2 { (lay_of l.sizes).bytes ≤ length b.old }
    ensures { (result, heap w.new b.new) ≡ full_first (lay_of l.sizes) (heap w.old b.old) }
{
    match drive(w, b, l, accounts::FULL_FIRST, 1) {
        None => {
            step::start_cycle(w, l);
            full_second(w, b, l)
        }
        Some((r, v)) => Ok(Answer::Handed(r, v)),
    }
}

// Marking that was under way is given up: the lists are emptied, and a sweep begins without a flip of the white.
pub fn give_up_marking(w: &mut [u32], l: Plan)
    requires l_in_bounds { (lay_of l.sizes).words ≤ length w.old }
    ensures { w.new ≡ gave_up (lay_of l.sizes) w.old }
{
    if base::get(w, layout::PHASE) <= 1 {
        propagate::clear_lists(w, l);
        base::put(w, layout::PHASE, 2);
        sweep_step::write_cursor(w, SweepCursor::start());
    }
}

// An automatic step, for itself or for a check.
pub fn automatic(w: &mut [u32], b: &mut [u8], l: Plan, kind: u32) -> Result<Answer, Refusal>
    requires l_in_bounds { (lay_of l.sizes).words ≤ length w.old }
    requires l_in_bounds_2 { (lay_of l.sizes).bytes ≤ length b.old }
    ensures { (result, heap w.new b.new) ≡ automatic (lay_of l.sizes) kind (heap w.old b.old) }
{
    accounts::grow_debt(w);
    let stepmul = base::get(w, layout::STEPMUL);
    budgeted(w, b, l, kind, pacing::automatic_budget(stepmul))
}
