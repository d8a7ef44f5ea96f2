// The calls that step (document 01, 'Steps and pacing'): single, budgeted, automatic, check and full, and finish. Each gives 1
// and 8 first. While a finalizer is out, steps answer Busy and change nothing; an automatic step adds to the debt first, and a
// check only tests the limit.
#![tactic(auto)]

ghost use Rattle.std.specs.Prelude.{◌≡◌, ◌≤◌, ◌<◌, length};
ghost use Rattle.layout.specs.Layout.{lay_of};
ghost use Rattle.base.specs.Heap.{heap};
ghost use Rattle.steps.specs.Steps.{is_out, is_due, single_in, gc_singlestep, budget_in, gc_step, auto_in, gc_step_auto, check_in, gc_check, full_in, full_gc, steps_on, resumed, succeeded, finish_in, finish, unmarked};

use accounts::Answer;
use base::Refusal;
use layout::Plan;
use std::ops::ControlFlow;
use step::Single;

// Whether a finalizer is out.
fn is_out(w: &[u32]) -> bool
    requires { 91 ≤ length w.now }
    ensures { result ≡ is_out w.now }
{
    0 < base::get(w, layout::INTERRUPTED)
}

// An answer of work that may have set the damage mark: then it is 8.
fn unmarked(w: &[u32], a: Result<Answer, Refusal>) -> Result<Answer, Refusal>
    requires { 91 ≤ length w.now }
    ensures { result ≡ unmarked w.now a }
{
    if base::get(w, layout::DAMAGE) == 0 {
        a
    } else {
        Err(Refusal::Damaged)
    }
}

fn single_in(w: &mut [u32], b: &mut [u8], l: Plan) -> Result<Answer, Refusal>
    requires l_in_bounds { (lay_of l.sizes).words ≤ length w.old }
    requires l_in_bounds_2 { (lay_of l.sizes).bytes ≤ length b.old }
    ensures { (result, heap w.new b.new) ≡ single_in (lay_of l.sizes) (heap w.old b.old) }
{
    if is_out(w) {
        return Ok(Answer::Busy);
    }
    match step::single_step(w, b, l) {
        Single::Cost(c) => Ok(Answer::Stepped(c)),
        Single::Out(r, v) => {
            accounts::hand(w, accounts::SINGLE, r, 0);
            Ok(Answer::Handed(r, v))
        }
    }
}

fn budget_in(w: &mut [u32], b: &mut [u8], l: Plan, budget: u64) -> Result<Answer, Refusal>
    requires l_in_bounds { (lay_of l.sizes).words ≤ length w.old }
    requires l_in_bounds_2 { (lay_of l.sizes).bytes ≤ length b.old }
    ensures { (result, heap w.new b.new) ≡ budget_in budget (lay_of l.sizes) (heap w.old b.old) }
{
    if is_out(w) {
        return Ok(Answer::Busy);
    }
    pace::budgeted(w, b, l, accounts::BUDGETED, budget)
}

fn auto_in(w: &mut [u32], b: &mut [u8], l: Plan) -> Result<Answer, Refusal>
    requires l_in_bounds { (lay_of l.sizes).words ≤ length w.old }
    requires l_in_bounds_2 { (lay_of l.sizes).bytes ≤ length b.old }
    ensures { (result, heap w.new b.new) ≡ auto_in (lay_of l.sizes) (heap w.old b.old) }
{
    accounts::grow_debt(w);
    let stepmul = base::get(w, layout::STEPMUL);
    budget_in(w, b, l, pacing::automatic_budget(stepmul))
}

// Whether a check makes a step: none is out, and the total has come to the threshold.
fn is_due(w: &[u32]) -> bool
    requires { 91 ≤ length w.now }
    ensures { result ≡ is_due w.now }
{
    !is_out(w) && base::get64(w, layout::THRESHOLD) <= base::get(w, layout::TOTAL) as u64
}

fn check_in(w: &mut [u32], b: &mut [u8], l: Plan) -> Result<Answer, Refusal>
    requires l_in_bounds { (lay_of l.sizes).words ≤ length w.old }
    requires l_in_bounds_2 { (lay_of l.sizes).bytes ≤ length b.old }
    ensures { (result, heap w.new b.new) ≡ check_in (lay_of l.sizes) (heap w.old b.old) }
{
    if is_due(w) {
        let a = pace::automatic(w, b, l, accounts::CHECK);
        return accounts::limited(w, a);
    }
    accounts::limited(w, Ok(Answer::Passed))
}

fn full_in(w: &mut [u32], b: &mut [u8], l: Plan) -> Result<Answer, Refusal>
    requires l_in_bounds { (lay_of l.sizes).words ≤ length w.old }
    requires l_in_bounds_2 { (lay_of l.sizes).bytes ≤ length b.old }
    ensures { (result, heap w.new b.new) ≡ full_in (lay_of l.sizes) (heap w.old b.old) }
{
    if is_out(w) {
        return Ok(Answer::Busy);
    }
    pace::give_up_marking(w, l);
    pace::full_first(w, b, l)
}

// A budgeted step goes on after the finalizer's 100.
fn steps_on(w: &mut [u32], b: &mut [u8], l: Plan, kind: u32, left: u64) -> Result<Answer, Refusal>
    requires l_in_bounds { (lay_of l.sizes).words ≤ length w.old }
    requires l_in_bounds_2 { (lay_of l.sizes).bytes ≤ length b.old }
    ensures { (result, heap w.new b.new) ≡ steps_on (lay_of l.sizes) kind left (heap w.old b.old) }
{
    match accounts::after_cost(w, left, 100) {
        ControlFlow::Continue(k) => pace::budgeted(w, b, l, kind, k),
        ControlFlow::Break(a) => a,
    }
}

// What was interrupted goes on.
fn resume(w: &mut [u32], b: &mut [u8], l: Plan, kind: u32, left: u64) -> Result<Answer, Refusal>
    requires l_in_bounds { (lay_of l.sizes).words ≤ length w.old }
    requires l_in_bounds_2 { (lay_of l.sizes).bytes ≤ length b.old }
    ensures { (result, heap w.new b.new) ≡ resumed (lay_of l.sizes) kind left (heap w.old b.old) }
{
    match kind {
        1 => Ok(Answer::Stepped(100)),
        2 => steps_on(w, b, l, accounts::BUDGETED, left),
        3 => {
            let a = steps_on(w, b, l, accounts::CHECK, left);
            accounts::limited(w, a)
        }
        4 => pace::full_first(w, b, l),
        _ => pace::full_second(w, b, l),
    }
}

// Success: the threshold is total * pause / 100, the estimate is lowered.
fn succeed(w: &mut [u32])
    requires { 91 ≤ length w.old }
    ensures { w.new ≡ succeeded w.old }
{
    let total = base::get(w, layout::TOTAL);
    let pause = base::get(w, layout::PAUSE);
    base::put64(w, layout::THRESHOLD, pacing::finish_threshold(total, pause));
    step::lower_estimate(w);
}

fn finish_in(w: &mut [u32], b: &mut [u8], l: Plan, ok: bool) -> Result<Answer, Refusal>
    requires l_in_bounds { (lay_of l.sizes).words ≤ length w.old }
    requires l_in_bounds_2 { (lay_of l.sizes).bytes ≤ length b.old }
    ensures { (result, heap w.new b.new) ≡ finish_in ok (lay_of l.sizes) (heap w.old b.old) }
{
    let kind = base::get(w, layout::INTERRUPTED);
    if kind == 0 {
        return Err(Refusal::WrongState);
    }
    let left = base::get64(w, layout::REMAINING);
    accounts::take_back(w);
    if ok {
        succeed(w);
        return resume(w, b, l, kind, left);
    }
    Ok(Answer::Failed)
}

// One step.
pub fn gc_singlestep(w: &mut [u32], b: &mut [u8]) -> Result<Answer, Refusal>
    ensures { (result, heap w.new b.new) ≡ gc_singlestep (heap w.old b.old) }
{
    let l = test1::enter(w, b)?;
    let a = single_in(w, b, l);
    unmarked(w, a)
}

// Steps until the budget is used up or the cycle ends.
pub fn gc_step(w: &mut [u32], b: &mut [u8], budget: i64) -> Result<Answer, Refusal>
    ensures { (result, heap w.new b.new) ≡ gc_step budget (heap w.old b.old) }
{
    let l = test1::enter(w, b)?;
    let a = budget_in(w, b, l, pacing::budget_of(budget));
    unmarked(w, a)
}

// An automatic step: the debt grows, and the budget goes by stepmul.
pub fn gc_step_auto(w: &mut [u32], b: &mut [u8]) -> Result<Answer, Refusal>
    ensures { (result, heap w.new b.new) ≡ gc_step_auto (heap w.old b.old) }
{
    let l = test1::enter(w, b)?;
    let a = auto_in(w, b, l);
    unmarked(w, a)
}

// An automatic step if the total has come to the threshold; 7 if the total is then above the limit.
pub fn gc_check(w: &mut [u32], b: &mut [u8]) -> Result<Answer, Refusal>
    ensures { (result, heap w.new b.new) ≡ gc_check (heap w.old b.old) }
{
    let l = test1::enter(w, b)?;
    let a = check_in(w, b, l);
    unmarked(w, a)
}

// A full collection.
pub fn full_gc(w: &mut [u32], b: &mut [u8]) -> Result<Answer, Refusal>
    ensures { (result, heap w.new b.new) ≡ full_gc (heap w.old b.old) }
{
    let l = test1::enter(w, b)?;
    let a = full_in(w, b, l);
    unmarked(w, a)
}

// The finalizer that is out is over: what it interrupted goes on, or, where it failed, ends.
pub fn finish(w: &mut [u32], b: &mut [u8], ok: bool) -> Result<Answer, Refusal>
    ensures { (result, heap w.new b.new) ≡ finish ok (heap w.old b.old) }
{
    let l = test1::enter(w, b)?;
    let a = finish_in(w, b, l, ok);
    unmarked(w, a)
}
