// What the header keeps of pacing (document 01, 'Steps and pacing'): total, estimate, threshold and debt, and a finalizer that is
// out with what it interrupted. Each function is a few words read and written by the numbers of crates/pacing.
#![tactic(auto)]

ghost use Rattle.std.specs.Prelude.{◌≡◌, ◌+◌, ◌^◌, ◌≤◌, ◌<◌, length};
ghost use Rattle.accounts.specs.Accounts.{count_at, memory_of, update_threshold, step_ends, handed, taken_back, after_cost, grown, within_limit, limited};

use base::Refusal;
use pacing::Counts;
use std::ops::ControlFlow;
use value::{UdRef, Value};

// What a step or finish answers.
#[derive(Clone, Copy)]
pub enum Answer {
    // A single step was made, at this cost.
    Stepped(usize),
    // A budgeted step ended, and the cycle goes on.
    Unfinished,
    // The cycle ended.
    Ended,
    // A check found the total within its limit.
    Passed,
    // A finalizer is handed out: the userdata and its method.
    Handed(UdRef, Value),
    // One is out already; nothing was done.
    Busy,
    // The finalizer failed; the call that it interrupted is over.
    Failed,
}

// What is interrupted: a single step, a budgeted one, a check, full in its first or second half.
pub const SINGLE: u32 = 1;

pub const BUDGETED: u32 = 2;

pub const CHECK: u32 = 3;

pub const FULL_FIRST: u32 = 4;

pub const FULL_SECOND: u32 = 5;

// The count of occupied slots of the arena whose three header words are at p. Test 1 keeps the stored one within 4,096.
fn count_at(w: &[u32], p: usize) -> usize
    requires { p + 2 < length w.now }
    ensures { (result ≡ count_at p w.now) × (result ≤ 4096) }
{
    base::within(base::get(w, p + 2), 4096)
}

// What the occupied slots take in all.
fn memory_of(w: &[u32]) -> usize
    requires { 91 ≤ length w.now }
    ensures { (result ≡ memory_of w.now) × (result < 2 ^ 31) }
{
    pacing::memory(Counts {
        strings: count_at(w, layout::STRINGS),
        tables: count_at(w, layout::TABLES),
        functions: count_at(w, layout::FUNCTIONS),
        upvalues: count_at(w, layout::UPVALUES),
        userdata: count_at(w, layout::USERDATA),
        threads: count_at(w, layout::THREADS),
    })
}

// At the end of a cycle: the total is counted anew, and the threshold set by the larger of it and the estimate.
pub fn update_threshold(w: &mut [u32])
    requires { 91 ≤ length w.old }
    ensures { w.new ≡ update_threshold w.old }
{
    let total = memory_of(w) as u32;
    let estimate = base::get(w, layout::ESTIMATE).max(total);
    let pause = base::get(w, layout::PAUSE);
    base::put(w, layout::TOTAL, total);
    base::put64(
        w,
        layout::THRESHOLD,
        pacing::cycle_threshold(estimate, pause),
    );
}

// A budgeted step ends before the cycle does.
pub fn step_ends(w: &mut [u32])
    requires { 91 ≤ length w.old }
    ensures { w.new ≡ step_ends w.old }
{
    let debt = base::get64(w, layout::DEBT);
    let total = base::get(w, layout::TOTAL);
    base::put64(w, layout::DEBT, pacing::debt_after(debt));
    base::put64(w, layout::THRESHOLD, pacing::step_threshold(debt, total));
}

// The finalizer of r is out: what it interrupted, and the budget before its 100.
pub fn hand(w: &mut [u32], kind: u32, r: UdRef, left: u64)
    requires { 91 ≤ length w.old }
    ensures { w.new ≡ handed kind r left w.old }
{
    base::put(w, layout::INTERRUPTED, kind);
    value::write_ud_or(w, layout::OUT, Some(r));
    base::put64(w, layout::REMAINING, left);
}

// None is out.
pub fn take_back(w: &mut [u32])
    requires { 91 ≤ length w.old }
    ensures { w.new ≡ taken_back w.old }
{
    base::put(w, layout::INTERRUPTED, 0);
    value::write_ud_or(w, layout::OUT, None);
    base::put64(w, layout::REMAINING, 0);
}

// After a step of cost c: the end of the cycle, of the budget, or what is left of it.
pub fn after_cost(w: &mut [u32], left: u64, c: usize) -> ControlFlow<Result<Answer, Refusal>, u64>
    requires { 91 ≤ length w.old }
    ensures { (result, w.new) ≡ after_cost left c w.old }
{
    if base::get(w, layout::PHASE) == 0 {
        update_threshold(w);
        return ControlFlow::Break(Ok(Answer::Ended));
    }
    let cost = c as u64;
    if left <= cost {
        step_ends(w);
        return ControlFlow::Break(Ok(Answer::Unfinished));
    }
    ControlFlow::Continue(left - cost)
}

// The debt grows by total minus threshold.
pub fn grow_debt(w: &mut [u32])
    requires { 91 ≤ length w.old }
    ensures { w.new ≡ grown w.old }
{
    let debt = base::get64(w, layout::DEBT);
    let total = base::get(w, layout::TOTAL) as u64;
    let threshold = base::get64(w, layout::THRESHOLD);
    base::put64(w, layout::DEBT, pacing::grown_debt(debt, total, threshold));
}

// 7 where the total is above the limit.
fn within_limit(w: &[u32]) -> Result<Answer, Refusal>
    requires { 91 ≤ length w.now }
    ensures { result ≡ within_limit w.now }
{
    if base::get64(w, layout::LIMIT) < base::get(w, layout::TOTAL) as u64 {
        Err(Refusal::OverLimit)
    } else {
        Ok(Answer::Passed)
    }
}

// The limit is tested when a check's step has ended; a finalizer that is handed out has not ended it.
pub fn limited(w: &[u32], a: Result<Answer, Refusal>) -> Result<Answer, Refusal>
    requires { 91 ≤ length w.now }
    ensures { result ≡ limited w.now a }
{
    match a {
        Ok(answer) => match answer {
            Answer::Handed(..) => a,
            _ => within_limit(w),
        },
        Err(_) => within_limit(w),
    }
}
