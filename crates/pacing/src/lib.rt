// Pacing by numbers (document 01, 'Steps and pacing'): budgets, debt, thresholds, estimate and total, each a small function of
// numbers by value. Sums stop at the ends of 64 bits, counts at 0.
#![tactic(auto)]

ghost use Rattle.std.specs.Prelude.{◌≡◌, ℕ, ◌+◌, ◌-◌, ◌*◌, ◌/◌, ◌^◌, ◌≤◌, ◌<◌};
ghost use Rattle.pacing.specs.Pacing.{budget_of, automatic_budget, grown_debt, cycle_threshold, finish_threshold, step_threshold, debt_after, lowered, less, memory};

// The debt is stored plus 2^63.
pub const NO_DEBT: u64 = 9223372036854775808;

// How many slots of each kind are occupied.
#[derive(Clone, Copy)]
pub struct Counts {
    pub strings: usize,
    pub tables: usize,
    pub functions: usize,
    pub upvalues: usize,
    pub userdata: usize,
    pub threads: usize,
}

// A budget below 0 acts as 0.
pub fn budget_of(b: i64) -> u64
    ensures { result ≡ budget_of b }
{
    if b < 0 { 0 } else { b as u64 }
}

// (1024/100) * stepmul, whole division; for stepmul 0, 2^62 - 1.
pub fn automatic_budget(stepmul: u32) -> u64
    ensures { result ≡ automatic_budget stepmul }
{
    if stepmul == 0 {
        4611686018427387903
    } else {
        10 * (stepmul as u64)
    }
}

// The debt grows by total minus threshold.
pub fn grown_debt(debt: u64, total: u64, threshold: u64) -> u64
    ensures { result ≡ grown_debt debt total threshold }
{
    if threshold <= total {
        base::add_sat(debt, total - threshold)
    } else {
        base::sub_sat(debt, threshold - total)
    }
}

// At the end of a cycle: (estimate / 100) * pause, at least 4,096.
pub fn cycle_threshold(estimate: u32, pause: u32) -> u64
    ensures { result ≡ cycle_threshold estimate pause }
{
    let t = (estimate / 100) as u64 * (pause as u64);
    t.max(4096)
}

// After a finalizer that did not fail: total * pause / 100.
pub fn finish_threshold(total: u32, pause: u32) -> u64
    ensures { result ≡ finish_threshold total pause }
{
    (total as u64) * (pause as u64) / 100
}

// After a budgeted step that did not end the cycle: total + 1,024 where the debt is below 1,024, else total.
pub fn step_threshold(debt: u64, total: u32) -> u64
    ensures { result ≡ step_threshold debt total }
{
    if debt < 9223372036854776832 {
        total as u64 + 1024
    } else {
        total as u64
    }
}

// And the debt is then 1,024 less where it was not below that.
pub fn debt_after(debt: u64) -> u64
    ensures { result ≡ debt_after debt }
{
    if debt < 9223372036854776832 {
        debt
    } else {
        debt - 1024
    }
}

// A finalizer that did not fail lowers an estimate above 100 by 100.
pub fn lowered(estimate: u32) -> u32
    ensures { result ≡ lowered estimate }
{
    if 100 < estimate {
        estimate - 100
    } else {
        estimate
    }
}

// Total and estimate stop at 0.
pub fn less(x: u32, n: usize) -> u32
    ensures { result ≡ less x n }
{
    base::wide(x).saturating_sub(n) as u32
}

// Sizes in the total: string 48, table 64, closure 48, upvalue 24, userdata 48, thread 256.
pub fn memory(c: Counts) -> usize
    requires { (c.strings ≤ 4096) × (c.tables ≤ 4096) × (c.functions ≤ 4096) × (c.upvalues ≤ 4096) × (c.userdata ≤ 4096) × (c.threads ≤ 4096) }
    ensures { (result ≡ memory c) × (result < 2 ^ 31) }
{
    48 * c.strings
        + 64 * c.tables
        + 48 * c.functions
        + 24 * c.upvalues
        + 48 * c.userdata
        + 256 * c.threads
}
