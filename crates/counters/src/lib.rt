// The counters total, peak and limit (document 01, 'What must change shape'): a small struct that is lent to `track_alloc`, a
// thin function over `tracked`, which takes it by value. `track` does it for the header's words. No allocation changes the limit.
#![tactic(auto)]

ghost use Rattle.std.specs.Prelude.{◌≡◌, ◌≤◌, length};
ghost use Rattle.counters.specs.Count.{tracked, counters_at, put_counters, would_pass, track};

#[derive(Clone, Copy)]
pub struct Counters {
    pub total: u32,
    pub peak: u32,
    pub limit: u64,
}

// The counters after an allocation of this size. The sum stops at the end of 32 bits.
pub fn tracked(c: Counters, size: u32) -> Counters
    ensures { result ≡ tracked c size }
{
    let total = c.total.saturating_add(size);
    Counters {
        total,
        peak: c.peak.max(total),
        limit: c.limit,
    }
}

// An allocation of this size is tracked in the counters that are lent.
pub fn track_alloc(c: &mut Counters, size: u32)
    ensures { c.new ≡ tracked c.old size }
{
    *c = tracked(*c, size);
}

// The counters after an allocation, by the lent form: whoever calls this one lends nothing.
pub fn after_alloc(c: Counters, size: u32) -> Counters
    ensures { result ≡ tracked c size }
{
    let mut t = c;
    track_alloc(&mut t, size);
    t
}

// The three as the header has them.
pub fn counters_of(w: &[u32]) -> Counters
    requires { 91 ≤ length w.now }
    ensures { result ≡ counters_at w.now }
{
    Counters {
        total: base::get(w, layout::TOTAL),
        peak: base::get(w, layout::PEAK),
        limit: base::get64(w, layout::LIMIT),
    }
}

// Total and peak; the limit is the host's to set.
pub fn put_counters(w: &mut [u32], c: Counters)
    requires { 91 ≤ length w.old }
    ensures { w.new ≡ put_counters c w.old }
{
    base::put(w, layout::TOTAL, c.total);
    base::put(w, layout::PEAK, c.peak);
}

// Whether the tracked total would pass 2^31 - 1 (refusal 6).
pub fn would_pass(c: Counters, size: u32) -> bool
    ensures { result ≡ would_pass c size }
{
    2147483647 < c.total.saturating_add(size)
}

// An allocation of this size is tracked in the header.
pub fn track(w: &mut [u32], size: u32)
    requires { 91 ≤ length w.old }
    ensures { w.new ≡ track size w.old }
{
    let c = after_alloc(counters_of(w), size);
    put_counters(w, c);
}
