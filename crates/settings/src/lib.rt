// The settings: pause, stepmul and limit (document 01, 'Steps and pacing'). Each call gives 1 and 8 first and answers the value
// before.
#![tactic(auto)]

ghost use Rattle.std.specs.Prelude.{◌≡◌, ◌≤◌, ◌<◌, length};
ghost use Rattle.base.specs.Heap.{heap};
ghost use Rattle.settings.specs.Settings.{set_word, set_pause, set_stepmul, lowered, set_limit_in, set_limit};

use base::Refusal;

// A setting of one word.
fn set_word(w: &mut [u32], p: usize, n: u32) -> Result<u64, Refusal>
    requires { p < length w.old }
    ensures { (result, w.new) ≡ set_word p n w.old }
{
    let old = base::get(w, p);
    base::put(w, p, n);
    Ok(old as u64)
}

pub fn set_pause(w: &mut [u32], b: &[u8], n: u32) -> Result<u64, Refusal>
    ensures { (result, heap w.new b.now) ≡ set_pause n (heap w.old b.now) }
{
    test1::enter(w, b)?;
    set_word(w, layout::PAUSE, n)
}

pub fn set_stepmul(w: &mut [u32], b: &[u8], n: u32) -> Result<u64, Refusal>
    ensures { (result, heap w.new b.now) ≡ set_stepmul n (heap w.old b.now) }
{
    test1::enter(w, b)?;
    set_word(w, layout::STEPMUL, n)
}

// A threshold above the limit becomes the limit.
fn lower_threshold(w: &mut [u32], limit: u64)
    requires { 91 ≤ length w.old }
    ensures { w.new ≡ lowered limit w.old }
{
    if limit < base::get64(w, layout::THRESHOLD) {
        base::put64(w, layout::THRESHOLD, limit);
    }
}

fn set_limit_in(w: &mut [u32], limit: u64) -> Result<u64, Refusal>
    requires { 91 ≤ length w.old }
    ensures { (result, w.new) ≡ set_limit_in limit w.old }
{
    let old = base::get64(w, layout::LIMIT);
    base::put64(w, layout::LIMIT, limit);
    lower_threshold(w, limit);
    Ok(old)
}

// The limit, which lowers a threshold above it.
pub fn set_limit(w: &mut [u32], b: &[u8], limit: u64) -> Result<u64, Refusal>
    ensures { (result, heap w.new b.now) ≡ set_limit limit (heap w.old b.now) }
{
    test1::enter(w, b)?;
    set_limit_in(w, limit)
}
