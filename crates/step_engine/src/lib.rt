// The calls that step, for Rust or C to link: exported functions on numbers and slices only. The answer is a code, 0 or the
// number of a refusal, and six words lent for the rest: which answer it is, then its numbers, 0 where there are none.
#![tactic(auto)]

ghost use Rattle.std.specs.Prelude.{◌≡◌, ◌≤◌, ◌<◌, ltb, length};
ghost use Rattle.base.specs.Heap.{heap};
ghost use Rattle.steps.specs.Steps.{gc_singlestep, gc_step, gc_step_auto, gc_check, full_gc, finish};
ghost use Rattle.step_codes.specs.Codes.{on_step};

// One step.
#[unsafe(no_mangle)]
pub extern "C" fn sieddesan_gc_singlestep(w: &mut [u32], b: &mut [u8], out: &mut [u32]) -> u32
    ensures { ((result, heap w.new b.new), out.new) ≡ on_step gc_singlestep (heap w.old b.old) out.old }
{
    if out.len() < 6 {
        return 1;
    }
    let a = steps::gc_singlestep(w, b);
    step_codes::tell(out, a)
}

// Steps until the budget is used up or the cycle ends.
#[unsafe(no_mangle)]
pub extern "C" fn sieddesan_gc_step(
    w: &mut [u32],
    b: &mut [u8],
    budget: i64,
    out: &mut [u32],
) -> u32
    ensures { ((result, heap w.new b.new), out.new) ≡ on_step (gc_step budget) (heap w.old b.old) out.old }
{
    if out.len() < 6 {
        return 1;
    }
    let a = steps::gc_step(w, b, budget);
    step_codes::tell(out, a)
}

// An automatic step.
#[unsafe(no_mangle)]
pub extern "C" fn sieddesan_gc_step_auto(w: &mut [u32], b: &mut [u8], out: &mut [u32]) -> u32
    ensures { ((result, heap w.new b.new), out.new) ≡ on_step gc_step_auto (heap w.old b.old) out.old }
{
    if out.len() < 6 {
        return 1;
    }
    let a = steps::gc_step_auto(w, b);
    step_codes::tell(out, a)
}

// An automatic step if it is due; 7 if the total is then above the limit.
#[unsafe(no_mangle)]
pub extern "C" fn sieddesan_gc_check(w: &mut [u32], b: &mut [u8], out: &mut [u32]) -> u32
    ensures { ((result, heap w.new b.new), out.new) ≡ on_step gc_check (heap w.old b.old) out.old }
{
    if out.len() < 6 {
        return 1;
    }
    let a = steps::gc_check(w, b);
    step_codes::tell(out, a)
}

// A full collection.
#[unsafe(no_mangle)]
pub extern "C" fn sieddesan_full_gc(w: &mut [u32], b: &mut [u8], out: &mut [u32]) -> u32
    ensures { ((result, heap w.new b.new), out.new) ≡ on_step full_gc (heap w.old b.old) out.old }
{
    if out.len() < 6 {
        return 1;
    }
    let a = steps::full_gc(w, b);
    step_codes::tell(out, a)
}

// The finalizer that is out is over: it failed where ok is 0.
#[unsafe(no_mangle)]
pub extern "C" fn sieddesan_finish(w: &mut [u32], b: &mut [u8], ok: u32, out: &mut [u32]) -> u32
    ensures { ((result, heap w.new b.new), out.new) ≡ on_step (finish (ltb 0 ok)) (heap w.old b.old) out.old }
{
    if out.len() < 6 {
        return 1;
    }
    let a = steps::finish(w, b, 0 < ok);
    step_codes::tell(out, a)
}
