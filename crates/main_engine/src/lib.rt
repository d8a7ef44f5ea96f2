// The calls on the main record and the settings, for Rust or C to link: exported functions on numbers and slices only. The answer
// is a code, 0 or the number of a refusal, and words lent for the rest: a popped value's three, a setting's two, the value before.
#![tactic(auto)]

ghost use Rattle.std.specs.Prelude.{◌≡◌, ◌≤◌, length, Err};
ghost use Rattle.base.specs.Heap.{heap};
ghost use Rattle.value.specs.Values.{value_of};
ghost use Rattle.stack_calls.specs.StackCalls.{push, pop, stack_set, set_top};
ghost use Rattle.main_calls.specs.MainCalls.{open_push, open_cut, set_error, set_hook};
ghost use Rattle.frame_calls.specs.FrameCalls.{set_frame, set_ci};
ghost use Rattle.settings.specs.Settings.{set_pause, set_stepmul, set_limit};
ghost use Rattle.told.specs.Numbers.{upval_ref, tagged};
ghost use Rattle.told.specs.Answers.{served, got_told, lent};
ghost use Rattle.main_engine.specs.Exports.{setting_told};

use base::Refusal;

// The code of a setting, with the value before in words 0 and 1.
fn tell_setting(out: &mut [u32], a: Result<u64, Refusal>) -> u32
    requires { 2 ≤ length out.old }
    ensures { (result, out.new) ≡ setting_told a out.old }
{
    match a {
        Ok(n) => {
            base::put64(out, 0, n);
            0
        }
        Err(k) => k.number(),
    }
}

// A value on top of the stack.
#[unsafe(no_mangle)]
pub extern "C" fn sieddesan_push(w: &mut [u32], b: &[u8], tag: u32, low: u32, high: u32) -> u32
    ensures { (result, heap w.new b.now) ≡ served (tagged Err tag (push (value_of tag low high))) (heap w.old b.now) }
{
    if 8 < tag {
        return told::no_number(w, b);
    }
    let a = stack_calls::push(w, b, value::value_of(tag, low, high));
    told::code(a)
}

// The value on top of the stack is taken off.
#[unsafe(no_mangle)]
pub extern "C" fn sieddesan_pop(w: &mut [u32], b: &[u8], out: &mut [u32]) -> u32
    ensures { ((result, heap w.new b.now), out.new) ≡ lent 3 got_told pop (heap w.old b.now) out.old }
{
    if out.len() < 3 {
        return 1;
    }
    let a = stack_calls::pop(w, b);
    told::tell_value(out, a)
}

// Place i of the stack takes a value.
#[unsafe(no_mangle)]
pub extern "C" fn sieddesan_stack_set(
    w: &mut [u32],
    b: &[u8],
    i: u32,
    tag: u32,
    low: u32,
    high: u32,
) -> u32
    ensures { (result, heap w.new b.now) ≡ served (tagged Err tag (stack_set i (value_of tag low high))) (heap w.old b.now) }
{
    if 8 < tag {
        return told::no_number(w, b);
    }
    let a = stack_calls::stack_set(w, b, i, value::value_of(tag, low, high));
    told::code(a)
}

// The top of the stack becomes n.
#[unsafe(no_mangle)]
pub extern "C" fn sieddesan_set_top(w: &mut [u32], b: &[u8], n: u32) -> u32
    ensures { (result, heap w.new b.now) ≡ served (set_top n) (heap w.old b.now) }
{
    let a = stack_calls::set_top(w, b, n);
    told::code(a)
}

// An upvalue at the end of the open list.
#[unsafe(no_mangle)]
pub extern "C" fn sieddesan_open_push(w: &mut [u32], b: &[u8], index: u32, generation: u32) -> u32
    ensures { (result, heap w.new b.now) ≡ served (open_push (upval_ref index generation)) (heap w.old b.now) }
{
    let a = main_calls::open_push(w, b, value::UpvalRef(index, generation));
    told::code(a)
}

// The first n of the open list stay.
#[unsafe(no_mangle)]
pub extern "C" fn sieddesan_open_cut(w: &mut [u32], b: &[u8], n: u32) -> u32
    ensures { (result, heap w.new b.now) ≡ served (open_cut n) (heap w.old b.now) }
{
    let a = main_calls::open_cut(w, b, n);
    told::code(a)
}

// The function index of frame i.
#[unsafe(no_mangle)]
pub extern "C" fn sieddesan_set_frame(w: &mut [u32], b: &[u8], i: u32, n: u32) -> u32
    ensures { (result, heap w.new b.now) ≡ served (set_frame i n) (heap w.old b.now) }
{
    let a = frame_calls::set_frame(w, b, i, n);
    told::code(a)
}

// The current frame.
#[unsafe(no_mangle)]
pub extern "C" fn sieddesan_set_ci(w: &mut [u32], b: &[u8], i: u32) -> u32
    ensures { (result, heap w.new b.now) ≡ served (set_ci i) (heap w.old b.now) }
{
    let a = frame_calls::set_ci(w, b, i);
    told::code(a)
}

// The error value.
#[unsafe(no_mangle)]
pub extern "C" fn sieddesan_set_error(w: &mut [u32], b: &[u8], tag: u32, low: u32, high: u32) -> u32
    ensures { (result, heap w.new b.now) ≡ served (tagged Err tag (set_error (value_of tag low high))) (heap w.old b.now) }
{
    if 8 < tag {
        return told::no_number(w, b);
    }
    let a = main_calls::set_error(w, b, value::value_of(tag, low, high));
    told::code(a)
}

// The hook function.
#[unsafe(no_mangle)]
pub extern "C" fn sieddesan_set_hook(w: &mut [u32], b: &[u8], tag: u32, low: u32, high: u32) -> u32
    ensures { (result, heap w.new b.now) ≡ served (tagged Err tag (set_hook (value_of tag low high))) (heap w.old b.now) }
{
    if 8 < tag {
        return told::no_number(w, b);
    }
    let a = main_calls::set_hook(w, b, value::value_of(tag, low, high));
    told::code(a)
}

// The pause.
#[unsafe(no_mangle)]
pub extern "C" fn sieddesan_set_pause(w: &mut [u32], b: &[u8], n: u32, out: &mut [u32]) -> u32
    ensures { ((result, heap w.new b.now), out.new) ≡ lent 2 setting_told (set_pause n) (heap w.old b.now) out.old }
{
    if out.len() < 2 {
        return 1;
    }
    let a = settings::set_pause(w, b, n);
    tell_setting(out, a)
}

// The step multiplier.
#[unsafe(no_mangle)]
pub extern "C" fn sieddesan_set_stepmul(w: &mut [u32], b: &[u8], n: u32, out: &mut [u32]) -> u32
    ensures { ((result, heap w.new b.now), out.new) ≡ lent 2 setting_told (set_stepmul n) (heap w.old b.now) out.old }
{
    if out.len() < 2 {
        return 1;
    }
    let a = settings::set_stepmul(w, b, n);
    tell_setting(out, a)
}

// The limit, which lowers a threshold above it.
#[unsafe(no_mangle)]
pub extern "C" fn sieddesan_set_limit(w: &mut [u32], b: &[u8], limit: u64, out: &mut [u32]) -> u32
    ensures { ((result, heap w.new b.now), out.new) ≡ lent 2 setting_told (set_limit limit) (heap w.old b.now) out.old }
{
    if out.len() < 2 {
        return 1;
    }
    let a = settings::set_limit(w, b, limit);
    tell_setting(out, a)
}
