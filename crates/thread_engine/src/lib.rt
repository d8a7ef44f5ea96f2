// The calls on a thread, for Rust or C to link: exported functions on numbers and slices only. The thread is given by its handle.
// The answer is a code, 0 or the number of a refusal, and three words lent for a popped value.
#![tactic(auto)]

ghost use Rattle.std.specs.Prelude.{◌≡◌, Err};
ghost use Rattle.base.specs.Heap.{heap};
ghost use Rattle.value.specs.Values.{value_of};
ghost use Rattle.thread_stack_calls.specs.ThreadStacks.{thread_push, thread_pop};
ghost use Rattle.thread_set_calls.specs.ThreadSets.{thread_set, thread_set_top};
ghost use Rattle.thread_open_calls.specs.ThreadOpens.{thread_open_push, thread_open_cut};
ghost use Rattle.thread_suspended_calls.specs.ThreadSuspended.{thread_suspended_push, thread_suspended_cut};
ghost use Rattle.thread_calls.specs.ThreadCalls.{thread_set_global, thread_set_error};
ghost use Rattle.hook_calls.specs.HookCalls.{thread_set_hook};
ghost use Rattle.told.specs.Numbers.{table_ref, upval_ref, thread_ref, tagged};
ghost use Rattle.told.specs.Answers.{served, got_told, lent};

// A value on top of its stack.
#[unsafe(no_mangle)]
pub extern "C" fn sieddesan_thread_push(
    w: &mut [u32],
    b: &[u8],
    index: u32,
    generation: u32,
    tag: u32,
    low: u32,
    high: u32,
) -> u32
    ensures { (result, heap w.new b.now) ≡ served (tagged Err tag (thread_push (thread_ref index generation) (value_of tag low high))) (heap w.old b.now) }
{
    if 8 < tag {
        return told::no_number(w, b);
    }
    let a = thread_stack_calls::thread_push(
        w,
        b,
        value::ThreadRef(index, generation),
        value::value_of(tag, low, high),
    );
    told::code(a)
}

// The value on top of its stack is taken off.
#[unsafe(no_mangle)]
pub extern "C" fn sieddesan_thread_pop(
    w: &mut [u32],
    b: &[u8],
    index: u32,
    generation: u32,
    out: &mut [u32],
) -> u32
    ensures { ((result, heap w.new b.now), out.new) ≡ lent 3 got_told (thread_pop (thread_ref index generation)) (heap w.old b.now) out.old }
{
    if out.len() < 3 {
        return 1;
    }
    let a = thread_stack_calls::thread_pop(w, b, value::ThreadRef(index, generation));
    told::tell_value(out, a)
}

// Place i of its stack takes a value.
#[unsafe(no_mangle)]
pub extern "C" fn sieddesan_thread_set(
    w: &mut [u32],
    b: &[u8],
    index: u32,
    generation: u32,
    i: u32,
    tag: u32,
    low: u32,
    high: u32,
) -> u32
    ensures { (result, heap w.new b.now) ≡ served (tagged Err tag (thread_set (thread_ref index generation) i (value_of tag low high))) (heap w.old b.now) }
{
    if 8 < tag {
        return told::no_number(w, b);
    }
    let a = thread_set_calls::thread_set(
        w,
        b,
        value::ThreadRef(index, generation),
        i,
        value::value_of(tag, low, high),
    );
    told::code(a)
}

// The top of its stack becomes n.
#[unsafe(no_mangle)]
pub extern "C" fn sieddesan_thread_set_top(
    w: &mut [u32],
    b: &[u8],
    index: u32,
    generation: u32,
    n: u32,
) -> u32
    ensures { (result, heap w.new b.now) ≡ served (thread_set_top (thread_ref index generation) n) (heap w.old b.now) }
{
    let a = thread_set_calls::thread_set_top(w, b, value::ThreadRef(index, generation), n);
    told::code(a)
}

// An upvalue at the end of its open list.
#[unsafe(no_mangle)]
pub extern "C" fn sieddesan_thread_open_push(
    w: &mut [u32],
    b: &[u8],
    index: u32,
    generation: u32,
    upvalue: u32,
    upvaluegen: u32,
) -> u32
    ensures { (result, heap w.new b.now) ≡ served (thread_open_push (thread_ref index generation) (upval_ref upvalue upvaluegen)) (heap w.old b.now) }
{
    let a = thread_open_calls::thread_open_push(
        w,
        b,
        value::ThreadRef(index, generation),
        value::UpvalRef(upvalue, upvaluegen),
    );
    told::code(a)
}

// The first n of its open list stay.
#[unsafe(no_mangle)]
pub extern "C" fn sieddesan_thread_open_cut(
    w: &mut [u32],
    b: &[u8],
    index: u32,
    generation: u32,
    n: u32,
) -> u32
    ensures { (result, heap w.new b.now) ≡ served (thread_open_cut (thread_ref index generation) n) (heap w.old b.now) }
{
    let a = thread_open_calls::thread_open_cut(w, b, value::ThreadRef(index, generation), n);
    told::code(a)
}

// An upvalue at the end of its suspended list.
#[unsafe(no_mangle)]
pub extern "C" fn sieddesan_thread_suspended_push(
    w: &mut [u32],
    b: &[u8],
    index: u32,
    generation: u32,
    upvalue: u32,
    upvaluegen: u32,
) -> u32
    ensures { (result, heap w.new b.now) ≡ served (thread_suspended_push (thread_ref index generation) (upval_ref upvalue upvaluegen)) (heap w.old b.now) }
{
    let a = thread_suspended_calls::thread_suspended_push(
        w,
        b,
        value::ThreadRef(index, generation),
        value::UpvalRef(upvalue, upvaluegen),
    );
    told::code(a)
}

// The first n of its suspended list stay.
#[unsafe(no_mangle)]
pub extern "C" fn sieddesan_thread_suspended_cut(
    w: &mut [u32],
    b: &[u8],
    index: u32,
    generation: u32,
    n: u32,
) -> u32
    ensures { (result, heap w.new b.now) ≡ served (thread_suspended_cut (thread_ref index generation) n) (heap w.old b.now) }
{
    let a = thread_suspended_calls::thread_suspended_cut(
        w,
        b,
        value::ThreadRef(index, generation),
        n,
    );
    told::code(a)
}

// Its global table.
#[unsafe(no_mangle)]
pub extern "C" fn sieddesan_thread_set_global(
    w: &mut [u32],
    b: &[u8],
    index: u32,
    generation: u32,
    global: u32,
    globalgen: u32,
) -> u32
    ensures { (result, heap w.new b.now) ≡ served (thread_set_global (thread_ref index generation) (table_ref global globalgen)) (heap w.old b.now) }
{
    let a = thread_calls::thread_set_global(
        w,
        b,
        value::ThreadRef(index, generation),
        value::TableRef(global, globalgen),
    );
    told::code(a)
}

// Its error value.
#[unsafe(no_mangle)]
pub extern "C" fn sieddesan_thread_set_error(
    w: &mut [u32],
    b: &[u8],
    index: u32,
    generation: u32,
    tag: u32,
    low: u32,
    high: u32,
) -> u32
    ensures { (result, heap w.new b.now) ≡ served (tagged Err tag (thread_set_error (thread_ref index generation) (value_of tag low high))) (heap w.old b.now) }
{
    if 8 < tag {
        return told::no_number(w, b);
    }
    let a = thread_calls::thread_set_error(
        w,
        b,
        value::ThreadRef(index, generation),
        value::value_of(tag, low, high),
    );
    told::code(a)
}

// Its hook function.
#[unsafe(no_mangle)]
pub extern "C" fn sieddesan_thread_set_hook(
    w: &mut [u32],
    b: &[u8],
    index: u32,
    generation: u32,
    tag: u32,
    low: u32,
    high: u32,
) -> u32
    ensures { (result, heap w.new b.now) ≡ served (tagged Err tag (thread_set_hook (thread_ref index generation) (value_of tag low high))) (heap w.old b.now) }
{
    if 8 < tag {
        return told::no_number(w, b);
    }
    let a = hook_calls::thread_set_hook(
        w,
        b,
        value::ThreadRef(index, generation),
        value::value_of(tag, low, high),
    );
    told::code(a)
}
