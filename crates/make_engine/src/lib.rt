// The calls that make, for Rust or C to link: exported functions on numbers and slices only. Values in a list take three words each,
// handles of upvalues two, numbers of prototypes one. The answer is a code, 0 or the number of a refusal, and two words lent for
// the handle that was made, index and generation, or the number of a prototype and 0.
#![tactic(auto)]

ghost use Rattle.std.specs.Prelude.{◌≡◌, ◌≤◌, length, Err};
ghost use Rattle.base.specs.Heap.{heap};
ghost use Rattle.value.specs.Values.{value_of};
ghost use Rattle.make_strings.specs.Making.{make_string};
ghost use Rattle.make_tables.specs.Making.{make_table, make_userdata};
ghost use Rattle.make_threads.specs.Making.{make_open_upvalue, make_closed_upvalue, make_thread};
ghost use Rattle.make_protos.specs.Making.{make_proto};
ghost use Rattle.make_closures.specs.Making.{make_lua_closure, make_rust_closure};
ghost use Rattle.told.specs.Numbers.{table_ref, table_of, tagged, optional};
ghost use Rattle.told.specs.Answers.{lent};
ghost use Rattle.make_codes.specs.Codes.{listed, made_told};

// A string of these bytes: its handle.
#[unsafe(no_mangle)]
pub extern "C" fn sieddesan_make_string(
    w: &mut [u32],
    b: &mut [u8],
    s: &[u8],
    out: &mut [u32],
) -> u32
    ensures { ((result, heap w.new b.new), out.new) ≡ lent 2 made_told (make_string s.now) (heap w.old b.old) out.old }
{
    if out.len() < 2 {
        return 1;
    }
    let a = make_strings::make_string(w, b, s);
    make_codes::tell_made(out, a)
}

// A table: its handle.
#[unsafe(no_mangle)]
pub extern "C" fn sieddesan_make_table(
    w: &mut [u32],
    b: &[u8],
    array: u32,
    nodes: u32,
    out: &mut [u32],
) -> u32
    ensures { ((result, heap w.new b.now), out.new) ≡ lent 2 made_told (make_table array nodes) (heap w.old b.now) out.old }
{
    if out.len() < 2 {
        return 1;
    }
    let a = make_tables::make_table(w, b, array, nodes);
    make_codes::tell_made(out, a)
}

// A prototype with these constants and nested ones: its number.
#[unsafe(no_mangle)]
pub extern "C" fn sieddesan_make_proto(
    w: &mut [u32],
    b: &[u8],
    constants: &[u32],
    nested: &[u32],
    out: &mut [u32],
) -> u32
    ensures { ((result, heap w.new b.now), out.new) ≡ lent 2 made_told (listed constants.now (make_proto constants.now nested.now)) (heap w.old b.now) out.old }
{
    if out.len() < 2 {
        return 1;
    }
    if !make_codes::are_tags(constants) {
        return told::no_number(w, b);
    }
    let a = make_protos::make_proto(w, b, constants, nested);
    make_codes::tell_made(out, a)
}

// A Lua closure of a prototype, with its env and its upvalues: its handle.
#[unsafe(no_mangle)]
pub extern "C" fn sieddesan_make_lua_closure(
    w: &mut [u32],
    b: &[u8],
    proto: u32,
    env: u32,
    envgen: u32,
    upvalues: &[u32],
    out: &mut [u32],
) -> u32
    ensures { ((result, heap w.new b.now), out.new) ≡ lent 2 made_told (make_lua_closure proto (table_ref env envgen) upvalues.now) (heap w.old b.now) out.old }
{
    if out.len() < 2 {
        return 1;
    }
    let a = make_closures::make_lua_closure(w, b, proto, value::TableRef(env, envgen), upvalues);
    make_codes::tell_made(out, a)
}

// A Rust closure with its env, if any, and its values: its handle.
#[unsafe(no_mangle)]
pub extern "C" fn sieddesan_make_rust_closure(
    w: &mut [u32],
    b: &[u8],
    some: u32,
    env: u32,
    envgen: u32,
    values: &[u32],
    out: &mut [u32],
) -> u32
    ensures { ((result, heap w.new b.now), out.new) ≡ lent 2 made_told (optional Err some (listed values.now (make_rust_closure (table_of some env envgen) values.now))) (heap w.old b.now) out.old }
{
    if out.len() < 2 {
        return 1;
    }
    if 1 < some {
        return told::no_number(w, b);
    }
    if !make_codes::are_tags(values) {
        return told::no_number(w, b);
    }
    let a = make_closures::make_rust_closure(w, b, told::table_of(some, env, envgen), values);
    make_codes::tell_made(out, a)
}

// An open upvalue: its handle.
#[unsafe(no_mangle)]
pub extern "C" fn sieddesan_make_open_upvalue(w: &mut [u32], b: &[u8], out: &mut [u32]) -> u32
    ensures { ((result, heap w.new b.now), out.new) ≡ lent 2 made_told make_open_upvalue (heap w.old b.now) out.old }
{
    if out.len() < 2 {
        return 1;
    }
    let a = make_threads::make_open_upvalue(w, b);
    make_codes::tell_made(out, a)
}

// An upvalue closed over a value: its handle.
#[unsafe(no_mangle)]
pub extern "C" fn sieddesan_make_closed_upvalue(
    w: &mut [u32],
    b: &[u8],
    tag: u32,
    low: u32,
    high: u32,
    out: &mut [u32],
) -> u32
    ensures { ((result, heap w.new b.now), out.new) ≡ lent 2 made_told (tagged Err tag (make_closed_upvalue (value_of tag low high))) (heap w.old b.now) out.old }
{
    if out.len() < 2 {
        return 1;
    }
    if 8 < tag {
        return told::no_number(w, b);
    }
    let a = make_threads::make_closed_upvalue(w, b, value::value_of(tag, low, high));
    make_codes::tell_made(out, a)
}

// A userdata: its handle.
#[unsafe(no_mangle)]
pub extern "C" fn sieddesan_make_userdata(w: &mut [u32], b: &[u8], out: &mut [u32]) -> u32
    ensures { ((result, heap w.new b.now), out.new) ≡ lent 2 made_told make_userdata (heap w.old b.now) out.old }
{
    if out.len() < 2 {
        return 1;
    }
    let a = make_tables::make_userdata(w, b);
    make_codes::tell_made(out, a)
}

// A thread with its global table and a stack of so many places: its handle.
#[unsafe(no_mangle)]
pub extern "C" fn sieddesan_make_thread(
    w: &mut [u32],
    b: &[u8],
    global: u32,
    globalgen: u32,
    stack: u32,
    out: &mut [u32],
) -> u32
    ensures { ((result, heap w.new b.now), out.new) ≡ lent 2 made_told (make_thread (table_ref global globalgen) stack) (heap w.old b.now) out.old }
{
    if out.len() < 2 {
        return 1;
    }
    let a = make_threads::make_thread(w, b, value::TableRef(global, globalgen), stack);
    make_codes::tell_made(out, a)
}
