// The calls that store in tables, upvalues and userdata and give a type its metatable, for Rust or C to link: exported functions on
// numbers and slices only. The object is given by its handle. The answer is a code, 0 or the number of a refusal.
#![tactic(auto)]

ghost use Rattle.std.specs.Prelude.{◌≡◌, Err};
ghost use Rattle.base.specs.Heap.{heap};
ghost use Rattle.value.specs.Values.{value_of};
ghost use Rattle.table_calls.specs.TableCalls.{table_set, table_set_meta};
ghost use Rattle.node_calls.specs.NodeCalls.{table_set_node};
ghost use Rattle.upvalue_calls.specs.UpvalueCalls.{upvalue_close, upvalue_set};
ghost use Rattle.object_calls.specs.ObjectCalls.{ud_set_meta, ud_set_env, set_type_meta};
ghost use Rattle.told.specs.Numbers.{table_ref, upval_ref, ud_ref, table_of, tagged, optional};
ghost use Rattle.told.specs.Answers.{served};

// Place i of the array of a table takes a value.
#[unsafe(no_mangle)]
pub extern "C" fn sieddesan_table_set(
    w: &mut [u32],
    b: &[u8],
    index: u32,
    generation: u32,
    i: u32,
    tag: u32,
    low: u32,
    high: u32,
) -> u32
    ensures { (result, heap w.new b.now) ≡ served (tagged Err tag (table_set (table_ref index generation) i (value_of tag low high))) (heap w.old b.now) }
{
    if 8 < tag {
        return told::no_number(w, b);
    }
    let a = table_calls::table_set(
        w,
        b,
        value::TableRef(index, generation),
        i,
        value::value_of(tag, low, high),
    );
    told::code(a)
}

// Node j of a table takes a key and a value.
#[unsafe(no_mangle)]
pub extern "C" fn sieddesan_table_set_node(
    w: &mut [u32],
    b: &[u8],
    index: u32,
    generation: u32,
    j: u32,
    ktag: u32,
    klow: u32,
    khigh: u32,
    tag: u32,
    low: u32,
    high: u32,
) -> u32
    ensures { (result, heap w.new b.now) ≡ served (tagged Err ktag (tagged Err tag (table_set_node (table_ref index generation) j (value_of ktag klow khigh) (value_of tag low high)))) (heap w.old b.now) }
{
    if 8 < ktag {
        return told::no_number(w, b);
    }
    if 8 < tag {
        return told::no_number(w, b);
    }
    let a = node_calls::table_set_node(
        w,
        b,
        value::TableRef(index, generation),
        j,
        value::value_of(ktag, klow, khigh),
        value::value_of(tag, low, high),
    );
    told::code(a)
}

// A table takes a metatable, or loses it.
#[unsafe(no_mangle)]
pub extern "C" fn sieddesan_table_set_meta(
    w: &mut [u32],
    b: &[u8],
    index: u32,
    generation: u32,
    some: u32,
    meta: u32,
    metagen: u32,
) -> u32
    ensures { (result, heap w.new b.now) ≡ served (optional Err some (table_set_meta (table_ref index generation) (table_of some meta metagen))) (heap w.old b.now) }
{
    if 1 < some {
        return told::no_number(w, b);
    }
    let a = table_calls::table_set_meta(
        w,
        b,
        value::TableRef(index, generation),
        told::table_of(some, meta, metagen),
    );
    told::code(a)
}

// An open upvalue is closed over a value.
#[unsafe(no_mangle)]
pub extern "C" fn sieddesan_upvalue_close(
    w: &mut [u32],
    b: &[u8],
    index: u32,
    generation: u32,
    tag: u32,
    low: u32,
    high: u32,
) -> u32
    ensures { (result, heap w.new b.now) ≡ served (tagged Err tag (upvalue_close (upval_ref index generation) (value_of tag low high))) (heap w.old b.now) }
{
    if 8 < tag {
        return told::no_number(w, b);
    }
    let a = upvalue_calls::upvalue_close(
        w,
        b,
        value::UpvalRef(index, generation),
        value::value_of(tag, low, high),
    );
    told::code(a)
}

// A closed upvalue takes a value.
#[unsafe(no_mangle)]
pub extern "C" fn sieddesan_upvalue_set(
    w: &mut [u32],
    b: &[u8],
    index: u32,
    generation: u32,
    tag: u32,
    low: u32,
    high: u32,
) -> u32
    ensures { (result, heap w.new b.now) ≡ served (tagged Err tag (upvalue_set (upval_ref index generation) (value_of tag low high))) (heap w.old b.now) }
{
    if 8 < tag {
        return told::no_number(w, b);
    }
    let a = upvalue_calls::upvalue_set(
        w,
        b,
        value::UpvalRef(index, generation),
        value::value_of(tag, low, high),
    );
    told::code(a)
}

// A userdata takes a metatable, or loses it.
#[unsafe(no_mangle)]
pub extern "C" fn sieddesan_ud_set_meta(
    w: &mut [u32],
    b: &[u8],
    index: u32,
    generation: u32,
    some: u32,
    meta: u32,
    metagen: u32,
) -> u32
    ensures { (result, heap w.new b.now) ≡ served (optional Err some (ud_set_meta (ud_ref index generation) (table_of some meta metagen))) (heap w.old b.now) }
{
    if 1 < some {
        return told::no_number(w, b);
    }
    let a = object_calls::ud_set_meta(
        w,
        b,
        value::UdRef(index, generation),
        told::table_of(some, meta, metagen),
    );
    told::code(a)
}

// A userdata takes an environment, or loses it.
#[unsafe(no_mangle)]
pub extern "C" fn sieddesan_ud_set_env(
    w: &mut [u32],
    b: &[u8],
    index: u32,
    generation: u32,
    some: u32,
    env: u32,
    envgen: u32,
) -> u32
    ensures { (result, heap w.new b.now) ≡ served (optional Err some (ud_set_env (ud_ref index generation) (table_of some env envgen))) (heap w.old b.now) }
{
    if 1 < some {
        return told::no_number(w, b);
    }
    let a = object_calls::ud_set_env(
        w,
        b,
        value::UdRef(index, generation),
        told::table_of(some, env, envgen),
    );
    told::code(a)
}

// The type with tag k takes a metatable, or loses it.
#[unsafe(no_mangle)]
pub extern "C" fn sieddesan_set_type_meta(
    w: &mut [u32],
    b: &[u8],
    k: u32,
    some: u32,
    meta: u32,
    metagen: u32,
) -> u32
    ensures { (result, heap w.new b.now) ≡ served (optional Err some (set_type_meta k (table_of some meta metagen))) (heap w.old b.now) }
{
    if 1 < some {
        return told::no_number(w, b);
    }
    let a = object_calls::set_type_meta(w, b, k, told::table_of(some, meta, metagen));
    told::code(a)
}
