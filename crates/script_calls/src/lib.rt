// A script's commands that change something (document 01, `heapscript`), by the heap's public calls.
#![tactic(auto)]

ghost use Rattle.std.specs.Prelude.{◌≡◌};
ghost use Rattle.base.specs.Heap.{heap};
ghost use Rattle.script_answers.specs.Answers.{script};
ghost use Rattle.script_calls.specs.Commands.{push_command, pop_command, set_item, seti_command, set_node, setn_command, set_meta, meta_command};

use base::Refusal;
use script_print::Outcome;
use value::{TableRef, Value};

// `push K`.
pub fn push_command(w: &mut [u32], b: &[u8], made: &[u32], k: u32) -> Result<Outcome, Refusal>
    ensures { (result, script (heap w.new b.now) made.now) ≡ push_command k (script (heap w.old b.now) made.now) }
{
    match script_made::object_of(made, k) {
        Some(v) => {
            let a = stack_calls::push(w, b, v);
            script_answers::of_served(a)
        }
        None => Err(Refusal::OutOfRange),
    }
}

// `pop`.
pub fn pop_command(w: &mut [u32], b: &[u8], made: &[u32]) -> Result<Outcome, Refusal>
    ensures { (result, script (heap w.new b.now) made.now) ≡ pop_command (script (heap w.old b.now) made.now) }
{
    let a = stack_calls::pop(w, b);
    script_answers::of_got(a)
}

fn set_item(
    w: &mut [u32],
    b: &[u8],
    made: &[u32],
    t: TableRef,
    i: u32,
    k: u32,
) -> Result<Outcome, Refusal>
    ensures { (result, script (heap w.new b.now) made.now) ≡ set_item t i k (script (heap w.old b.now) made.now) }
{
    match script_made::object_of(made, k) {
        Some(v) => {
            let a = table_calls::table_set(w, b, t, i, v);
            script_answers::of_served(a)
        }
        None => Err(Refusal::OutOfRange),
    }
}

// `seti T I K`.
pub fn seti_command(
    w: &mut [u32],
    b: &[u8],
    made: &[u32],
    t: u32,
    i: u32,
    k: u32,
) -> Result<Outcome, Refusal>
    ensures { (result, script (heap w.new b.now) made.now) ≡ seti_command t i k (script (heap w.old b.now) made.now) }
{
    let o = script_made::object_of(made, t);
    match script_answers::table_of(o) {
        Some(x) => set_item(w, b, made, x, i, k),
        None => Err(Refusal::OutOfRange),
    }
}

fn set_node(
    w: &mut [u32],
    b: &[u8],
    made: &[u32],
    t: TableRef,
    j: u32,
    k: u32,
    v: u32,
) -> Result<Outcome, Refusal>
    ensures { (result, script (heap w.new b.now) made.now) ≡ set_node t j k v (script (heap w.old b.now) made.now) }
{
    let Some(x) = script_made::object_of(made, k) else {
        return Err(Refusal::OutOfRange);
    };
    let Some(y) = script_made::object_of(made, v) else {
        return Err(Refusal::OutOfRange);
    };
    let a = node_calls::table_set_node(w, b, t, j, x, y);
    script_answers::of_served(a)
}

// `setn T J K V`.
pub fn setn_command(
    w: &mut [u32],
    b: &[u8],
    made: &[u32],
    t: u32,
    j: u32,
    k: u32,
    v: u32,
) -> Result<Outcome, Refusal>
    ensures { (result, script (heap w.new b.now) made.now) ≡ setn_command t j k v (script (heap w.old b.now) made.now) }
{
    let o = script_made::object_of(made, t);
    match script_answers::table_of(o) {
        Some(x) => set_node(w, b, made, x, j, k, v),
        None => Err(Refusal::OutOfRange),
    }
}

fn set_meta(
    w: &mut [u32],
    b: &[u8],
    made: &[u32],
    v: Value,
    t: Option<TableRef>,
) -> Result<Outcome, Refusal>
    ensures { (result, script (heap w.new b.now) made.now) ≡ set_meta v t (script (heap w.old b.now) made.now) }
{
    match v {
        Value::Table(x) => {
            let a = table_calls::table_set_meta(w, b, x, t);
            script_answers::of_served(a)
        }
        Value::Userdata(x) => {
            let a = object_calls::ud_set_meta(w, b, x, t);
            script_answers::of_served(a)
        }
        _ => Err(Refusal::OutOfRange),
    }
}

// `meta K T`.
pub fn meta_command(
    w: &mut [u32],
    b: &[u8],
    made: &[u32],
    k: u32,
    t: u32,
) -> Result<Outcome, Refusal>
    ensures { (result, script (heap w.new b.now) made.now) ≡ meta_command k t (script (heap w.old b.now) made.now) }
{
    let Some(v) = script_made::object_of(made, k) else {
        return Err(Refusal::OutOfRange);
    };
    let o = script_made::object_of(made, t);
    match script_answers::meta_of(o) {
        Some(m) => set_meta(w, b, made, v, m),
        None => Err(Refusal::OutOfRange),
    }
}
