// The call that stores a key and its value in a node of a table (document 01, module 5). It gives 1 and 8 first, then 4, then 2,
// and changes nothing where it refuses. The backward barrier follows the store; where it set the damage mark the answer is 8.
#![tactic(auto)]

ghost use Rattle.std.specs.Prelude.{◌≡◌, ◌+◌, ◌≤◌, ◌<◌, length};
ghost use Rattle.layout.specs.Layout.{lay_of};
ghost use Rattle.base.specs.Heap.{heap};
ghost use Rattle.node_calls.specs.NodeCalls.{is_nan_key, is_node, is_twin, is_taken, store_node, table_set_node_in, table_set_node};

use base::Refusal;
use layout::Plan;
use value::{TableRef, Value};

// Whether a key is NaN.
fn is_nan_key(k: Value) -> bool
    ensures { result ≡ is_nan_key k }
{
    match k {
        Value::Number(x) => value::is_nan(x),
        _ => false,
    }
}

// Whether a node may hold key and value: NaN is no key, and nil has no value.
fn is_node(k: Value, v: Value) -> bool
    ensures { result ≡ is_node k v }
{
    if is_nan_key(k) {
        false
    } else if value::is_nil(k) {
        value::is_nil(v)
    } else {
        true
    }
}

// Whether node i is another node than j and has its key.
fn is_twin(w: &[u32], p: usize, j: usize, k: Value, i: usize) -> bool
    requires p_in_bounds { p + 580 ≤ length w.now }
    requires i_bound { i < 64 }
    ensures { result ≡ is_twin p j k w.now i }
{
    i != j && value::key_equal(record::tables::node_key(w, p, i), k)
}

// Whether another node than j has the key.
fn is_taken(w: &[u32], p: usize, j: usize, k: Value) -> bool
    requires { p + 580 ≤ length w.now }
    ensures { result ≡ is_taken p j k w.now }
{
    if value::is_nil(k) {
        return false;
    }
    let n = record::tables::node_count(w, p);
    for i in 0..n {
        if is_twin(w, p, j, k, i) {
            return true;
        }
    }
    false
}

// Node j of table t, whose record is at p.
fn store_node(
    w: &mut [u32],
    l: Plan,
    t: TableRef,
    j: usize,
    k: Value,
    v: Value,
    p: usize,
) -> Result<(), Refusal>
    requires l_in_bounds { (lay_of l.sizes).words ≤ length w.old }
    requires p_in_bounds { p + 580 ≤ length w.old }
    ensures { (result, w.new) ≡ store_node (lay_of l.sizes) t j k v p w.old }
{
    if record::tables::node_count(w, p) <= j {
        return Err(Refusal::OutOfRange);
    }
    if is_taken(w, p, j, k) {
        return Err(Refusal::OutOfRange);
    }
    if !given::is_sound(w, l, k) {
        return Err(Refusal::Stale);
    }
    if !given::is_sound(w, l, v) {
        return Err(Refusal::Stale);
    }
    record::tables::set_node(w, p, j, k, v);
    propagate::barrier_back(w, l, t);
    Ok(())
}

fn table_set_node_in(
    w: &mut [u32],
    l: Plan,
    t: TableRef,
    j: u32,
    k: Value,
    v: Value,
) -> Result<(), Refusal>
    requires l_in_bounds { (lay_of l.sizes).words ≤ length w.old }
    ensures { (result, w.new) ≡ table_set_node_in t j k v (lay_of l.sizes) w.old }
{
    let tables = layout::tables_of(l);
    if !is_node(k, v) {
        return Err(Refusal::OutOfRange);
    }
    let n = arena::name_of(w, tables, t.0, t.1).ok_or(Refusal::Stale)?;
    let p = record::body_of(w, tables, n);
    store_node(w, l, t, base::wide(j), k, v, p)
}

// Key and value in node j of a table, counted from 0; nil for both empties it. 4 for a key that is NaN or nil with a value, and, of
// a table that is named, past its nodes or for a key that another node has; 2 for a table, a key or a value that names nothing.
pub fn table_set_node(
    w: &mut [u32],
    b: &[u8],
    t: TableRef,
    j: u32,
    k: Value,
    v: Value,
) -> Result<(), Refusal>
    ensures { (result, heap w.new b.now) ≡ table_set_node t j k v (heap w.old b.now) }
{
    let l = test1::enter(w, b)?;
    let a = table_set_node_in(w, l, t, j, k, v);
    given::unmarked(w, a)
}
