// The calls that store in a table's array, or give it a metatable (document 01, module 5). Each gives 1 and 8 first, then 4, then
// 2, and changes nothing where it refuses. The backward barrier follows the store; where it set the damage mark the answer is 8.
#![tactic(auto)]

ghost use Rattle.std.specs.Prelude.{◌≡◌, ◌+◌, ◌≤◌, length};
ghost use Rattle.layout.specs.Layout.{lay_of};
ghost use Rattle.base.specs.Heap.{heap};
ghost use Rattle.table_calls.specs.TableCalls.{store_at, table_set_in, table_set, store_meta, table_set_meta_in, table_set_meta};

use base::Refusal;
use layout::Plan;
use value::{TableRef, Value};

// Place i of the array of table t, whose record is at p.
fn store_at(
    w: &mut [u32],
    l: Plan,
    t: TableRef,
    i: usize,
    v: Value,
    p: usize,
) -> Result<(), Refusal>
    requires l_in_bounds { (lay_of l.sizes).words ≤ length w.old }
    requires p_in_bounds { p + 580 ≤ length w.old }
    ensures { (result, w.new) ≡ store_at (lay_of l.sizes) t i v p w.old }
{
    if record::tables::array_size(w, p) <= i {
        return Err(Refusal::OutOfRange);
    }
    if !given::is_sound(w, l, v) {
        return Err(Refusal::Stale);
    }
    record::tables::set_array_value(w, p, i, v);
    propagate::barrier_back(w, l, t);
    Ok(())
}

fn table_set_in(w: &mut [u32], l: Plan, t: TableRef, i: u32, v: Value) -> Result<(), Refusal>
    requires l_in_bounds { (lay_of l.sizes).words ≤ length w.old }
    ensures { (result, w.new) ≡ table_set_in t i v (lay_of l.sizes) w.old }
{
    let tables = layout::tables_of(l);
    let n = arena::name_of(w, tables, t.0, t.1).ok_or(Refusal::Stale)?;
    let p = record::body_of(w, tables, n);
    store_at(w, l, t, base::wide(i), v, p)
}

// A value in place i of a table's array, counted from 0: 4 past the array of a table that is named, 2 for a table or a value that
// names nothing.
pub fn table_set(w: &mut [u32], b: &[u8], t: TableRef, i: u32, v: Value) -> Result<(), Refusal>
    ensures { (result, heap w.new b.now) ≡ table_set t i v (heap w.old b.now) }
{
    let l = test1::enter(w, b)?;
    let a = table_set_in(w, l, t, i, v);
    given::unmarked(w, a)
}

// The metatable of table t, whose record is at p.
fn store_meta(
    w: &mut [u32],
    l: Plan,
    t: TableRef,
    m: Option<TableRef>,
    p: usize,
) -> Result<(), Refusal>
    requires l_in_bounds { (lay_of l.sizes).words ≤ length w.old }
    requires p_in_bounds { p + 580 ≤ length w.old }
    ensures { (result, w.new) ≡ store_meta (lay_of l.sizes) t m p w.old }
{
    if !given::is_table_or(w, l, m) {
        return Err(Refusal::Stale);
    }
    record::tables::set_table_meta(w, p, m);
    propagate::barrier_back(w, l, t);
    Ok(())
}

fn table_set_meta_in(
    w: &mut [u32],
    l: Plan,
    t: TableRef,
    m: Option<TableRef>,
) -> Result<(), Refusal>
    requires l_in_bounds { (lay_of l.sizes).words ≤ length w.old }
    ensures { (result, w.new) ≡ table_set_meta_in t m (lay_of l.sizes) w.old }
{
    let tables = layout::tables_of(l);
    let n = arena::name_of(w, tables, t.0, t.1).ok_or(Refusal::Stale)?;
    let p = record::body_of(w, tables, n);
    store_meta(w, l, t, m, p)
}

// A table's metatable, or none: 2 for a table that names nothing.
pub fn table_set_meta(
    w: &mut [u32],
    b: &[u8],
    t: TableRef,
    m: Option<TableRef>,
) -> Result<(), Refusal>
    ensures { (result, heap w.new b.now) ≡ table_set_meta t m (heap w.old b.now) }
{
    let l = test1::enter(w, b)?;
    let a = table_set_meta_in(w, l, t, m);
    given::unmarked(w, a)
}
