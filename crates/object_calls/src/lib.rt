// The calls that give a userdata a metatable or an environment, or a type its metatable, or take it away (document 01, module 5).
// Each gives 1 and 8 first, then 4, then 2, and changes nothing where it refuses. The forward barrier follows the store of a
// table; where it set the damage mark the answer is 8.
#![tactic(auto)]

ghost use Rattle.std.specs.Prelude.{◌≡◌, ◌+◌, ◌≤◌, length};
ghost use Rattle.layout.specs.Layout.{lay_of};
ghost use Rattle.base.specs.Heap.{heap};
ghost use Rattle.object_calls.specs.ObjectCalls.{forward_table, forward_from, stored, part_at, ud_set_in, ud_set_meta, ud_set_env, set_type_meta_in, set_type_meta};

use base::Refusal;
use layout::Plan;
use value::{TableRef, UdRef, Value};

// The forward barrier of a table that may be missing.
fn forward_table(w: &mut [u32], l: Plan, parent: u32, t: Option<TableRef>)
    requires l_in_bounds { (lay_of l.sizes).words ≤ length w.old }
    ensures { w.new ≡ forward_table (lay_of l.sizes) parent t w.old }
{
    if let Some(r) = t {
        propagate::barrier_forward(w, l, parent, Value::Table(r));
    }
}

// The same with a userdata as the parent.
fn forward_from(w: &mut [u32], l: Plan, d: UdRef, t: Option<TableRef>)
    requires l_in_bounds { (lay_of l.sizes).words ≤ length w.old }
    ensures { w.new ≡ forward_from (lay_of l.sizes) d t w.old }
{
    let c = mark::shade(w, layout::userdata_of(l), d.0, d.1);
    forward_table(w, l, c, t);
}

// The two tables that a userdata may hold.
#[derive(Clone, Copy)]
enum Part {
    Meta,
    Env,
}

// The metatable or the environment of the userdata whose record is at p.
fn store(w: &mut [u32], p: usize, part: Part, t: Option<TableRef>)
    requires { p + 7 ≤ length w.old }
    ensures { w.new ≡ stored part p t w.old }
{
    match part {
        Part::Meta => record::userdata::set_ud_meta(w, p, t),
        Part::Env => record::userdata::set_ud_env(w, p, t),
    }
}

// The same for userdata d: a table that is given has to name one, and the barrier follows.
fn part_at(
    w: &mut [u32],
    l: Plan,
    d: UdRef,
    part: Part,
    t: Option<TableRef>,
    p: usize,
) -> Result<(), Refusal>
    requires l_in_bounds { (lay_of l.sizes).words ≤ length w.old }
    requires p_in_bounds { p + 7 ≤ length w.old }
    ensures { (result, w.new) ≡ part_at part (lay_of l.sizes) d t p w.old }
{
    if !given::is_table_or(w, l, t) {
        return Err(Refusal::Stale);
    }
    store(w, p, part, t);
    forward_from(w, l, d, t);
    Ok(())
}

fn ud_set_in(
    w: &mut [u32],
    l: Plan,
    d: UdRef,
    part: Part,
    t: Option<TableRef>,
) -> Result<(), Refusal>
    requires l_in_bounds { (lay_of l.sizes).words ≤ length w.old }
    ensures { (result, w.new) ≡ ud_set_in part d t (lay_of l.sizes) w.old }
{
    let userdata = layout::userdata_of(l);
    let n = arena::name_of(w, userdata, d.0, d.1).ok_or(Refusal::Stale)?;
    let p = record::body_of(w, userdata, n);
    part_at(w, l, d, part, t, p)
}

// A userdata's metatable, or none: 2 for a userdata or a table that names nothing.
pub fn ud_set_meta(w: &mut [u32], b: &[u8], d: UdRef, t: Option<TableRef>) -> Result<(), Refusal>
    ensures { (result, heap w.new b.now) ≡ ud_set_meta d t (heap w.old b.now) }
{
    let l = test1::enter(w, b)?;
    let a = ud_set_in(w, l, d, Part::Meta, t);
    given::unmarked(w, a)
}

// A userdata's environment, or none: 2 for a userdata or a table that names nothing.
pub fn ud_set_env(w: &mut [u32], b: &[u8], d: UdRef, t: Option<TableRef>) -> Result<(), Refusal>
    ensures { (result, heap w.new b.now) ≡ ud_set_env d t (heap w.old b.now) }
{
    let l = test1::enter(w, b)?;
    let a = ud_set_in(w, l, d, Part::Env, t);
    given::unmarked(w, a)
}

// The main record is taken as black, so the parent's colour is 4.
fn set_type_meta_in(w: &mut [u32], l: Plan, k: u32, t: Option<TableRef>) -> Result<(), Refusal>
    requires l_in_bounds { (lay_of l.sizes).words ≤ length w.old }
    ensures { (result, w.new) ≡ set_type_meta_in k t (lay_of l.sizes) w.old }
{
    let i = base::wide(k);
    if 8 < i {
        return Err(Refusal::OutOfRange);
    }
    if !given::is_table_or(w, l, t) {
        return Err(Refusal::Stale);
    }
    main_record::set_type_meta(w, i, t);
    forward_table(w, l, 4, t);
    Ok(())
}

// The metatable of type k, or none: 4 for a kind past 8, 2 for a table that names nothing.
pub fn set_type_meta(w: &mut [u32], b: &[u8], k: u32, t: Option<TableRef>) -> Result<(), Refusal>
    ensures { (result, heap w.new b.now) ≡ set_type_meta k t (heap w.old b.now) }
{
    let l = test1::enter(w, b)?;
    let a = set_type_meta_in(w, l, k, t);
    given::unmarked(w, a)
}
