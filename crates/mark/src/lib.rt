// Marking (document 01, 'Followed links'): what is white becomes gray and is listed, or becomes black at once. A string has
// no links and is black; a table, closure or thread is gray until it is traversed; a userdata or upvalue is black and its
// links are marked with it. A handle that names no occupied slot has no colour, so nothing is marked by it.
#![tactic(auto)]

ghost use Rattle.std.specs.Prelude.{◌≡◌, ◌+◌, ◌*◌, ◌≤◌, ◌<◌, length};
ghost use Rattle.layout.specs.Layout.{lay_of};
ghost use Rattle.arena.specs.Slots.{Room};
ghost use Rattle.lists.specs.Lists.{RoomFor};
ghost use Rattle.value.specs.Values.{is_nil, value_of, value_at};
ghost use Rattle.mark.specs.Ops.{is_white, other_white};
ghost use Rattle.mark.specs.Words.{shade, grayed, ops};
ghost use Rattle.mark.specs.Marking.{mark_string, mark_table, mark_table_or, mark_closure, mark_thread, follow_userdata, mark_userdata, follow_upvalue, mark_upvalue, value_colour, mark_value, mark_value_at, mark_values, mark_upvalue_at, mark_upvalues};

use arena::Arena;
use layout::{List, Plan};
use lists::Item;
use value::{FuncRef, StrRef, TableRef, ThreadRef, UdRef, UpvalRef, Value};

// The colour of the slot that a handle names, 0 where it names none.
pub fn shade(w: &[u32], a: Arena, index: u32, generation: u32) -> u32
    requires { Room a w.now }
    ensures { result ≡ shade a index generation w.now }
{
    let i = base::wide(index);
    if i < arena::used_of(w, a) && arena::generation_of(w, a, i) == generation {
        arena::colour_of(w, a, i)
    } else {
        0
    }
}

pub fn is_white(c: u32) -> bool
    ensures { result ≡ is_white c }
{
    c == 1 || c == 2
}

// The white that is not this one.
pub fn other_white(c: u32) -> u32
    ensures { result ≡ other_white c }
{
    if c == 1 { 2 } else { 1 }
}

// What is white becomes gray and is listed.
fn mark_gray(w: &mut [u32], a: Arena, g: List, index: u32, generation: u32, x: Item)
    requires room { Room a w.old }
    requires room_for { RoomFor g w.old }
    ensures { w.new ≡ grayed a g index generation x w.old }
{
    if is_white(shade(w, a, index, generation)) {
        arena::set_colour(w, a, base::wide(index), 3);
        lists::push(w, g, x);
    }
}

pub fn mark_string(w: &mut [u32], l: Plan, r: StrRef)
    requires l_in_bounds { (lay_of l.sizes).words ≤ length w.old }
    ensures { w.new ≡ mark_string (ops (lay_of l.sizes)) r w.old }
{
    let a = layout::strings_of(l);
    if is_white(shade(w, a, r.0, r.1)) {
        arena::set_colour(w, a, base::wide(r.0), 4);
    }
}

pub fn mark_table(w: &mut [u32], l: Plan, r: TableRef)
    requires l_in_bounds { (lay_of l.sizes).words ≤ length w.old }
    ensures { w.new ≡ mark_table (ops (lay_of l.sizes)) r w.old }
{
    mark_gray(
        w,
        layout::tables_of(l),
        layout::gray_of(l),
        r.0,
        r.1,
        Item::Table(r),
    );
}

pub fn mark_closure(w: &mut [u32], l: Plan, r: FuncRef)
    requires l_in_bounds { (lay_of l.sizes).words ≤ length w.old }
    ensures { w.new ≡ mark_closure (ops (lay_of l.sizes)) r w.old }
{
    mark_gray(
        w,
        layout::functions_of(l),
        layout::gray_of(l),
        r.0,
        r.1,
        Item::Function(r),
    );
}

pub fn mark_thread(w: &mut [u32], l: Plan, r: ThreadRef)
    requires l_in_bounds { (lay_of l.sizes).words ≤ length w.old }
    ensures { w.new ≡ mark_thread (ops (lay_of l.sizes)) r w.old }
{
    mark_gray(
        w,
        layout::threads_of(l),
        layout::gray_of(l),
        r.0,
        r.1,
        Item::Thread(r),
    );
}

// A table that may be missing.
pub fn mark_table_or(w: &mut [u32], l: Plan, t: Option<TableRef>)
    requires l_in_bounds { (lay_of l.sizes).words ≤ length w.old }
    ensures { w.new ≡ mark_table_or (ops (lay_of l.sizes)) t w.old }
{
    if let Some(r) = t {
        mark_table(w, l, r);
    }
}

// The userdata of slot r.0 is black, its metatable and env are marked.
pub fn follow_userdata(w: &mut [u32], l: Plan, r: UdRef)
    requires l_in_bounds { (lay_of l.sizes).words ≤ length w.old }
    requires r_bound { r.0 < (lay_of l.sizes).userdata.slots }
    ensures { w.new ≡ follow_userdata (ops (lay_of l.sizes)) (lay_of l.sizes) r w.old }
{
    let userdata = layout::userdata_of(l);
    let i = base::wide(r.0);
    let p = record::body_of(w, userdata, i);
    let mt = record::userdata::ud_meta(w, p);
    let env = record::userdata::ud_env(w, p);
    arena::set_colour(w, userdata, i, 4);
    mark_table_or(w, l, mt);
    mark_table_or(w, l, env);
}

pub fn mark_userdata(w: &mut [u32], l: Plan, r: UdRef)
    requires l_in_bounds { (lay_of l.sizes).words ≤ length w.old }
    ensures { w.new ≡ mark_userdata (ops (lay_of l.sizes)) (lay_of l.sizes) r w.old }
{
    if is_white(shade(w, layout::userdata_of(l), r.0, r.1)) {
        follow_userdata(w, l, r);
    }
}

// What the three words of a value refer to, if it is an object. The marking of stacks, arrays and nodes goes by this one: no
// value is built from words that are only looked at.
fn mark_tagged(w: &mut [u32], l: Plan, tag: u32, low: u32, high: u32)
    requires l_in_bounds { (lay_of l.sizes).words ≤ length w.old }
    ensures { w.new ≡ mark_value (ops (lay_of l.sizes)) (lay_of l.sizes) (value_of tag low high) w.old }
{
    match tag {
        4 => mark_string(w, l, StrRef(low, high)),
        5 => mark_table(w, l, TableRef(low, high)),
        6 => mark_closure(w, l, FuncRef(low, high)),
        7 => mark_userdata(w, l, UdRef(low, high)),
        8 => mark_thread(w, l, ThreadRef(low, high)),
        _ => {}
    }
}

pub fn mark_value(w: &mut [u32], l: Plan, v: Value)
    requires l_in_bounds { (lay_of l.sizes).words ≤ length w.old }
    ensures { w.new ≡ mark_value (ops (lay_of l.sizes)) (lay_of l.sizes) v w.old }
{
    mark_tagged(w, l, value::tag_of(v), value::low_of(v), value::high_of(v));
}

// The colour of what a value refers to, 0 where it refers to nothing.
pub fn value_colour(w: &[u32], l: Plan, v: Value) -> u32
    requires l_in_bounds { (lay_of l.sizes).words ≤ length w.now }
    ensures { result ≡ value_colour (ops (lay_of l.sizes)) v w.now }
{
    match v {
        Value::Str(r) => shade(w, layout::strings_of(l), r.0, r.1),
        Value::Table(r) => shade(w, layout::tables_of(l), r.0, r.1),
        Value::Function(r) => shade(w, layout::functions_of(l), r.0, r.1),
        Value::Userdata(r) => shade(w, layout::userdata_of(l), r.0, r.1),
        Value::Thread(r) => shade(w, layout::threads_of(l), r.0, r.1),
        _ => 0,
    }
}

// The value in words p to p + 2.
pub fn mark_value_at(w: &mut [u32], l: Plan, p: usize)
    requires l_in_bounds { (lay_of l.sizes).words ≤ length w.old }
    requires p_in_bounds { p + 2 < length w.old }
    ensures { w.new ≡ mark_value_at (ops (lay_of l.sizes)) (lay_of l.sizes) p w.old }
{
    let tag = base::get(w, p);
    let low = base::get(w, p + 1);
    let high = base::get(w, p + 2);
    mark_tagged(w, l, tag, low, high);
}

// The same. Most values of a table or a stack are no object, or a table that is marked already: these are told here, before a
// call is made.
pub fn mark_place(w: &mut [u32], l: Plan, p: usize)
    requires l_in_bounds { (lay_of l.sizes).words ≤ length w.old }
    requires p_in_bounds { p + 2 < length w.old }
    ensures { w.new ≡ mark_value_at (ops (lay_of l.sizes)) (lay_of l.sizes) p w.old }
{
    let tag = base::get(w, p);
    if tag < 4 {
        return;
    }
    if tag == 5
        && !is_white(shade(
            w,
            layout::tables_of(l),
            base::get(w, p + 1),
            base::get(w, p + 2),
        ))
    {
        return;
    }
    mark_value_at(w, l, p);
}

// Whether the value in words p to p + 2 is nil, as every unknown tag is.
pub fn is_nil_at(w: &[u32], p: usize) -> bool
    requires { p + 2 < length w.now }
    ensures { result ≡ is_nil (value_at w.now p) }
{
    let tag = base::get(w, p);
    tag == 0 || 8 < tag
}

// The upvalue of slot r.0 is black; if it is closed, its value is marked.
fn follow_upvalue(w: &mut [u32], l: Plan, r: UpvalRef)
    requires l_in_bounds { (lay_of l.sizes).words ≤ length w.old }
    requires r_bound { r.0 < (lay_of l.sizes).upvalues.slots }
    ensures { w.new ≡ follow_upvalue (ops (lay_of l.sizes)) (lay_of l.sizes) r w.old }
{
    let upvalues = layout::upvalues_of(l);
    let i = base::wide(r.0);
    let p = record::body_of(w, upvalues, i);
    arena::set_colour(w, upvalues, i, 4);
    if run_record::upvalues::is_closed(w, p) {
        mark_value_at(w, l, p + 1);
    }
}

pub fn mark_upvalue(w: &mut [u32], l: Plan, r: UpvalRef)
    requires l_in_bounds { (lay_of l.sizes).words ≤ length w.old }
    ensures { w.new ≡ mark_upvalue (ops (lay_of l.sizes)) (lay_of l.sizes) r w.old }
{
    if is_white(shade(w, layout::upvalues_of(l), r.0, r.1)) {
        follow_upvalue(w, l, r);
    }
}

// n values from p on.
pub fn mark_values(w: &mut [u32], l: Plan, p: usize, n: usize)
    requires l_in_bounds { (lay_of l.sizes).words ≤ length w.old }
    requires n_in_bounds { p + 3 * n ≤ length w.old }
    ensures { w.new ≡ mark_values (ops (lay_of l.sizes)) (lay_of l.sizes) p n w.old }
{
    for i in 0..n {
        mark_place(w, l, p + 3 * i);
    }
}

fn mark_upvalue_at(w: &mut [u32], l: Plan, p: usize)
    requires l_in_bounds { (lay_of l.sizes).words ≤ length w.old }
    requires p_in_bounds { p + 1 < length w.old }
    ensures { w.new ≡ mark_upvalue_at (ops (lay_of l.sizes)) (lay_of l.sizes) p w.old }
{
    let r = record::read_upval(w, p);
    mark_upvalue(w, l, r);
}

// n handles of upvalues from p on.
pub fn mark_upvalues(w: &mut [u32], l: Plan, p: usize, n: usize)
    requires l_in_bounds { (lay_of l.sizes).words ≤ length w.old }
    requires n_in_bounds { p + 2 * n ≤ length w.old }
    ensures { w.new ≡ mark_upvalues (ops (lay_of l.sizes)) (lay_of l.sizes) p n w.old }
{
    for i in 0..n {
        mark_upvalue_at(w, l, p + 2 * i);
    }
}
