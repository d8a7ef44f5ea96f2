// Propagation (the source's propagate_one and propagate_all), the roots, and both barriers.
#![tactic(auto)]

ghost use Rattle.std.specs.Prelude.{◌≡◌, ◌+◌, ◌≤◌, ◌<◌, length};
ghost use Rattle.layout.specs.Layout.{lay_of};
ghost use Rattle.mark.specs.Words.{ops};
ghost use Rattle.propagate.specs.Propagation.{Costs, goes_on, propagate_item, propagate_one, rounds, propagate_all};
ghost use Rattle.propagate.specs.Roots.{clear_lists, mark_string_or, mark_type, mark_types, mark_gc_roots, mark_roots};
ghost use Rattle.propagate.specs.Barriers.{barrier_back, barrier_forward};

use layout::Plan;
use lists::Item;
use value::{StrRef, TableRef, Value};

// What one step answers: the cost of what was traversed; that the main thread is next; that nothing is gray.
#[derive(Clone, Copy)]
pub enum Propagated {
    Done(usize),
    NeedMainThread,
    Empty,
}

// An item of no kind that is traversed is taken out at cost 0.
pub fn propagate_item(w: &mut [u32], b: &[u8], l: Plan, x: Item) -> Propagated
    requires l_in_bounds { (lay_of l.sizes).words ≤ length w.old }
    requires l_in_bounds_2 { (lay_of l.sizes).bytes ≤ length b.now }
    ensures { ((result, w.new) ≡ propagate_item (ops (lay_of l.sizes)) (lay_of l.sizes) b.now x w.old) × Costs result }
{
    match x {
        Item::Table(r) => Propagated::Done(table_walk::traverse_table(w, b, l, r)),
        Item::Function(r) => Propagated::Done(run_walk::closures::traverse_closure(w, l, r)),
        Item::Thread(r) => Propagated::Done(run_walk::threads::traverse_thread(w, l, r)),
        Item::Main => Propagated::NeedMainThread,
        Item::Userdata(_) => Propagated::Done(0),
        Item::Unknown => Propagated::Done(0),
    }
}

// The last gray item is taken out and traversed.
pub fn propagate_one(w: &mut [u32], b: &[u8], l: Plan) -> Propagated
    requires l_in_bounds { (lay_of l.sizes).words ≤ length w.old }
    requires l_in_bounds_2 { (lay_of l.sizes).bytes ≤ length b.now }
    ensures { ((result, w.new) ≡ propagate_one (ops (lay_of l.sizes)) (lay_of l.sizes) b.now w.old) × Costs result }
{
    match lists::pop(w, layout::gray_of(l)) {
        Some(x) => propagate_item(w, b, l, x),
        None => Propagated::Empty,
    }
}

fn goes_on(p: Propagated) -> bool
    ensures { result ≡ goes_on p }
{
    match p {
        Propagated::Done(_) => true,
        Propagated::NeedMainThread => true,
        Propagated::Empty => false,
    }
}

// A step takes one item out, and an item is listed only where a white slot becomes gray: so many steps are enough.
fn rounds(l: Plan) -> usize
    ensures { (result ≡ rounds (lay_of l.sizes)) × (result ≤ 24577) }
{
    2 * (l.sizes.tables + l.sizes.functions + l.sizes.threads) + 1
}

// Until nothing is gray. The main thread costs nothing here: it was followed by the caller.
pub fn propagate_all(w: &mut [u32], b: &[u8], l: Plan)
    requires l_in_bounds { (lay_of l.sizes).words ≤ length w.old }
    requires l_in_bounds_2 { (lay_of l.sizes).bytes ≤ length b.now }
    ensures { w.new ≡ propagate_all (ops (lay_of l.sizes)) (lay_of l.sizes) b.now w.old }
{
    for _ in 0..rounds(l) {
        if !goes_on(propagate_one(w, b, l)) {
            return;
        }
    }
}

// Gray, grayagain and weak are emptied.
pub fn clear_lists(w: &mut [u32], l: Plan)
    requires l_in_bounds { (lay_of l.sizes).words ≤ length w.old }
    ensures { w.new ≡ clear_lists (ops (lay_of l.sizes)) w.old }
{
    lists::clear_list(w, layout::gray_of(l));
    lists::clear_list(w, layout::grayagain_of(l));
    lists::clear_list(w, layout::weak_of(l));
}

fn mark_string_or(w: &mut [u32], l: Plan, s: Option<StrRef>)
    requires l_in_bounds { (lay_of l.sizes).words ≤ length w.old }
    ensures { w.new ≡ mark_string_or (ops (lay_of l.sizes)) s w.old }
{
    if let Some(r) = s {
        mark::mark_string(w, l, r);
    }
}

fn mark_type(w: &mut [u32], l: Plan, k: usize)
    requires l_in_bounds { (lay_of l.sizes).words ≤ length w.old }
    requires k_bound { k < 9 }
    ensures { w.new ≡ mark_type (ops (lay_of l.sizes)) k w.old }
{
    let t = main_record::type_meta(w, k);
    mark::mark_table_or(w, l, t);
}

fn mark_types(w: &mut [u32], l: Plan)
    requires l_in_bounds { (lay_of l.sizes).words ≤ length w.old }
    ensures { w.new ≡ mark_types (ops (lay_of l.sizes)) w.old }
{
    for k in 0..9 {
        mark_type(w, l, k);
    }
}

// The type metatables and both names.
fn mark_gc_roots(w: &mut [u32], l: Plan)
    requires l_in_bounds { (lay_of l.sizes).words ≤ length w.old }
    ensures { w.new ≡ mark_gc_roots (ops (lay_of l.sizes)) w.old }
{
    mark_types(w, l);
    let mode = main_record::mode_name(w);
    mark_string_or(w, l, mode);
    let gc = main_record::gc_name(w);
    mark_string_or(w, l, gc);
}

// The main thread is listed first, to be traversed when it is taken out; then global, registry and the rest.
pub fn mark_roots(w: &mut [u32], l: Plan)
    requires l_in_bounds { (lay_of l.sizes).words ≤ length w.old }
    ensures { w.new ≡ mark_roots (ops (lay_of l.sizes)) w.old }
{
    lists::push(w, layout::gray_of(l), Item::Main);
    let global = main_record::global(w);
    mark::mark_table_or(w, l, global);
    let registry = main_record::registry(w);
    mark::mark_table_or(w, l, registry);
    mark_gc_roots(w, l);
}

// A black table that is written to during Propagate is gray again, and is traversed once more in the atomic phase.
pub fn barrier_back(w: &mut [u32], l: Plan, r: TableRef)
    requires l_in_bounds { (lay_of l.sizes).words ≤ length w.old }
    ensures { w.new ≡ barrier_back (ops (lay_of l.sizes)) r w.old }
{
    let tables = layout::tables_of(l);
    if base::get(w, layout::PHASE) != 1 {
        return;
    }
    if mark::shade(w, tables, r.0, r.1) != 4 {
        return;
    }
    arena::set_colour(w, tables, base::wide(r.0), 3);
    lists::push(w, layout::grayagain_of(l), Item::Table(r));
}

// A child in the current white that is written into a black parent during Propagate is marked.
pub fn barrier_forward(w: &mut [u32], l: Plan, parent: u32, v: Value)
    requires l_in_bounds { (lay_of l.sizes).words ≤ length w.old }
    ensures { w.new ≡ barrier_forward (ops (lay_of l.sizes)) (lay_of l.sizes) parent v w.old }
{
    if base::get(w, layout::PHASE) != 1 {
        return;
    }
    if parent != 4 {
        return;
    }
    if mark::value_colour(w, l, v) != base::get(w, layout::WHITE) {
        return;
    }
    mark::mark_value(w, l, v);
}
