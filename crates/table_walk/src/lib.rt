// The traversal of a table (document 01, 'Followed links'): its metatable always; of array and nodes what its mode leaves.
// A weak table is listed, to be cleared in the atomic phase.
#![tactic(auto)]

ghost use Rattle.std.specs.Prelude.{◌≡◌, ◌+◌, ◌*◌, ◌≤◌, ◌<◌, length};
ghost use Rattle.layout.specs.Layout.{lay_of};
ghost use Rattle.mark.specs.Words.{ops};
ghost use Rattle.table_walk.specs.Tables.{mark_unless, mark_pair, mark_node, mark_nodes, mark_array, mark_entries, list_weak, traverse_table_at, table_cost, traverse_table};

use layout::Plan;
use lists::Item;
use modes::Mode;
use value::TableRef;

// The value in words p to p + 2, unless it is held weakly.
fn mark_unless(w: &mut [u32], l: Plan, weak: bool, p: usize)
    requires l_in_bounds { (lay_of l.sizes).words ≤ length w.old }
    requires p_in_bounds { p + 2 < length w.old }
    ensures { w.new ≡ mark_unless (ops (lay_of l.sizes)) (lay_of l.sizes) weak p w.old }
{
    if !weak {
        mark::mark_place(w, l, p);
    }
}

// The key unless keys are weak, the value unless values are.
fn mark_pair(w: &mut [u32], l: Plan, m: Mode, q: usize)
    requires l_in_bounds { (lay_of l.sizes).words ≤ length w.old }
    requires q_in_bounds { q + 6 ≤ length w.old }
    ensures { w.new ≡ mark_pair (ops (lay_of l.sizes)) (lay_of l.sizes) m q w.old }
{
    mark_unless(w, l, m.keys, q);
    mark_unless(w, l, m.values, q + 3);
}

// A node whose key or value is nil is passed.
fn mark_node(w: &mut [u32], l: Plan, m: Mode, q: usize)
    requires l_in_bounds { (lay_of l.sizes).words ≤ length w.old }
    requires q_in_bounds { q + 6 ≤ length w.old }
    ensures { w.new ≡ mark_node (ops (lay_of l.sizes)) (lay_of l.sizes) m q w.old }
{
    if !mark::is_nil_at(w, q) && !mark::is_nil_at(w, q + 3) {
        mark_pair(w, l, m, q);
    }
}

// n nodes from q on.
fn mark_nodes(w: &mut [u32], l: Plan, m: Mode, q: usize, n: usize)
    requires l_in_bounds { (lay_of l.sizes).words ≤ length w.old }
    requires n_in_bounds { q + 6 * n ≤ length w.old }
    ensures { w.new ≡ mark_nodes (ops (lay_of l.sizes)) (lay_of l.sizes) m q n w.old }
{
    for j in 0..n {
        mark_node(w, l, m, q + 6 * j);
    }
}

// n array values from p on, unless values are weak.
fn mark_array(w: &mut [u32], l: Plan, m: Mode, p: usize, n: usize)
    requires l_in_bounds { (lay_of l.sizes).words ≤ length w.old }
    requires n_in_bounds { p + 3 * n ≤ length w.old }
    ensures { w.new ≡ mark_array (ops (lay_of l.sizes)) (lay_of l.sizes) m p n w.old }
{
    if m.values {
        return;
    }
    mark::mark_values(w, l, p, n);
}

// Array and nodes of the table whose body is at p. Where keys and values are weak there is nothing to mark.
fn mark_entries(w: &mut [u32], l: Plan, m: Mode, p: usize)
    requires l_in_bounds { (lay_of l.sizes).words ≤ length w.old }
    requires p_in_bounds { p + 580 ≤ length w.old }
    ensures { w.new ≡ mark_entries (ops (lay_of l.sizes)) (lay_of l.sizes) m p w.old }
{
    if modes::is_both(m) {
        return;
    }
    let n = record::tables::array_size(w, p);
    let k = record::tables::node_count(w, p);
    mark_array(w, l, m, p + 4, n);
    mark_nodes(w, l, m, p + 4 + 3 * n, k);
}

fn list_weak(w: &mut [u32], l: Plan, m: Mode, r: TableRef)
    requires l_in_bounds { (lay_of l.sizes).words ≤ length w.old }
    ensures { w.new ≡ list_weak (ops (lay_of l.sizes)) m r w.old }
{
    if modes::is_weak(m) {
        lists::push(w, layout::weak_of(l), Item::Table(r));
    }
}

// The table of slot r.0 is black, its links are marked. Most tables have no metatable, and nothing is weak then.
fn traverse_table_at(w: &mut [u32], b: &[u8], l: Plan, r: TableRef)
    requires l_in_bounds { (lay_of l.sizes).words ≤ length w.old }
    requires l_in_bounds_2 { (lay_of l.sizes).bytes ≤ length b.now }
    requires r_bound { r.0 < (lay_of l.sizes).tables.slots }
    ensures { w.new ≡ traverse_table_at (ops (lay_of l.sizes)) (lay_of l.sizes) b.now r w.old }
{
    let tables = layout::tables_of(l);
    let i = base::wide(r.0);
    let p = record::body_of(w, tables, i);
    let mt = record::tables::table_meta(w, p);
    match mt {
        Some(_) => {
            let m = modes::check_weak_mode(w, b, l, mt);
            arena::set_colour(w, tables, i, 4);
            mark::mark_table_or(w, l, mt);
            list_weak(w, l, m, r);
            mark_entries(w, l, m, p);
        }
        None => {
            arena::set_colour(w, tables, i, 4);
            mark_entries(w, l, modes::STRONG, p);
        }
    }
}

// 64 + 16 for each array place + 32 for each node.
fn table_cost(w: &[u32], p: usize) -> usize
    requires { p + 580 ≤ length w.now }
    ensures { (result ≡ table_cost p w.now) × (result ≤ 3136) }
{
    64 + 16 * record::tables::array_size(w, p) + 32 * record::tables::node_count(w, p)
}

// The table is traversed and its cost answered: 64 where the handle names none.
pub fn traverse_table(w: &mut [u32], b: &[u8], l: Plan, r: TableRef) -> usize
    requires l_in_bounds { (lay_of l.sizes).words ≤ length w.old }
    requires l_in_bounds_2 { (lay_of l.sizes).bytes ≤ length b.now }
    ensures { ((result, w.new) ≡ traverse_table (ops (lay_of l.sizes)) (lay_of l.sizes) b.now r w.old) × (result ≤ 3136) }
{
    let tables = layout::tables_of(l);
    if mark::shade(w, tables, r.0, r.1) == 0 {
        return 64;
    }
    let c = table_cost(w, record::body_of(w, tables, base::wide(r.0)));
    traverse_table_at(w, b, l, r);
    c
}
