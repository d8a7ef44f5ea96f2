// Weak tables in the atomic phase (document 01; the source's clear_weak_tables), after the white has flipped: strings that a
// listed table holds take the new white; then entries die. A dead node loses its value and keeps its key.
#![tactic(auto)]

ghost use Rattle.std.specs.Prelude.{◌≡◌, ◌+◌, ◌*◌, ◌≤◌, ◌<◌, length};
ghost use Rattle.layout.specs.Layout.{lay_of};
ghost use Rattle.clearing.specs.Strings.{keep_string, keep_strings, keep_node, keep_nodes, keep_table, keep_listed, keep_all};
ghost use Rattle.clearing.specs.Entries.{is_finalized, is_dead, clear_value, clear_values, clear_array, key_dies, value_dies, node_dies, clear_node, clear_nodes, clear_entries, clear_table, clear_listed, clear_all, clear_weak_tables};

use layout::Plan;
use lists::Item;
use modes::Mode;
use value::{TableRef, UdRef, Value};

// A string in words p to p + 2 takes the white.
fn keep_string(w: &mut [u32], l: Plan, white: u32, p: usize)
    requires l_in_bounds { (lay_of l.sizes).words ≤ length w.old }
    requires p_in_bounds { p + 2 < length w.old }
    ensures { w.new ≡ keep_string (lay_of l.sizes) white p w.old }
{
    let strings = layout::strings_of(l);
    if let Value::Str(s) = value::read_value(w, p) {
        if mark::shade(w, strings, s.0, s.1) != 0 {
            arena::set_colour(w, strings, base::wide(s.0), white);
        }
    }
}

// n values from p on.
fn keep_strings(w: &mut [u32], l: Plan, white: u32, p: usize, n: usize)
    requires l_in_bounds { (lay_of l.sizes).words ≤ length w.old }
    requires n_in_bounds { p + 3 * n ≤ length w.old }
    ensures { w.new ≡ keep_strings (lay_of l.sizes) white p n w.old }
{
    for i in 0..n {
        keep_string(w, l, white, p + 3 * i);
    }
}

// Key and value of a node with non-nil key.
fn keep_node(w: &mut [u32], l: Plan, white: u32, q: usize)
    requires l_in_bounds { (lay_of l.sizes).words ≤ length w.old }
    requires q_in_bounds { q + 6 ≤ length w.old }
    ensures { w.new ≡ keep_node (lay_of l.sizes) white q w.old }
{
    if mark::is_nil_at(w, q) {
        return;
    }
    keep_string(w, l, white, q);
    keep_string(w, l, white, q + 3);
}

// n nodes from q on.
fn keep_nodes(w: &mut [u32], l: Plan, white: u32, q: usize, n: usize)
    requires l_in_bounds { (lay_of l.sizes).words ≤ length w.old }
    requires n_in_bounds { q + 6 * n ≤ length w.old }
    ensures { w.new ≡ keep_nodes (lay_of l.sizes) white q n w.old }
{
    for j in 0..n {
        keep_node(w, l, white, q + 6 * j);
    }
}

// Every string in the table of slot r.0.
fn keep_table(w: &mut [u32], l: Plan, white: u32, r: TableRef)
    requires l_in_bounds { (lay_of l.sizes).words ≤ length w.old }
    ensures { w.new ≡ keep_table (lay_of l.sizes) white r w.old }
{
    let tables = layout::tables_of(l);
    if mark::shade(w, tables, r.0, r.1) == 0 {
        return;
    }
    let p = record::body_of(w, tables, base::wide(r.0));
    let n = record::tables::array_size(w, p);
    let k = record::tables::node_count(w, p);
    keep_strings(w, l, white, p + 4, n);
    keep_nodes(w, l, white, p + 4 + 3 * n, k);
}

fn keep_listed(w: &mut [u32], l: Plan, white: u32, k: usize)
    requires l_in_bounds { (lay_of l.sizes).words ≤ length w.old }
    ensures { w.new ≡ keep_listed (lay_of l.sizes) white k w.old }
{
    if let Item::Table(r) = lists::item_at(w, layout::weak_of(l), k) {
        keep_table(w, l, white, r);
    }
}

// First pass: the strings of every listed table.
fn keep_all(w: &mut [u32], l: Plan, white: u32)
    requires l_in_bounds { (lay_of l.sizes).words ≤ length w.old }
    ensures { w.new ≡ keep_all (lay_of l.sizes) white w.old }
{
    let n = lists::length_of(w, layout::weak_of(l));
    for k in 0..n {
        keep_listed(w, l, white, k);
    }
}

// Whether a userdata that is there is finalized.
fn is_finalized(w: &[u32], l: Plan, r: UdRef) -> bool
    requires l_in_bounds { (lay_of l.sizes).words ≤ length w.now }
    ensures { result ≡ is_finalized (lay_of l.sizes) r w.now }
{
    let userdata = layout::userdata_of(l);
    if mark::shade(w, userdata, r.0, r.1) == 0 {
        return false;
    }
    let p = record::body_of(w, userdata, base::wide(r.0));
    record::userdata::ud_finalized(w, p)
}

// Whether a value is dead: a table, function, userdata or thread in the old white; a userdata that is no key also if it is
// finalized.
fn is_dead(w: &[u32], l: Plan, old: u32, key: bool, v: Value) -> bool
    requires l_in_bounds { (lay_of l.sizes).words ≤ length w.now }
    ensures { result ≡ is_dead (lay_of l.sizes) old key v w.now }
{
    match v {
        Value::Table(r) => mark::shade(w, layout::tables_of(l), r.0, r.1) == old,
        Value::Function(r) => mark::shade(w, layout::functions_of(l), r.0, r.1) == old,
        Value::Thread(r) => mark::shade(w, layout::threads_of(l), r.0, r.1) == old,
        Value::Userdata(r) => {
            mark::shade(w, layout::userdata_of(l), r.0, r.1) == old || !key && is_finalized(w, l, r)
        }
        _ => false,
    }
}

// An array value that is dead is nil.
fn clear_value(w: &mut [u32], l: Plan, old: u32, p: usize)
    requires l_in_bounds { (lay_of l.sizes).words ≤ length w.old }
    requires p_in_bounds { p + 2 < length w.old }
    ensures { w.new ≡ clear_value (lay_of l.sizes) old p w.old }
{
    let v = value::read_value(w, p);
    if is_dead(w, l, old, false, v) {
        value::put3(w, p, 0, 0, 0);
    }
}

// n values from p on.
fn clear_values(w: &mut [u32], l: Plan, old: u32, p: usize, n: usize)
    requires l_in_bounds { (lay_of l.sizes).words ≤ length w.old }
    requires n_in_bounds { p + 3 * n ≤ length w.old }
    ensures { w.new ≡ clear_values (lay_of l.sizes) old p n w.old }
{
    for i in 0..n {
        clear_value(w, l, old, p + 3 * i);
    }
}

// The array of n values from p on, where values are weak.
fn clear_array(w: &mut [u32], l: Plan, old: u32, m: Mode, p: usize, n: usize)
    requires l_in_bounds { (lay_of l.sizes).words ≤ length w.old }
    requires n_in_bounds { p + 3 * n ≤ length w.old }
    ensures { w.new ≡ clear_array (lay_of l.sizes) old m p n w.old }
{
    if m.values {
        clear_values(w, l, old, p, n);
    }
}

// A node dies by its key where keys are weak.
fn key_dies(w: &[u32], l: Plan, old: u32, m: Mode, q: usize) -> bool
    requires l_in_bounds { (lay_of l.sizes).words ≤ length w.now }
    requires q_in_bounds { q + 6 ≤ length w.now }
    ensures { result ≡ key_dies (lay_of l.sizes) old m q w.now }
{
    m.keys && is_dead(w, l, old, true, value::read_value(w, q))
}

// And by its value where values are.
fn value_dies(w: &[u32], l: Plan, old: u32, m: Mode, q: usize) -> bool
    requires l_in_bounds { (lay_of l.sizes).words ≤ length w.now }
    requires q_in_bounds { q + 6 ≤ length w.now }
    ensures { result ≡ value_dies (lay_of l.sizes) old m q w.now }
{
    m.values && is_dead(w, l, old, false, value::read_value(w, q + 3))
}

fn node_dies(w: &[u32], l: Plan, old: u32, m: Mode, q: usize) -> bool
    requires l_in_bounds { (lay_of l.sizes).words ≤ length w.now }
    requires q_in_bounds { q + 6 ≤ length w.now }
    ensures { result ≡ node_dies (lay_of l.sizes) old m q w.now }
{
    key_dies(w, l, old, m, q) || value_dies(w, l, old, m, q)
}

// A node with non-nil key that dies loses its value.
fn clear_node(w: &mut [u32], l: Plan, old: u32, m: Mode, q: usize)
    requires l_in_bounds { (lay_of l.sizes).words ≤ length w.old }
    requires q_in_bounds { q + 6 ≤ length w.old }
    ensures { w.new ≡ clear_node (lay_of l.sizes) old m q w.old }
{
    if mark::is_nil_at(w, q) {
        return;
    }
    if node_dies(w, l, old, m, q) {
        value::put3(w, q + 3, 0, 0, 0);
    }
}

// n nodes from q on.
fn clear_nodes(w: &mut [u32], l: Plan, old: u32, m: Mode, q: usize, n: usize)
    requires l_in_bounds { (lay_of l.sizes).words ≤ length w.old }
    requires n_in_bounds { q + 6 * n ≤ length w.old }
    ensures { w.new ≡ clear_nodes (lay_of l.sizes) old m q n w.old }
{
    for j in 0..n {
        clear_node(w, l, old, m, q + 6 * j);
    }
}

// Array and nodes of the table whose body is at p.
fn clear_entries(w: &mut [u32], l: Plan, old: u32, m: Mode, p: usize)
    requires l_in_bounds { (lay_of l.sizes).words ≤ length w.old }
    requires p_in_bounds { p + 580 ≤ length w.old }
    ensures { w.new ≡ clear_entries (lay_of l.sizes) old m p w.old }
{
    let n = record::tables::array_size(w, p);
    let k = record::tables::node_count(w, p);
    clear_array(w, l, old, m, p + 4, n);
    clear_nodes(w, l, old, m, p + 4 + 3 * n, k);
}

// The mode is read again, from what the metatable has now.
fn clear_table(w: &mut [u32], b: &[u8], l: Plan, old: u32, r: TableRef)
    requires l_in_bounds { (lay_of l.sizes).words ≤ length w.old }
    requires l_in_bounds_2 { (lay_of l.sizes).bytes ≤ length b.now }
    ensures { w.new ≡ clear_table (lay_of l.sizes) b.now old r w.old }
{
    let tables = layout::tables_of(l);
    if mark::shade(w, tables, r.0, r.1) == 0 {
        return;
    }
    let p = record::body_of(w, tables, base::wide(r.0));
    let mt = record::tables::table_meta(w, p);
    let m = modes::check_weak_mode(w, b, l, mt);
    if modes::is_weak(m) {
        clear_entries(w, l, old, m, p);
    }
}

fn clear_listed(w: &mut [u32], b: &[u8], l: Plan, old: u32, k: usize)
    requires l_in_bounds { (lay_of l.sizes).words ≤ length w.old }
    requires l_in_bounds_2 { (lay_of l.sizes).bytes ≤ length b.now }
    ensures { w.new ≡ clear_listed (lay_of l.sizes) b.now old k w.old }
{
    if let Item::Table(r) = lists::item_at(w, layout::weak_of(l), k) {
        clear_table(w, b, l, old, r);
    }
}

// Second pass: the dead entries of every listed table.
fn clear_all(w: &mut [u32], b: &[u8], l: Plan, old: u32)
    requires l_in_bounds { (lay_of l.sizes).words ≤ length w.old }
    requires l_in_bounds_2 { (lay_of l.sizes).bytes ≤ length b.now }
    ensures { w.new ≡ clear_all (lay_of l.sizes) b.now old w.old }
{
    let n = lists::length_of(w, layout::weak_of(l));
    for k in 0..n {
        clear_listed(w, b, l, old, k);
    }
}

// Both passes, given the old and the new white; the list is emptied.
pub fn clear_weak_tables(w: &mut [u32], b: &[u8], l: Plan, old: u32, white: u32)
    requires l_in_bounds { (lay_of l.sizes).words ≤ length w.old }
    requires l_in_bounds_2 { (lay_of l.sizes).bytes ≤ length b.now }
    ensures { w.new ≡ clear_weak_tables (lay_of l.sizes) b.now old white w.old }
{
    keep_all(w, l, white);
    clear_all(w, b, l, old);
    lists::clear_list(w, layout::weak_of(l));
}
