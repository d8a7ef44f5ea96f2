// A table's record, 580 words (specs/Tables.antt has the places).
ghost use Rattle.std.specs.Prelude.{◌≡◌, ◌+◌, ◌≤◌, ◌<◌, length};
ghost use Rattle.record.specs.Tables.{table_meta, set_table_meta, array_size, node_number, node_count, set_table_sizes, table_extent, array_value, set_array_value, node_place, node_key, node_value, put_node, set_node, set_node_value};

use value::{TableRef, Value};

pub fn table_meta(w: &[u32], p: usize) -> Option<TableRef>
    requires { p + 580 ≤ length w.now }
    ensures { result ≡ table_meta p w.now }
{
    value::read_table_or(w, p)
}

pub fn set_table_meta(w: &mut [u32], p: usize, t: Option<TableRef>)
    requires { p + 580 ≤ length w.old }
    ensures { w.new ≡ set_table_meta p t w.old }
{
    value::write_table_or(w, p, t);
}

pub fn array_size(w: &[u32], p: usize) -> usize
    requires { p + 580 ≤ length w.now }
    ensures { (result ≡ array_size p w.now) × (result ≤ 64) }
{
    crate::count_at(w, p + 2, 64)
}

fn node_number(n: u32) -> usize
    ensures { (result ≡ node_number n) × (result ≤ 64) }
{
    match n {
        1 => 1,
        2 => 2,
        4 => 4,
        8 => 8,
        16 => 16,
        32 => 32,
        64 => 64,
        _ => 0,
    }
}

pub fn node_count(w: &[u32], p: usize) -> usize
    requires { p + 580 ≤ length w.now }
    ensures { (result ≡ node_count p w.now) × (result ≤ 64) }
{
    node_number(base::get(w, p + 3))
}

pub fn set_table_sizes(w: &mut [u32], p: usize, array: usize, nodes: usize)
    requires p_in_bounds { p + 580 ≤ length w.old }
    requires array_bound { (array ≤ 64) × (nodes ≤ 64) }
    ensures { w.new ≡ set_table_sizes p array nodes w.old }
{
    crate::put_number(w, p + 2, array);
    crate::put_number(w, p + 3, nodes);
}

// The words that a table of these sizes takes.
pub fn table_extent(array: usize, nodes: usize) -> usize
    requires { (array ≤ 64) × (nodes ≤ 64) }
    ensures { (result ≡ table_extent array nodes) × (result ≤ 580) }
{
    4 + 3 * array + 6 * nodes
}

pub fn array_value(w: &[u32], p: usize, i: usize) -> Value
    requires p_in_bounds { p + 580 ≤ length w.now }
    requires i_bound { i < 64 }
    ensures { result ≡ array_value p i w.now }
{
    value::read_value(w, p + 4 + 3 * i)
}

pub fn set_array_value(w: &mut [u32], p: usize, i: usize, v: Value)
    requires p_in_bounds { p + 580 ≤ length w.old }
    requires i_bound { i < 64 }
    ensures { w.new ≡ set_array_value p i v w.old }
{
    value::write_value(w, p + 4 + 3 * i, v);
}

// The place of node j: its key, and past it its value.
pub fn node_place(w: &[u32], p: usize, j: usize) -> usize
    requires p_in_bounds { p + 580 ≤ length w.now }
    requires j_bound { j < 64 }
    ensures { (result ≡ node_place p j w.now) × (result + 6 ≤ p + 580) }
{
    p + 4 + 3 * array_size(w, p) + 6 * j
}

pub fn node_key(w: &[u32], p: usize, j: usize) -> Value
    requires p_in_bounds { p + 580 ≤ length w.now }
    requires j_bound { j < 64 }
    ensures { result ≡ node_key p j w.now }
{
    value::read_value(w, node_place(w, p, j))
}

pub fn node_value(w: &[u32], p: usize, j: usize) -> Value
    requires p_in_bounds { p + 580 ≤ length w.now }
    requires j_bound { j < 64 }
    ensures { result ≡ node_value p j w.now }
{
    value::read_value(w, node_place(w, p, j) + 3)
}

// A key and its value, from q on.
fn put_node(w: &mut [u32], q: usize, k: Value, v: Value)
    requires { q + 6 ≤ length w.old }
    ensures { w.new ≡ put_node q k v w.old }
{
    value::write_value(w, q, k);
    value::write_value(w, q + 3, v);
}

pub fn set_node(w: &mut [u32], p: usize, j: usize, k: Value, v: Value)
    requires p_in_bounds { p + 580 ≤ length w.old }
    requires j_bound { j < 64 }
    ensures { w.new ≡ set_node p j k v w.old }
{
    let q = node_place(w, p, j);
    put_node(w, q, k, v);
}

// A dead node loses its value and keeps its key.
pub fn set_node_value(w: &mut [u32], p: usize, j: usize, v: Value)
    requires p_in_bounds { p + 580 ≤ length w.old }
    requires j_bound { j < 64 }
    ensures { w.new ≡ set_node_value p j v w.old }
{
    let q = node_place(w, p, j);
    value::write_value(w, q + 3, v);
}
