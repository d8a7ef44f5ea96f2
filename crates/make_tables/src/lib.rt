// The calls that make a table or a userdata (document 01, 'Sizes'). Each gives 1 and 8 first, then the refusals of its row in
// their order, and changes nothing that way; damage found on the way is marked, and is 8.
#![tactic(auto)]

ghost use Rattle.std.specs.Prelude.{◌≡◌, ◌≤◌, length};
ghost use Rattle.layout.specs.Layout.{lay_of};
ghost use Rattle.base.specs.Heap.{heap};
ghost use Rattle.make_tables.specs.Making.{is_nodes, new_table, table_in, make_table, userdata_in, make_userdata};

use base::Refusal;
use layout::Plan;
use making::Made;
use value::{TableRef, UdRef};

// Nodes 0, 1, 2, 4, 8, 16, 32 or 64.
fn is_nodes(n: u32) -> bool
    ensures { result ≡ is_nodes n }
{
    (n == 0) | (n == 1) | (n == 2) | (n == 4) | (n == 8) | (n == 16) | (n == 32) | (n == 64)
}

fn new_table(w: &mut [u32], l: Plan, array: usize, nodes: usize) -> Result<Made, Refusal>
    requires l_in_bounds { (lay_of l.sizes).words ≤ length w.old }
    requires array_bound { (array ≤ 64) × (nodes ≤ 64) }
    ensures { (result, w.new) ≡ new_table array nodes (lay_of l.sizes) w.old }
{
    let n = record::tables::table_extent(array, nodes);
    let (i, g, p) = making::new_object(w, layout::tables_of(l), making::TABLE, n)?;
    record::tables::set_table_sizes(w, p, array, nodes);
    Ok(Made::Table(TableRef(i, g)))
}

fn table_in(w: &mut [u32], l: Plan, array: u32, nodes: u32) -> Result<Made, Refusal>
    requires l_in_bounds { (lay_of l.sizes).words ≤ length w.old }
    ensures { (result, w.new) ≡ table_in array nodes (lay_of l.sizes) w.old }
{
    if 64 < array {
        return Err(Refusal::OutOfRange);
    }
    if is_nodes(nodes) {
        new_table(w, l, base::wide(array), base::wide(nodes))
    } else {
        Err(Refusal::OutOfRange)
    }
}

// A table with so many places in its array and so many nodes, all nil, and no metatable.
pub fn make_table(w: &mut [u32], b: &[u8], array: u32, nodes: u32) -> Result<Made, Refusal>
    ensures { (result, heap w.new b.now) ≡ make_table array nodes (heap w.old b.now) }
{
    let l = test1::enter(w, b)?;
    table_in(w, l, array, nodes)
}

fn userdata_in(w: &mut [u32], l: Plan) -> Result<Made, Refusal>
    requires l_in_bounds { (lay_of l.sizes).words ≤ length w.old }
    ensures { (result, w.new) ≡ userdata_in (lay_of l.sizes) w.old }
{
    let (i, g, p) = making::new_object(
        w,
        layout::userdata_of(l),
        making::USERDATA,
        layout::USERDATA_WORDS,
    )?;
    let number = base::get64(w, layout::CREATION);
    record::userdata::set_ud_creation(w, p, number);
    base::put64(w, layout::CREATION, base::add_sat(number, 1));
    Ok(Made::Userdata(UdRef(i, g)))
}

// A userdata with the next creation number, with no metatable and no env.
pub fn make_userdata(w: &mut [u32], b: &[u8]) -> Result<Made, Refusal>
    ensures { (result, heap w.new b.now) ≡ make_userdata (heap w.old b.now) }
{
    let l = test1::enter(w, b)?;
    userdata_in(w, l)
}
