// The prototypes, 59 words each (specs/Prototypes.antt has the places).
ghost use Rattle.std.specs.Prelude.{◌≡◌, ◌+◌, ◌*◌, ◌-◌, ◌^◌, ◌≤◌, ◌<◌, length};
ghost use Rattle.layout.specs.Layout.{lay_of};
ghost use Rattle.main_record.specs.Parts.{Parts};
ghost use Rattle.main_record.specs.Prototypes.{protos_used, set_protos_used, proto_constants, proto_nested, set_proto_counts, proto_parent, set_proto_parent, proto_constant, set_proto_constant, proto_child, set_proto_child};

use layout::Plan;
use value::Value;

// How many numbers are used.
pub fn protos_used(w: &[u32], l: Plan) -> usize
    requires { Parts (lay_of l.sizes) (length w.now) }
    ensures { (result ≡ protos_used (lay_of l.sizes) w.now) × (result ≤ (lay_of l.sizes).protos.room) }
{
    record::least(record::number_at(w, layout::PROTOTYPES), l.sizes.protos)
}

pub fn set_protos_used(w: &mut [u32], n: usize)
    requires in_bounds { 91 ≤ length w.old }
    requires n_bound { n ≤ 256 }
    ensures { w.new ≡ set_protos_used n w.old }
{
    record::put_number(w, layout::PROTOTYPES, n);
}

// How many constants it has: none if its number is not used. So where there are any, n is below the room.
pub fn proto_constants(w: &[u32], l: Plan, n: usize) -> usize
    requires { Parts (lay_of l.sizes) (length w.now) }
    ensures { (result ≡ proto_constants (lay_of l.sizes) n w.now) × (result ≤ 16) × (result ≤ 16 * ((lay_of l.sizes).protos.room - n)) }
{
    if n < protos_used(w, l) {
        record::count_at(w, layout::protos_at(l) + 59 * n, 16)
    } else {
        0
    }
}

// How many prototypes are nested in it, in the same way.
pub fn proto_nested(w: &[u32], l: Plan, n: usize) -> usize
    requires { Parts (lay_of l.sizes) (length w.now) }
    ensures { (result ≡ proto_nested (lay_of l.sizes) n w.now) × (result ≤ 8) × (result ≤ 8 * ((lay_of l.sizes).protos.room - n)) }
{
    if n < protos_used(w, l) {
        record::count_at(w, layout::protos_at(l) + 59 * n + 1, 8)
    } else {
        0
    }
}

pub fn set_proto_counts(w: &mut [u32], l: Plan, n: usize, constants: usize, nested: usize)
    requires parts { Parts (lay_of l.sizes) (length w.old) }
    requires n_bound { n < (lay_of l.sizes).protos.room }
    requires constants_bound { (constants ≤ 16) × (nested ≤ 8) }
    ensures { w.new ≡ set_proto_counts (lay_of l.sizes) n constants nested w.old }
{
    let p = layout::protos_at(l) + 59 * n;
    record::put_number(w, p, constants);
    record::put_number(w, p + 1, nested);
}

// The number of its parent + 1, 0 for none.
pub fn proto_parent(w: &[u32], l: Plan, n: usize) -> usize
    requires parts { Parts (lay_of l.sizes) (length w.now) }
    requires n_bound { n < (lay_of l.sizes).protos.room }
    ensures { (result ≡ proto_parent (lay_of l.sizes) n w.now) × (result < 2 ^ 32) }
{
    record::number_at(w, layout::protos_at(l) + 59 * n + 2)
}

pub fn set_proto_parent(w: &mut [u32], l: Plan, n: usize, parent: usize)
    requires parts { Parts (lay_of l.sizes) (length w.old) }
    requires n_bound { (n < (lay_of l.sizes).protos.room) × (parent ≤ 256) }
    ensures { w.new ≡ set_proto_parent (lay_of l.sizes) n parent w.old }
{
    record::put_number(w, layout::protos_at(l) + 59 * n + 2, parent);
}

pub fn proto_constant(w: &[u32], l: Plan, n: usize, k: usize) -> Value
    requires parts { Parts (lay_of l.sizes) (length w.now) }
    requires n_bound { (n < (lay_of l.sizes).protos.room) × (k < 16) }
    ensures { result ≡ proto_constant (lay_of l.sizes) n k w.now }
{
    value::read_value(w, layout::protos_at(l) + 59 * n + 3 + 3 * k)
}

pub fn set_proto_constant(w: &mut [u32], l: Plan, n: usize, k: usize, v: Value)
    requires parts { Parts (lay_of l.sizes) (length w.old) }
    requires n_bound { (n < (lay_of l.sizes).protos.room) × (k < 16) }
    ensures { w.new ≡ set_proto_constant (lay_of l.sizes) n k v w.old }
{
    value::write_value(w, layout::protos_at(l) + 59 * n + 3 + 3 * k, v);
}

// The number of the k-th prototype nested in it, as it is stored.
pub fn proto_child(w: &[u32], l: Plan, n: usize, k: usize) -> usize
    requires parts { Parts (lay_of l.sizes) (length w.now) }
    requires n_bound { (n < (lay_of l.sizes).protos.room) × (k < 8) }
    ensures { (result ≡ proto_child (lay_of l.sizes) n k w.now) × (result < 2 ^ 32) }
{
    record::number_at(w, layout::protos_at(l) + 59 * n + 51 + k)
}

pub fn set_proto_child(w: &mut [u32], l: Plan, n: usize, k: usize, child: usize)
    requires parts { Parts (lay_of l.sizes) (length w.old) }
    requires n_bound { (n < (lay_of l.sizes).protos.room) × (k < 8) × (child < 256) }
    ensures { w.new ≡ set_proto_child (lay_of l.sizes) n k child w.old }
{
    record::put_number(w, layout::protos_at(l) + 59 * n + 51 + k, child);
}
