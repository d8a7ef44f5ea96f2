// Public reads of prototypes by number. Each gives 1 and 8 first, then 4 for a number that is not used or an index outside its
// range, and changes nothing.
#![tactic(auto)]

ghost use Rattle.std.specs.Prelude.{◌≡◌, ◌<◌, length};
ghost use Rattle.layout.specs.Layout.{lay_of};
ghost use Rattle.base.specs.Heap.{heap};
ghost use Rattle.main_record.specs.Parts.{Parts};
ghost use Rattle.proto_reads.specs.ProtoReads.{proto_in, proto_on, read_proto};

use base::Refusal;
use layout::Plan;
use reads::Read;

// A field of a prototype. `Parent` is its number + 1, 0 for none.
#[derive(Clone, Copy)]
pub enum ProtoField {
    Constants,
    Nested,
    Parent,
    Constant(u32),
    Child(u32),
}

fn proto_in(w: &[u32], l: Plan, n: usize, q: ProtoField) -> Result<Read, Refusal>
    requires parts { Parts (lay_of l.sizes) (length w.now) }
    requires n_bound { n < (lay_of l.sizes).protos.room }
    ensures { result ≡ proto_in (lay_of l.sizes) n q w.now }
{
    match q {
        ProtoField::Constants => Ok(Read::Number(
            main_record::prototypes::proto_constants(w, l, n) as u64,
        )),
        ProtoField::Nested => Ok(Read::Number(
            main_record::prototypes::proto_nested(w, l, n) as u64,
        )),
        ProtoField::Parent => Ok(Read::Number(
            main_record::prototypes::proto_parent(w, l, n) as u64,
        )),
        ProtoField::Constant(i) => {
            let k = base::wide(i);
            if main_record::prototypes::proto_constants(w, l, n) <= k {
                return Err(Refusal::OutOfRange);
            }
            Ok(Read::Value(main_record::prototypes::proto_constant(w, l, n, k)))
        }
        ProtoField::Child(i) => {
            let k = base::wide(i);
            if main_record::prototypes::proto_nested(w, l, n) <= k {
                return Err(Refusal::OutOfRange);
            }
            Ok(Read::Number(main_record::prototypes::proto_child(w, l, n, k) as u64))
        }
    }
}

fn proto_on(w: &[u32], l: Plan, n: u32, q: ProtoField) -> Result<Read, Refusal>
    requires { Parts (lay_of l.sizes) (length w.now) }
    ensures { result ≡ proto_on (lay_of l.sizes) n q w.now }
{
    let k = base::wide(n);
    if main_record::prototypes::protos_used(w, l) <= k {
        return Err(Refusal::OutOfRange);
    }
    proto_in(w, l, k, q)
}

// A field of a prototype, which is named by its number; 4 for a number that is not used.
pub fn read_proto(w: &[u32], b: &[u8], n: u32, q: ProtoField) -> Result<Read, Refusal>
    ensures { result ≡ read_proto n q (heap w.now b.now) }
{
    let l = test1::enter(w, b)?;
    proto_on(w, l, n, q)
}
