// What a call is given to store must name what it says (document 01, row 2), and what a call that makes or changes something
// answers. One place tests a handle, one a value.
#![tactic(auto)]

ghost use Rattle.std.specs.Prelude.{◌≡◌, ◌≤◌, length};
ghost use Rattle.layout.specs.Layout.{lay_of};
ghost use Rattle.arena.specs.Slots.{Room};
ghost use Rattle.given.specs.Answers.{unmarked};
ghost use Rattle.given.specs.Given.{is_named, is_table, is_table_or, is_upvalue, is_sound};

use arena::Arena;
use base::Refusal;
use layout::Plan;
use value::{TableRef, UpvalRef, Value};

// The answer of work that may have set the damage mark: then it is 8.
pub fn unmarked(w: &[u32], a: Result<(), Refusal>) -> Result<(), Refusal>
    requires { 91 ≤ length w.now }
    ensures { result ≡ unmarked w.now a }
{
    if base::get(w, layout::DAMAGE) == 0 {
        return a;
    }
    Err(Refusal::Damaged)
}

// Whether a handle names an occupied slot.
pub fn is_named(w: &[u32], a: Arena, index: u32, generation: u32) -> bool
    requires { Room a w.now }
    ensures { result ≡ is_named a index generation w.now }
{
    match arena::name_of(w, a, index, generation) {
        Some(_) => true,
        None => false,
    }
}

pub fn is_table(w: &[u32], l: Plan, r: TableRef) -> bool
    requires l_in_bounds { (lay_of l.sizes).words ≤ length w.now }
    ensures { result ≡ is_table (lay_of l.sizes) r w.now }
{
    is_named(w, layout::tables_of(l), r.0, r.1)
}

pub fn is_upvalue(w: &[u32], l: Plan, r: UpvalRef) -> bool
    requires l_in_bounds { (lay_of l.sizes).words ≤ length w.now }
    ensures { result ≡ is_upvalue (lay_of l.sizes) r w.now }
{
    is_named(w, layout::upvalues_of(l), r.0, r.1)
}

// A table that may be missing.
pub fn is_table_or(w: &[u32], l: Plan, t: Option<TableRef>) -> bool
    requires l_in_bounds { (lay_of l.sizes).words ≤ length w.now }
    ensures { result ≡ is_table_or (lay_of l.sizes) t w.now }
{
    match t {
        Some(r) => is_table(w, l, r),
        None => true,
    }
}

// A value that refers to an object names one; any other value is sound.
pub fn is_sound(w: &[u32], l: Plan, v: Value) -> bool
    requires l_in_bounds { (lay_of l.sizes).words ≤ length w.now }
    ensures { result ≡ is_sound (lay_of l.sizes) v w.now }
{
    match v {
        Value::Str(r) => is_named(w, layout::strings_of(l), r.0, r.1),
        Value::Table(r) => is_named(w, layout::tables_of(l), r.0, r.1),
        Value::Function(r) => is_named(w, layout::functions_of(l), r.0, r.1),
        Value::Userdata(r) => is_named(w, layout::userdata_of(l), r.0, r.1),
        Value::Thread(r) => is_named(w, layout::threads_of(l), r.0, r.1),
        _ => true,
    }
}
