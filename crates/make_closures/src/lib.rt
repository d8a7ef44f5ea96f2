// The calls that make a closure (document 01, 'Sizes' and 'Refusal numbers'). Each gives 1 and 8 first, then 4, 2, 6 and 3, and
// changes nothing that way; damage found on the way is marked, and is 8. A closure never changes once made.
#![tactic(auto)]

ghost use Rattle.std.specs.Prelude.{◌≡◌, ◌≤◌, ◌<◌, length};
ghost use Rattle.layout.specs.Layout.{lay_of};
ghost use Rattle.base.specs.Heap.{heap};
ghost use Rattle.make_closures.specs.Making.{upvalues_fit, values_fit, lua_sound, lua_in, make_lua_closure, rust_sound, rust_in, make_rust_closure};

use base::Refusal;
use layout::Plan;
use making::Made;
use value::TableRef;

// Handles of two words each, up to 16.
fn upvalues_fit(n: usize) -> bool
    ensures { result ≡ upvalues_fit n }
{
    n % 2 == 0 && n <= 32
}

// Values of three words each, up to 16.
fn values_fit(n: usize) -> bool
    ensures { result ≡ values_fit n }
{
    n % 3 == 0 && n <= 48
}

// Env, the upvalues, and the constants of the prototype and of all nested ones name what they say.
fn lua_sound(w: &[u32], l: Plan, proto: usize, env: TableRef, s: &[u32]) -> bool
    requires l_in_bounds { (lay_of l.sizes).words ≤ length w.now }
    requires proto_bound { proto < (lay_of l.sizes).protos.room }
    ensures { result ≡ lua_sound proto env s.now (lay_of l.sizes) w.now }
{
    given::is_table(w, l, env)
        && sound::are_upvalues(w, l, s, s.len() / 2)
        && sound::is_proto_sound(w, l, proto)
}

fn lua_in(w: &mut [u32], l: Plan, proto: u32, env: TableRef, s: &[u32]) -> Result<Made, Refusal>
    requires l_in_bounds { (lay_of l.sizes).words ≤ length w.old }
    ensures { (result, w.new) ≡ lua_in proto env s.now (lay_of l.sizes) w.old }
{
    let n = base::wide(proto);
    if main_record::prototypes::protos_used(w, l) <= n {
        return Err(Refusal::OutOfRange);
    }
    if !upvalues_fit(s.len()) {
        return Err(Refusal::OutOfRange);
    }
    if lua_sound(w, l, n, env, s) {
        closures::new_lua(w, l, n, env, s)
    } else {
        Err(Refusal::Stale)
    }
}

// A closure of a prototype, with its env and its upvalues, two words each.
pub fn make_lua_closure(
    w: &mut [u32],
    b: &[u8],
    proto: u32,
    env: TableRef,
    upvalues: &[u32],
) -> Result<Made, Refusal>
    ensures { (result, heap w.new b.now) ≡ make_lua_closure proto env upvalues.now (heap w.old b.now) }
{
    let l = test1::enter(w, b)?;
    lua_in(w, l, proto, env, upvalues)
}

// Env, if any, and the values name what they say.
fn rust_sound(w: &[u32], l: Plan, env: Option<TableRef>, s: &[u32]) -> bool
    requires l_in_bounds { (lay_of l.sizes).words ≤ length w.now }
    ensures { result ≡ rust_sound env s.now (lay_of l.sizes) w.now }
{
    given::is_table_or(w, l, env) && sound::are_sound(w, l, s, 0, s.len() / 3)
}

fn rust_in(w: &mut [u32], l: Plan, env: Option<TableRef>, s: &[u32]) -> Result<Made, Refusal>
    requires l_in_bounds { (lay_of l.sizes).words ≤ length w.old }
    ensures { (result, w.new) ≡ rust_in env s.now (lay_of l.sizes) w.old }
{
    if !values_fit(s.len()) {
        return Err(Refusal::OutOfRange);
    }
    if rust_sound(w, l, env, s) {
        closures::new_rust(w, l, env, s)
    } else {
        Err(Refusal::Stale)
    }
}

// A Rust closure with its env, if any, and its values, three words each.
pub fn make_rust_closure(
    w: &mut [u32],
    b: &[u8],
    env: Option<TableRef>,
    values: &[u32],
) -> Result<Made, Refusal>
    ensures { (result, heap w.new b.now) ≡ make_rust_closure env values.now (heap w.old b.now) }
{
    let l = test1::enter(w, b)?;
    rust_in(w, l, env, values)
}
