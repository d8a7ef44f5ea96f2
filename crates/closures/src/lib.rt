// A new closure (document 01, 'Sizes'): of a prototype with upvalues, or a Rust closure with values of its own. What it is
// made of was tested before; 6 and 3 are left, and damage, which is marked.
#![tactic(auto)]

ghost use Rattle.std.specs.Prelude.{◌≡◌, ◌+◌, ◌*◌, ◌^◌, ◌≤◌, ◌<◌, length};
ghost use Rattle.layout.specs.Layout.{lay_of};
ghost use Rattle.making.specs.Making.{Placed};
ghost use Rattle.closures.specs.Closures.{put_head, new_closure, put_upvalues, new_lua, new_rust};

use base::Refusal;
use layout::Plan;
use making::Made;
use value::{FuncRef, TableRef};

// What both kinds have first: the kind, env, the prototype's number and the count.
fn put_head(w: &mut [u32], p: usize, rust: bool, env: Option<TableRef>, proto: usize, n: usize)
    requires p_in_bounds { p + 53 ≤ length w.old }
    requires proto_bound { (proto < 2 ^ 32) × (n ≤ 16) }
    ensures { w.new ≡ put_head p rust env proto n w.old }
{
    run_record::closures::set_rust(w, p, rust);
    run_record::closures::set_closure_env(w, p, env);
    run_record::closures::set_closure_proto(w, p, proto);
    run_record::closures::set_closure_count(w, p, n);
}

fn new_closure(
    w: &mut [u32],
    l: Plan,
    rust: bool,
    env: Option<TableRef>,
    proto: usize,
    n: usize,
) -> Result<(u32, u32, usize), Refusal>
    requires l_in_bounds { (lay_of l.sizes).words ≤ length w.old }
    requires proto_bound { (proto < 2 ^ 32) × (n ≤ 16) }
    ensures { ((result, w.new) ≡ new_closure rust env proto n (lay_of l.sizes) w.old) × Placed result (lay_of l.sizes).functions (length w.old) }
{
    let extent = run_record::closures::closure_extent(rust, n);
    let (i, g, p) = making::new_object(w, layout::functions_of(l), making::CLOSURE, extent)?;
    put_head(w, p, rust, env, proto, n);
    Ok((i, g, p))
}

// The n handles that the words s hold stand from p on.
fn put_upvalues(w: &mut [u32], p: usize, s: &[u32], n: usize)
    requires { (p + 2 * n ≤ length w.old) × (2 * n ≤ length s.now) }
    ensures { w.new ≡ put_upvalues p s.now n w.old }
{
    for k in 0..n {
        record::write_upval(w, p + 2 * k, record::read_upval(s, 2 * k));
    }
}

// A closure of a prototype, with its env and the handles of its upvalues, two words each.
pub fn new_lua(
    w: &mut [u32],
    l: Plan,
    proto: usize,
    env: TableRef,
    s: &[u32],
) -> Result<Made, Refusal>
    requires l_in_bounds { (lay_of l.sizes).words ≤ length w.old }
    requires proto_bound { (proto < 2 ^ 32) × (length s.now ≤ 32) }
    ensures { (result, w.new) ≡ new_lua proto env s.now (lay_of l.sizes) w.old }
{
    let n = s.len() / 2;
    let (i, g, p) = new_closure(w, l, false, Some(env), proto, n)?;
    put_upvalues(w, p + 5, s, n);
    Ok(Made::Function(FuncRef(i, g)))
}

// A Rust closure, with its env, if any, and its values, three words each.
pub fn new_rust(w: &mut [u32], l: Plan, env: Option<TableRef>, s: &[u32]) -> Result<Made, Refusal>
    requires l_in_bounds { (lay_of l.sizes).words ≤ length w.old }
    requires s_len_bound { length s.now ≤ 48 }
    ensures { (result, w.new) ≡ new_rust env s.now (lay_of l.sizes) w.old }
{
    let n = s.len() / 3;
    let (i, g, p) = new_closure(w, l, true, env, 0, n)?;
    making::put_values(w, p + 5, s, n);
    Ok(Made::Function(FuncRef(i, g)))
}
