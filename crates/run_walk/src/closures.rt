// A Lua closure: env, upvalues, constants of its prototype and of all nested ones. A Rust closure: env if any, values.
ghost use Rattle.std.specs.Prelude.{◌≡◌, ◌+◌, ◌≤◌, ◌<◌, length};
ghost use Rattle.layout.specs.Layout.{lay_of};
ghost use Rattle.mark.specs.Words.{ops};
ghost use Rattle.run_walk.specs.Closures.{mark_lua, mark_rust, traverse_closure_at, closure_cost, traverse_closure};

use layout::Plan;
use value::FuncRef;

fn mark_lua(w: &mut [u32], l: Plan, p: usize)
    requires l_in_bounds { (lay_of l.sizes).words ≤ length w.old }
    requires p_in_bounds { p + 53 ≤ length w.old }
    ensures { w.new ≡ mark_lua (ops (lay_of l.sizes)) (lay_of l.sizes) p w.old }
{
    let k = run_record::closures::closure_count(w, p);
    let n = run_record::closures::closure_proto(w, p);
    mark::mark_upvalues(w, l, p + 5, k);
    crate::prototypes::mark_proto_constants(w, l, n);
}

fn mark_rust(w: &mut [u32], l: Plan, p: usize)
    requires l_in_bounds { (lay_of l.sizes).words ≤ length w.old }
    requires p_in_bounds { p + 53 ≤ length w.old }
    ensures { w.new ≡ mark_rust (ops (lay_of l.sizes)) (lay_of l.sizes) p w.old }
{
    let k = run_record::closures::closure_count(w, p);
    mark::mark_values(w, l, p + 5, k);
}

// The closure of slot r.0 is black, its links are marked.
fn traverse_closure_at(w: &mut [u32], l: Plan, r: FuncRef)
    requires l_in_bounds { (lay_of l.sizes).words ≤ length w.old }
    requires r_bound { r.0 < (lay_of l.sizes).functions.slots }
    ensures { w.new ≡ traverse_closure_at (ops (lay_of l.sizes)) (lay_of l.sizes) r w.old }
{
    let functions = layout::functions_of(l);
    let i = base::wide(r.0);
    let p = record::body_of(w, functions, i);
    let env = run_record::closures::closure_env(w, p);
    arena::set_colour(w, functions, i, 4);
    mark::mark_table_or(w, l, env);
    if run_record::closures::is_rust(w, p) {
        mark_rust(w, l, p);
    } else {
        mark_lua(w, l, p);
    }
}

// 48 + 8 for each upvalue of a Lua closure, 48 + 16 for each value of a Rust closure.
fn closure_cost(w: &[u32], p: usize) -> usize
    requires { p + 53 ≤ length w.now }
    ensures { (result ≡ closure_cost p w.now) × (result ≤ 304) }
{
    let k = run_record::closures::closure_count(w, p);
    if run_record::closures::is_rust(w, p) {
        48 + 16 * k
    } else {
        48 + 8 * k
    }
}

// The closure is traversed and its cost answered: 48 where the handle names none.
pub fn traverse_closure(w: &mut [u32], l: Plan, r: FuncRef) -> usize
    requires l_in_bounds { (lay_of l.sizes).words ≤ length w.old }
    ensures { ((result, w.new) ≡ traverse_closure (ops (lay_of l.sizes)) (lay_of l.sizes) r w.old) × (result ≤ 304) }
{
    let functions = layout::functions_of(l);
    if mark::shade(w, functions, r.0, r.1) == 0 {
        return 48;
    }
    let c = closure_cost(w, record::body_of(w, functions, base::wide(r.0)));
    traverse_closure_at(w, l, r);
    c
}
