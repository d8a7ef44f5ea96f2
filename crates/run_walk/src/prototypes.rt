// The constants of a prototype and of all nested in it, by recursion: the number falls at each call.
ghost use Rattle.std.specs.Prelude.{◌≡◌, ◌+◌, ◌*◌, ◌≤◌, ◌<◌, length};
ghost use Rattle.layout.specs.Layout.{lay_of};
ghost use Rattle.mark.specs.Words.{ops};
ghost use Rattle.run_walk.specs.Prototypes.{mark_constants, mark_proto, mark_proto_constants};

use layout::Plan;

fn mark_constants(w: &mut [u32], l: Plan, n: usize)
    requires l_in_bounds { (lay_of l.sizes).words ≤ length w.old }
    requires n_bound { n < (lay_of l.sizes).protos.room }
    ensures { w.new ≡ mark_constants (ops (lay_of l.sizes)) (lay_of l.sizes) n w.old }
{
    let k = main_record::prototypes::proto_constants(w, l, n);
    mark::mark_values(w, l, layout::protos_at(l) + 59 * n + 3, k);
}

// Prototype n and all nested in it, each once: `seen` has a 1 for each number that was, so that words in which each nests the
// next one eight times take no longer than others. A nested number not below its parent's is skipped.
fn mark_proto(w: &mut [u32], l: Plan, seen: &mut [u8], n: usize)
    requires l_in_bounds { (lay_of l.sizes).words ≤ length w.old }
    requires n_bound { (n < (lay_of l.sizes).protos.room) × ((lay_of l.sizes).protos.room ≤ length seen.old) }
    ensures { (w.new, seen.new) ≡ mark_proto (ops (lay_of l.sizes)) (lay_of l.sizes) n (w.old, seen.old) }
{
    if 0 < seen[n] {
        return;
    }
    seen[n] = 1;
    mark_constants(w, l, n);
    let m = main_record::prototypes::proto_nested(w, l, n);
    for j in 0..m {
        let q = main_record::prototypes::proto_child(w, l, n, j);
        if q < n {
            mark_proto(w, l, seen, q);
        }
    }
}

// Prototype n, if there is one. Most have none nested, and need no set.
pub fn mark_proto_constants(w: &mut [u32], l: Plan, n: usize)
    requires l_in_bounds { (lay_of l.sizes).words ≤ length w.old }
    ensures { w.new ≡ mark_proto_constants (ops (lay_of l.sizes)) (lay_of l.sizes) n w.old }
{
    if l.sizes.protos <= n {
        return;
    }
    if main_record::prototypes::proto_nested(w, l, n) == 0 {
        mark_constants(w, l, n);
        return;
    }
    let mut seen = [0u8; 256];
    mark_proto(w, l, &mut seen, n);
}
