// The atomic phase (document 01; the source's atomic): the main thread once more, grayagain in order, all gray; separation,
// with what the due userdata reach; the white flips; weak tables; then the sweep begins.
#![tactic(auto)]

ghost use Rattle.std.specs.Prelude.{◌≡◌, ◌+◌, ◌≤◌, ◌<◌, length};
ghost use Rattle.layout.specs.Layout.{lay_of};
ghost use Rattle.atomic.specs.Atomic.{again_item, again_listed, again_all, marked, finished, flipped, begun, atomic};

use layout::Plan;
use lists::Item;

// An item is traversed once more, a thread without its hook. The main thread was followed before.
fn again_item(w: &mut [u32], b: &[u8], l: Plan, x: Item)
    requires l_in_bounds { (lay_of l.sizes).words ≤ length w.old }
    requires l_in_bounds_2 { (lay_of l.sizes).bytes ≤ length b.now }
    ensures { w.new ≡ again_item (lay_of l.sizes) b.now x w.old }
{
    match x {
        Item::Thread(r) => run_walk::threads::retraverse_thread(w, l, r),
        _ => {
            propagate::propagate_item(w, b, l, x);
        }
    }
}

fn again_listed(w: &mut [u32], b: &[u8], l: Plan, k: usize)
    requires l_in_bounds { (lay_of l.sizes).words ≤ length w.old }
    requires l_in_bounds_2 { (lay_of l.sizes).bytes ≤ length b.now }
    ensures { w.new ≡ again_listed (lay_of l.sizes) b.now k w.old }
{
    let x = lists::item_at(w, layout::grayagain_of(l), k);
    again_item(w, b, l, x);
}

// Grayagain in order. Nothing is put on it meanwhile; it is empty when the propagation begins that may list threads again.
fn again_all(w: &mut [u32], b: &[u8], l: Plan)
    requires l_in_bounds { (lay_of l.sizes).words ≤ length w.old }
    requires l_in_bounds_2 { (lay_of l.sizes).bytes ≤ length b.now }
    ensures { w.new ≡ again_all (lay_of l.sizes) b.now w.old }
{
    let n = lists::length_of(w, layout::grayagain_of(l));
    for k in 0..n {
        again_listed(w, b, l, k);
    }
}

// All that is reached is marked.
fn mark_all(w: &mut [u32], b: &[u8], l: Plan)
    requires l_in_bounds { (lay_of l.sizes).words ≤ length w.old }
    requires l_in_bounds_2 { (lay_of l.sizes).bytes ≤ length b.now }
    ensures { w.new ≡ marked (lay_of l.sizes) b.now w.old }
{
    run_walk::main_thread::mark_main(w, l);
    again_all(w, b, l);
    lists::clear_list(w, layout::grayagain_of(l));
    propagate::propagate_all(w, b, l);
}

// Due userdata and what they reach: how many there are.
fn finish_marking(w: &mut [u32], b: &[u8], l: Plan) -> usize
    requires l_in_bounds { (lay_of l.sizes).words ≤ length w.old }
    requires l_in_bounds_2 { (lay_of l.sizes).bytes ≤ length b.now }
    ensures { ((result, w.new) ≡ finished (lay_of l.sizes) b.now w.old) × (result ≤ 4096) }
{
    let n = separate::separate_userdata(w, l);
    separate::mark_tmudata(w, l);
    propagate::propagate_all(w, b, l);
    n
}

// The white flips, and the weak tables are cleared by it.
fn flip(w: &mut [u32], b: &[u8], l: Plan)
    requires l_in_bounds { (lay_of l.sizes).words ≤ length w.old }
    requires l_in_bounds_2 { (lay_of l.sizes).bytes ≤ length b.now }
    ensures { w.new ≡ flipped (lay_of l.sizes) b.now w.old }
{
    let old = base::get(w, layout::WHITE);
    let white = mark::other_white(old);
    base::put(w, layout::WHITE, white);
    clearing::clear_weak_tables(w, b, l, old, white);
}

// The estimate is the total less 48 for each of n due userdata; the cursor is at the first string, the phase SweepString.
fn begin_sweep(w: &mut [u32], n: usize)
    requires { (91 ≤ length w.old) × (n ≤ 4096) }
    ensures { w.new ≡ begun n w.old }
{
    let total = base::get(w, layout::TOTAL) as u64;
    let left = base::sub_sat(total, 48 * n as u64);
    base::put(w, layout::ESTIMATE, left as u32);
    base::put(w, layout::CURSOR_ARENA, 0);
    base::put(w, layout::CURSOR_SLOT, 0);
    base::put(w, layout::PHASE, 2);
}

// The whole step.
pub fn atomic(w: &mut [u32], b: &[u8], l: Plan)
    requires l_in_bounds { (lay_of l.sizes).words ≤ length w.old }
    requires l_in_bounds_2 { (lay_of l.sizes).bytes ≤ length b.now }
    ensures { w.new ≡ atomic (lay_of l.sizes) b.now w.old }
{
    mark_all(w, b, l);
    let n = finish_marking(w, b, l);
    flip(w, b, l);
    begin_sweep(w, n);
}
