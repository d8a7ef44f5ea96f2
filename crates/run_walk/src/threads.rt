// A thread: global, hook function, stack below top, open and suspended upvalues. Its error value is not followed.
ghost use Rattle.std.specs.Prelude.{◌≡◌, ◌+◌, ◌≤◌, ◌<◌, length};
ghost use Rattle.layout.specs.Layout.{lay_of};
ghost use Rattle.mark.specs.Words.{ops};
ghost use Rattle.run_walk.specs.Threads.{mark_stack, retraverse_thread_at, traverse_thread_at, thread_cost, traverse_thread, retraverse_thread};

use layout::Plan;
use lists::Item;
use value::ThreadRef;

// Stack below top, open and suspended upvalues.
fn mark_stack(w: &mut [u32], l: Plan, p: usize)
    requires l_in_bounds { (lay_of l.sizes).words ≤ length w.old }
    requires p_in_bounds { p + 268 ≤ length w.old }
    ensures { w.new ≡ mark_stack (ops (lay_of l.sizes)) (lay_of l.sizes) p w.old }
{
    let top = run_record::threads::thread_top(w, p);
    let opens = run_record::threads::thread_open_count(w, p);
    let suspended = run_record::threads::thread_suspended_count(w, p);
    mark::mark_values(w, l, p + 76, top);
    mark::mark_upvalues(w, l, p + 12, opens);
    mark::mark_upvalues(w, l, p + 44, suspended);
}

// The thread of slot r.0 is black, its links are marked, and it is listed for the atomic phase.
fn traverse_thread_at(w: &mut [u32], l: Plan, r: ThreadRef)
    requires l_in_bounds { (lay_of l.sizes).words ≤ length w.old }
    requires r_bound { r.0 < (lay_of l.sizes).threads.slots }
    ensures { w.new ≡ traverse_thread_at (ops (lay_of l.sizes)) (lay_of l.sizes) r w.old }
{
    let threads = layout::threads_of(l);
    let i = base::wide(r.0);
    let p = record::body_of(w, threads, i);
    let g = run_record::threads::thread_global(w, p);
    arena::set_colour(w, threads, i, 4);
    mark::mark_table_or(w, l, g);
    mark::mark_value_at(w, l, p + 2);
    mark_stack(w, l, p);
    lists::push(w, layout::grayagain_of(l), Item::Thread(r));
}

// 256 + 16 for each stack place.
fn thread_cost(w: &[u32], p: usize) -> usize
    requires { p + 268 ≤ length w.now }
    ensures { (result ≡ thread_cost p w.now) × (result ≤ 1280) }
{
    256 + 16 * run_record::threads::thread_size(w, p)
}

// The thread is traversed and its cost answered: 256 where the handle names none.
pub fn traverse_thread(w: &mut [u32], l: Plan, r: ThreadRef) -> usize
    requires l_in_bounds { (lay_of l.sizes).words ≤ length w.old }
    ensures { ((result, w.new) ≡ traverse_thread (ops (lay_of l.sizes)) (lay_of l.sizes) r w.old) × (result ≤ 1280) }
{
    let threads = layout::threads_of(l);
    if mark::shade(w, threads, r.0, r.1) == 0 {
        return 256;
    }
    let c = thread_cost(w, record::body_of(w, threads, base::wide(r.0)));
    traverse_thread_at(w, l, r);
    c
}

// Once more, in the atomic phase: all but the hook function, and it is listed no more.
fn retraverse_thread_at(w: &mut [u32], l: Plan, r: ThreadRef)
    requires l_in_bounds { (lay_of l.sizes).words ≤ length w.old }
    requires r_bound { r.0 < (lay_of l.sizes).threads.slots }
    ensures { w.new ≡ retraverse_thread_at (ops (lay_of l.sizes)) (lay_of l.sizes) r w.old }
{
    let threads = layout::threads_of(l);
    let i = base::wide(r.0);
    let p = record::body_of(w, threads, i);
    let g = run_record::threads::thread_global(w, p);
    arena::set_colour(w, threads, i, 4);
    mark::mark_table_or(w, l, g);
    mark_stack(w, l, p);
}

pub fn retraverse_thread(w: &mut [u32], l: Plan, r: ThreadRef)
    requires l_in_bounds { (lay_of l.sizes).words ≤ length w.old }
    ensures { w.new ≡ retraverse_thread (ops (lay_of l.sizes)) (lay_of l.sizes) r w.old }
{
    if mark::shade(w, layout::threads_of(l), r.0, r.1) == 0 {
        return;
    }
    retraverse_thread_at(w, l, r);
}
