// The main thread: stack below top, open upvalues, error value, hook function, and the stack value at the function index of
// each frame up to `ci`, also above top.
ghost use Rattle.std.specs.Prelude.{◌≡◌, ◌+◌, ◌*◌, ◌≤◌, ◌<◌, length};
ghost use Rattle.layout.specs.Layout.{lay_of};
ghost use Rattle.mark.specs.Words.{ops};
ghost use Rattle.run_walk.specs.MainThread.{mark_frame, mark_frames, mark_main, main_cost, traverse_main_thread};

use layout::Plan;
use lists::Item;

// The function of frame i, if its index lies on the stack.
fn mark_frame(w: &mut [u32], l: Plan, i: usize)
    requires l_in_bounds { (lay_of l.sizes).words ≤ length w.old }
    requires i_bound { i < (lay_of l.sizes).frames.room }
    ensures { w.new ≡ mark_frame (ops (lay_of l.sizes)) (lay_of l.sizes) i w.old }
{
    let f = main_record::frame_function(w, l, i);
    if f < l.sizes.stack {
        mark::mark_value_at(w, l, layout::stack_at(l) + 3 * f);
    }
}

// Frames 0 to n - 1.
fn mark_frames(w: &mut [u32], l: Plan, n: usize)
    requires l_in_bounds { (lay_of l.sizes).words ≤ length w.old }
    requires n_bound { n ≤ (lay_of l.sizes).frames.room }
    ensures { w.new ≡ mark_frames (ops (lay_of l.sizes)) (lay_of l.sizes) n w.old }
{
    for i in 0..n {
        mark_frame(w, l, i);
    }
}

// All its links. The atomic phase follows them once more by this.
pub fn mark_main(w: &mut [u32], l: Plan)
    requires l_in_bounds { (lay_of l.sizes).words ≤ length w.old }
    ensures { w.new ≡ mark_main (ops (lay_of l.sizes)) (lay_of l.sizes) w.old }
{
    mark::mark_values(w, l, layout::stack_at(l), main_record::main_top(w, l));
    mark::mark_upvalues(
        w,
        l,
        layout::opens_at(l),
        main_record::main_open_count(w, l),
    );
    mark::mark_value_at(w, l, layout::ERROR);
    mark::mark_value_at(w, l, layout::HOOK);
    mark_frames(w, l, main_record::main_ci(w, l) + 1);
}

// The main thread is followed and listed for the atomic phase: 256 + 16 for each stack place + 40 for each frame.
pub fn traverse_main_thread(w: &mut [u32], l: Plan) -> usize
    requires l_in_bounds { (lay_of l.sizes).words ≤ length w.old }
    ensures { ((result, w.new) ≡ traverse_main_thread (ops (lay_of l.sizes)) (lay_of l.sizes) w.old) × (result ≤ 5632) }
{
    mark_main(w, l);
    lists::push(w, layout::grayagain_of(l), Item::Main);
    256 + 16 * l.sizes.stack + 40 * l.sizes.frames
}
