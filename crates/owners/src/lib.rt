// Where the stacks and lists of the main record and of a thread lie, and a thread's record by its handle.
#![tactic(auto)]

ghost use Rattle.std.specs.Prelude.{◌≡◌, ◌+◌, ◌≤◌, length};
ghost use Rattle.layout.specs.Layout.{lay_of};
ghost use Rattle.stacks.specs.Places.{Holds};
ghost use Rattle.owners.specs.Owners.{main_stack, main_opens, thread_stack, thread_opens, thread_suspended, thread_body, Inside};

use layout::Plan;
use stacks::Counted;
use value::ThreadRef;

pub fn main_stack(w: &[u32], l: Plan) -> Counted
    requires l_in_bounds { (lay_of l.sizes).words ≤ length w.now }
    ensures { (result ≡ main_stack (lay_of l.sizes) w.now) × Holds result 3 (length w.now) }
{
    Counted {
        word: layout::TOP,
        base: layout::stack_at(l),
        room: l.sizes.stack,
        count: main_record::main_top(w, l),
    }
}

pub fn main_opens(w: &[u32], l: Plan) -> Counted
    requires l_in_bounds { (lay_of l.sizes).words ≤ length w.now }
    ensures { (result ≡ main_opens (lay_of l.sizes) w.now) × Holds result 2 (length w.now) }
{
    Counted {
        word: layout::OPENS,
        base: layout::opens_at(l),
        room: l.sizes.opens,
        count: main_record::main_open_count(w, l),
    }
}

// The stack of the thread whose record is at p.
pub fn thread_stack(w: &[u32], p: usize) -> Counted
    requires { p + 268 ≤ length w.now }
    ensures { (result ≡ thread_stack p w.now) × Holds result 3 (length w.now) }
{
    Counted {
        word: p + 9,
        base: p + 76,
        room: run_record::threads::thread_size(w, p),
        count: run_record::threads::thread_top(w, p),
    }
}

pub fn thread_opens(w: &[u32], p: usize) -> Counted
    requires { p + 268 ≤ length w.now }
    ensures { (result ≡ thread_opens p w.now) × Holds result 2 (length w.now) }
{
    Counted {
        word: p + 10,
        base: p + 12,
        room: 16,
        count: run_record::threads::thread_open_count(w, p),
    }
}

pub fn thread_suspended(w: &[u32], p: usize) -> Counted
    requires { p + 268 ≤ length w.now }
    ensures { (result ≡ thread_suspended p w.now) × Holds result 2 (length w.now) }
{
    Counted {
        word: p + 11,
        base: p + 44,
        room: 16,
        count: run_record::threads::thread_suspended_count(w, p),
    }
}

pub fn thread_body(w: &[u32], l: Plan, t: ThreadRef) -> Option<usize>
    requires l_in_bounds { (lay_of l.sizes).words ≤ length w.now }
    ensures { (result ≡ thread_body (lay_of l.sizes) t w.now) × Inside result (length w.now) }
{
    let threads = layout::threads_of(l);
    let i = arena::name_of(w, threads, t.0, t.1)?;
    Some(record::body_of(w, threads, i))
}
