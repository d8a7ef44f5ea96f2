// A thread's record, 268 words (specs/Threads.antt has the places).
ghost use Rattle.std.specs.Prelude.{◌≡◌, ◌+◌, ◌≤◌, ◌<◌, length};
ghost use Rattle.run_record.specs.Threads.{thread_global, set_thread_global, thread_hook, set_thread_hook, thread_error, set_thread_error, thread_size, set_thread_size, thread_top, set_thread_top, thread_open_count, set_thread_open_count, thread_suspended_count, set_thread_suspended_count, thread_open, set_thread_open, thread_suspended, set_thread_suspended, thread_value, set_thread_value, thread_extent};

use value::{TableRef, UpvalRef, Value};

pub fn thread_global(w: &[u32], p: usize) -> Option<TableRef>
    requires { p + 268 ≤ length w.now }
    ensures { result ≡ thread_global p w.now }
{
    value::read_table_or(w, p)
}

pub fn set_thread_global(w: &mut [u32], p: usize, t: Option<TableRef>)
    requires { p + 268 ≤ length w.old }
    ensures { w.new ≡ set_thread_global p t w.old }
{
    value::write_table_or(w, p, t);
}

pub fn thread_hook(w: &[u32], p: usize) -> Value
    requires { p + 268 ≤ length w.now }
    ensures { result ≡ thread_hook p w.now }
{
    value::read_value(w, p + 2)
}

pub fn set_thread_hook(w: &mut [u32], p: usize, v: Value)
    requires { p + 268 ≤ length w.old }
    ensures { w.new ≡ set_thread_hook p v w.old }
{
    value::write_value(w, p + 2, v);
}

pub fn thread_error(w: &[u32], p: usize) -> Value
    requires { p + 268 ≤ length w.now }
    ensures { result ≡ thread_error p w.now }
{
    value::read_value(w, p + 5)
}

pub fn set_thread_error(w: &mut [u32], p: usize, v: Value)
    requires { p + 268 ≤ length w.old }
    ensures { w.new ≡ set_thread_error p v w.old }
{
    value::write_value(w, p + 5, v);
}

// The size of its stack.
pub fn thread_size(w: &[u32], p: usize) -> usize
    requires { p + 268 ≤ length w.now }
    ensures { (result ≡ thread_size p w.now) × (result ≤ 64) }
{
    record::count_at(w, p + 8, 64)
}

pub fn set_thread_size(w: &mut [u32], p: usize, n: usize)
    requires p_in_bounds { p + 268 ≤ length w.old }
    requires n_bound { n ≤ 64 }
    ensures { w.new ≡ set_thread_size p n w.old }
{
    record::put_number(w, p + 8, n);
}

// The least of top and size.
pub fn thread_top(w: &[u32], p: usize) -> usize
    requires { p + 268 ≤ length w.now }
    ensures { (result ≡ thread_top p w.now) × (result ≤ 64) }
{
    record::least(record::number_at(w, p + 9), thread_size(w, p))
}

pub fn set_thread_top(w: &mut [u32], p: usize, n: usize)
    requires p_in_bounds { p + 268 ≤ length w.old }
    requires n_bound { n ≤ 64 }
    ensures { w.new ≡ set_thread_top p n w.old }
{
    record::put_number(w, p + 9, n);
}

pub fn thread_open_count(w: &[u32], p: usize) -> usize
    requires { p + 268 ≤ length w.now }
    ensures { (result ≡ thread_open_count p w.now) × (result ≤ 16) }
{
    record::count_at(w, p + 10, 16)
}

pub fn set_thread_open_count(w: &mut [u32], p: usize, n: usize)
    requires p_in_bounds { p + 268 ≤ length w.old }
    requires n_bound { n ≤ 16 }
    ensures { w.new ≡ set_thread_open_count p n w.old }
{
    record::put_number(w, p + 10, n);
}

pub fn thread_suspended_count(w: &[u32], p: usize) -> usize
    requires { p + 268 ≤ length w.now }
    ensures { (result ≡ thread_suspended_count p w.now) × (result ≤ 16) }
{
    record::count_at(w, p + 11, 16)
}

pub fn set_thread_suspended_count(w: &mut [u32], p: usize, n: usize)
    requires p_in_bounds { p + 268 ≤ length w.old }
    requires n_bound { n ≤ 16 }
    ensures { w.new ≡ set_thread_suspended_count p n w.old }
{
    record::put_number(w, p + 11, n);
}

pub fn thread_open(w: &[u32], p: usize, i: usize) -> UpvalRef
    requires p_in_bounds { p + 268 ≤ length w.now }
    requires i_bound { i < 16 }
    ensures { result ≡ thread_open p i w.now }
{
    record::read_upval(w, p + 12 + 2 * i)
}

pub fn set_thread_open(w: &mut [u32], p: usize, i: usize, u: UpvalRef)
    requires p_in_bounds { p + 268 ≤ length w.old }
    requires i_bound { i < 16 }
    ensures { w.new ≡ set_thread_open p i u w.old }
{
    record::write_upval(w, p + 12 + 2 * i, u);
}

pub fn thread_suspended(w: &[u32], p: usize, i: usize) -> UpvalRef
    requires p_in_bounds { p + 268 ≤ length w.now }
    requires i_bound { i < 16 }
    ensures { result ≡ thread_suspended p i w.now }
{
    record::read_upval(w, p + 44 + 2 * i)
}

pub fn set_thread_suspended(w: &mut [u32], p: usize, i: usize, u: UpvalRef)
    requires p_in_bounds { p + 268 ≤ length w.old }
    requires i_bound { i < 16 }
    ensures { w.new ≡ set_thread_suspended p i u w.old }
{
    record::write_upval(w, p + 44 + 2 * i, u);
}

// A place of its stack.
pub fn thread_value(w: &[u32], p: usize, i: usize) -> Value
    requires p_in_bounds { p + 268 ≤ length w.now }
    requires i_bound { i < 64 }
    ensures { result ≡ thread_value p i w.now }
{
    value::read_value(w, p + 76 + 3 * i)
}

pub fn set_thread_value(w: &mut [u32], p: usize, i: usize, v: Value)
    requires p_in_bounds { p + 268 ≤ length w.old }
    requires i_bound { i < 64 }
    ensures { w.new ≡ set_thread_value p i v w.old }
{
    value::write_value(w, p + 76 + 3 * i, v);
}

// The words that a thread takes, with a stack of n places.
pub fn thread_extent(n: usize) -> usize
    requires { n ≤ 64 }
    ensures { (result ≡ thread_extent n) × (result ≤ 268) }
{
    76 + 3 * n
}
