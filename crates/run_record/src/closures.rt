// A closure's record, 53 words (specs/Closures.antt has the places).
ghost use Rattle.std.specs.Prelude.{◌≡◌, ◌+◌, ◌^◌, ◌≤◌, ◌<◌, length};
ghost use Rattle.run_record.specs.Closures.{is_rust, set_rust, closure_env, set_closure_env, closure_proto, set_closure_proto, closure_count, set_closure_count, closure_upvalue, set_closure_upvalue, closure_value, set_closure_value, closure_extent};

use value::{TableRef, UpvalRef, Value};

// Whether it is a Rust closure; else a Lua closure.
pub fn is_rust(w: &[u32], p: usize) -> bool
    requires { p + 53 ≤ length w.now }
    ensures { result ≡ is_rust p w.now }
{
    record::is_one(w, p)
}

pub fn set_rust(w: &mut [u32], p: usize, b: bool)
    requires { p + 53 ≤ length w.old }
    ensures { w.new ≡ set_rust p b w.old }
{
    record::put_flag(w, p, b);
}

pub fn closure_env(w: &[u32], p: usize) -> Option<TableRef>
    requires { p + 53 ≤ length w.now }
    ensures { result ≡ closure_env p w.now }
{
    value::read_table_or(w, p + 1)
}

pub fn set_closure_env(w: &mut [u32], p: usize, t: Option<TableRef>)
    requires { p + 53 ≤ length w.old }
    ensures { w.new ≡ set_closure_env p t w.old }
{
    value::write_table_or(w, p + 1, t);
}

// The number of its prototype.
pub fn closure_proto(w: &[u32], p: usize) -> usize
    requires { p + 53 ≤ length w.now }
    ensures { (result ≡ closure_proto p w.now) × (result < 2 ^ 32) }
{
    record::number_at(w, p + 3)
}

pub fn set_closure_proto(w: &mut [u32], p: usize, n: usize)
    requires p_in_bounds { p + 53 ≤ length w.old }
    requires n_bound { n < 2 ^ 32 }
    ensures { w.new ≡ set_closure_proto p n w.old }
{
    record::put_number(w, p + 3, n);
}

// How many upvalues, or values of a Rust closure, it has.
pub fn closure_count(w: &[u32], p: usize) -> usize
    requires { p + 53 ≤ length w.now }
    ensures { (result ≡ closure_count p w.now) × (result ≤ 16) }
{
    record::count_at(w, p + 4, 16)
}

pub fn set_closure_count(w: &mut [u32], p: usize, n: usize)
    requires p_in_bounds { p + 53 ≤ length w.old }
    requires n_bound { n ≤ 16 }
    ensures { w.new ≡ set_closure_count p n w.old }
{
    record::put_number(w, p + 4, n);
}

// Of a Lua closure.
pub fn closure_upvalue(w: &[u32], p: usize, i: usize) -> UpvalRef
    requires p_in_bounds { p + 53 ≤ length w.now }
    requires i_bound { i < 16 }
    ensures { result ≡ closure_upvalue p i w.now }
{
    record::read_upval(w, p + 5 + 2 * i)
}

pub fn set_closure_upvalue(w: &mut [u32], p: usize, i: usize, u: UpvalRef)
    requires p_in_bounds { p + 53 ≤ length w.old }
    requires i_bound { i < 16 }
    ensures { w.new ≡ set_closure_upvalue p i u w.old }
{
    record::write_upval(w, p + 5 + 2 * i, u);
}

// Of a Rust closure.
pub fn closure_value(w: &[u32], p: usize, i: usize) -> Value
    requires p_in_bounds { p + 53 ≤ length w.now }
    requires i_bound { i < 16 }
    ensures { result ≡ closure_value p i w.now }
{
    value::read_value(w, p + 5 + 3 * i)
}

pub fn set_closure_value(w: &mut [u32], p: usize, i: usize, v: Value)
    requires p_in_bounds { p + 53 ≤ length w.old }
    requires i_bound { i < 16 }
    ensures { w.new ≡ set_closure_value p i v w.old }
{
    value::write_value(w, p + 5 + 3 * i, v);
}

// The words that a closure takes, with n upvalues.
pub fn closure_extent(rust: bool, n: usize) -> usize
    requires { n ≤ 16 }
    ensures { (result ≡ closure_extent rust n) × (result ≤ 53) }
{
    if rust { 5 + 3 * n } else { 5 + 2 * n }
}
