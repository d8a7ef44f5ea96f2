// Public reads of closures, upvalues and threads by handle. Each gives 1 and 8 first, then 2 for a handle that names no
// occupied slot, then 4 for an index outside its range, and changes nothing.
#![tactic(auto)]

ghost use Rattle.std.specs.Prelude.{◌≡◌, ◌+◌, ◌≤◌, length};
ghost use Rattle.base.specs.Heap.{heap};
ghost use Rattle.run_reads.specs.RunReads.{held_upvalue, held_value, closure_in, read_closure, upvalue_in, read_upvalue, thread_in, read_thread};

use base::Refusal;
use reads::{Kind, Read};
use value::{FuncRef, ThreadRef, UpvalRef, Value};

// A field of a closure. A Lua closure has upvalues, a Rust closure (`Rust` is 1) values; both end at the count.
#[derive(Clone, Copy)]
pub enum ClosureField {
    Rust,
    Env,
    Proto,
    Count,
    Upvalue(u32),
    Value(u32),
}

fn held_upvalue(w: &[u32], p: usize, i: u32) -> Result<Read, Refusal>
    requires { p + 53 ≤ length w.now }
    ensures { result ≡ held_upvalue p i w.now }
{
    let k = base::wide(i);
    if run_record::closures::closure_count(w, p) <= k {
        return Err(Refusal::OutOfRange);
    }
    if run_record::closures::is_rust(w, p) {
        return Err(Refusal::OutOfRange);
    }
    Ok(Read::Upvalue(run_record::closures::closure_upvalue(w, p, k)))
}

fn held_value(w: &[u32], p: usize, i: u32) -> Result<Read, Refusal>
    requires { p + 53 ≤ length w.now }
    ensures { result ≡ held_value p i w.now }
{
    let k = base::wide(i);
    if run_record::closures::closure_count(w, p) <= k {
        return Err(Refusal::OutOfRange);
    }
    if run_record::closures::is_rust(w, p) {
        return Ok(Read::Value(run_record::closures::closure_value(w, p, k)));
    }
    Err(Refusal::OutOfRange)
}

fn closure_in(w: &[u32], p: usize, q: ClosureField) -> Result<Read, Refusal>
    requires { p + 53 ≤ length w.now }
    ensures { result ≡ closure_in p q w.now }
{
    match q {
        ClosureField::Rust => reads::flag_read(run_record::closures::is_rust(w, p)),
        ClosureField::Env => Ok(Read::Table(run_record::closures::closure_env(w, p))),
        ClosureField::Proto => Ok(Read::Number(run_record::closures::closure_proto(w, p) as u64)),
        ClosureField::Count => Ok(Read::Number(run_record::closures::closure_count(w, p) as u64)),
        ClosureField::Upvalue(i) => held_upvalue(w, p, i),
        ClosureField::Value(i) => held_value(w, p, i),
    }
}

// A field of a closure.
pub fn read_closure(w: &[u32], b: &[u8], f: FuncRef, q: ClosureField) -> Result<Read, Refusal>
    ensures { result ≡ read_closure f q (heap w.now b.now) }
{
    let (_, p) = reads::find(w, b, Kind::Functions, f.0, f.1)?;
    closure_in(w, p, q)
}

// A field of an upvalue. `Closed` is 1 or 0.
#[derive(Clone, Copy)]
pub enum UpvalueField {
    Closed,
    Value,
}

fn upvalue_in(w: &[u32], p: usize, q: UpvalueField) -> Result<Read, Refusal>
    requires { p + 4 ≤ length w.now }
    ensures { result ≡ upvalue_in p q w.now }
{
    match q {
        UpvalueField::Closed => reads::flag_read(run_record::upvalues::is_closed(w, p)),
        UpvalueField::Value => Ok(Read::Value(run_record::upvalues::upvalue_value(w, p))),
    }
}

// A field of an upvalue.
pub fn read_upvalue(w: &[u32], b: &[u8], u: UpvalRef, q: UpvalueField) -> Result<Read, Refusal>
    ensures { result ≡ read_upvalue u q (heap w.now b.now) }
{
    let (_, p) = reads::find(w, b, Kind::Upvalues, u.0, u.1)?;
    upvalue_in(w, p, q)
}

// A field of a thread. The upvalues end at their counts, the stack at its size.
#[derive(Clone, Copy)]
pub enum ThreadField {
    Global,
    Hook,
    Error,
    Size,
    Top,
    Opens,
    Suspendeds,
    Open(u32),
    Suspended(u32),
    Stack(u32),
}

fn thread_in(w: &[u32], p: usize, q: ThreadField) -> Result<Read, Refusal>
    requires { p + 268 ≤ length w.now }
    ensures { result ≡ thread_in p q w.now }
{
    match q {
        ThreadField::Global => Ok(Read::Table(run_record::threads::thread_global(w, p))),
        ThreadField::Hook => Ok(Read::Value(run_record::threads::thread_hook(w, p))),
        ThreadField::Error => Ok(Read::Value(run_record::threads::thread_error(w, p))),
        ThreadField::Size => Ok(Read::Number(run_record::threads::thread_size(w, p) as u64)),
        ThreadField::Top => Ok(Read::Number(run_record::threads::thread_top(w, p) as u64)),
        ThreadField::Opens => Ok(Read::Number(run_record::threads::thread_open_count(w, p) as u64)),
        ThreadField::Suspendeds => Ok(Read::Number(
            run_record::threads::thread_suspended_count(w, p) as u64,
        )),
        ThreadField::Open(i) => {
            let k = base::wide(i);
            if run_record::threads::thread_open_count(w, p) <= k {
                return Err(Refusal::OutOfRange);
            }
            Ok(Read::Upvalue(run_record::threads::thread_open(w, p, k)))
        }
        ThreadField::Suspended(i) => {
            let k = base::wide(i);
            if run_record::threads::thread_suspended_count(w, p) <= k {
                return Err(Refusal::OutOfRange);
            }
            Ok(Read::Upvalue(run_record::threads::thread_suspended(w, p, k)))
        }
        ThreadField::Stack(i) => {
            let k = base::wide(i);
            if run_record::threads::thread_size(w, p) <= k {
                return Err(Refusal::OutOfRange);
            }
            Ok(Read::Value(run_record::threads::thread_value(w, p, k)))
        }
    }
}

// A field of a thread.
pub fn read_thread(w: &[u32], b: &[u8], h: ThreadRef, q: ThreadField) -> Result<Read, Refusal>
    ensures { result ≡ read_thread h q (heap w.now b.now) }
{
    let (_, p) = reads::find(w, b, Kind::Threads, h.0, h.1)?;
    thread_in(w, p, q)
}
