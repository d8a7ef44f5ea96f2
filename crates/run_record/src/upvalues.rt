// An upvalue's record, 4 words (specs/Upvalues.antt has the places).
ghost use Rattle.std.specs.Prelude.{◌≡◌, ◌+◌, ◌≤◌, length};
ghost use Rattle.run_record.specs.Upvalues.{is_closed, set_closed, upvalue_value, set_upvalue_value};

use value::Value;

// Whether it is closed; else it is open.
pub fn is_closed(w: &[u32], p: usize) -> bool
    requires { p + 4 ≤ length w.now }
    ensures { result ≡ is_closed p w.now }
{
    record::is_one(w, p)
}

pub fn set_closed(w: &mut [u32], p: usize, b: bool)
    requires { p + 4 ≤ length w.old }
    ensures { w.new ≡ set_closed p b w.old }
{
    record::put_flag(w, p, b);
}

pub fn upvalue_value(w: &[u32], p: usize) -> Value
    requires { p + 4 ≤ length w.now }
    ensures { result ≡ upvalue_value p w.now }
{
    value::read_value(w, p + 1)
}

pub fn set_upvalue_value(w: &mut [u32], p: usize, v: Value)
    requires { p + 4 ≤ length w.old }
    ensures { w.new ≡ set_upvalue_value p v w.old }
{
    value::write_value(w, p + 1, v);
}
