// A userdata's record, 7 words (specs/Userdata.antt has the places).
ghost use Rattle.std.specs.Prelude.{◌≡◌, ◌+◌, ◌≤◌, length};
ghost use Rattle.record.specs.Userdata.{ud_meta, set_ud_meta, ud_env, set_ud_env, ud_creation, set_ud_creation, ud_finalized, set_ud_finalized};

use value::TableRef;

pub fn ud_meta(w: &[u32], p: usize) -> Option<TableRef>
    requires { p + 7 ≤ length w.now }
    ensures { result ≡ ud_meta p w.now }
{
    value::read_table_or(w, p)
}

pub fn set_ud_meta(w: &mut [u32], p: usize, t: Option<TableRef>)
    requires { p + 7 ≤ length w.old }
    ensures { w.new ≡ set_ud_meta p t w.old }
{
    value::write_table_or(w, p, t);
}

pub fn ud_env(w: &[u32], p: usize) -> Option<TableRef>
    requires { p + 7 ≤ length w.now }
    ensures { result ≡ ud_env p w.now }
{
    value::read_table_or(w, p + 2)
}

pub fn set_ud_env(w: &mut [u32], p: usize, t: Option<TableRef>)
    requires { p + 7 ≤ length w.old }
    ensures { w.new ≡ set_ud_env p t w.old }
{
    value::write_table_or(w, p + 2, t);
}

// The creation number.
pub fn ud_creation(w: &[u32], p: usize) -> u64
    requires { p + 7 ≤ length w.now }
    ensures { result ≡ ud_creation p w.now }
{
    base::get64(w, p + 4)
}

pub fn set_ud_creation(w: &mut [u32], p: usize, x: u64)
    requires { p + 7 ≤ length w.old }
    ensures { w.new ≡ set_ud_creation p x w.old }
{
    base::put64(w, p + 4, x);
}

pub fn ud_finalized(w: &[u32], p: usize) -> bool
    requires { p + 7 ≤ length w.now }
    ensures { result ≡ ud_finalized p w.now }
{
    crate::is_set(w, p + 6)
}

pub fn set_ud_finalized(w: &mut [u32], p: usize, b: bool)
    requires { p + 7 ≤ length w.old }
    ensures { w.new ≡ set_ud_finalized p b w.old }
{
    crate::put_flag(w, p + 6, b);
}
