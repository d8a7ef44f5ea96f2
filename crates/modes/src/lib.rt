// Metafields (document 01, 'Followed links'): a key looked up in node order, by handle; the weak mode that a metatable gives
// by `__mode`, and whether it has a `__gc`. Nothing is changed.
#![tactic(auto)]

ghost use Rattle.std.specs.Prelude.{◌≡◌, ◌+◌, ◌≤◌, length};
ghost use Rattle.layout.specs.Layout.{lay_of};
ghost use Rattle.value.specs.Values.{key_equal};
ghost use Rattle.value.specs.declared.Value.TheVariants.{Str};
ghost use Rattle.modes.specs.Modes.{is_weak, is_both, look_up, field_named, field, mode_of_text, mode_of_string, mode_of_value, weak_mode, gc_method};

use layout::Plan;
use value::{StrRef, TableRef, Value};

// Weak keys, weak values.
#[derive(Clone, Copy)]
pub struct Mode {
    pub keys: bool,
    pub values: bool,
}

pub const STRONG: Mode = Mode {
    keys: false,
    values: false,
};

// Weak in either way.
pub fn is_weak(m: Mode) -> bool
    ensures { result ≡ is_weak m }
{
    m.keys || m.values
}

// Weak in both.
pub fn is_both(m: Mode) -> bool
    ensures { result ≡ is_both m }
{
    m.keys && m.values
}

// The value of the first node whose key is the name, nil where there is none.
pub fn look_up(w: &[u32], p: usize, s: StrRef) -> Value
    requires { p + 580 ≤ length w.now }
    ensures { result ≡ look_up p s w.now }
{
    let n = record::tables::node_count(w, p);
    for j in 0..n {
        if value::key_equal(record::tables::node_key(w, p, j), Value::Str(s)) {
            return record::tables::node_value(w, p, j);
        }
    }
    Value::Nil
}

// The field of a table by a name that may be missing; nil where the handle names no table.
pub fn field(w: &[u32], l: Plan, t: TableRef, s: Option<StrRef>) -> Value
    requires l_in_bounds { (lay_of l.sizes).words ≤ length w.now }
    ensures { result ≡ field (lay_of l.sizes) t s w.now }
{
    match s {
        Some(name) => field_named(w, l, t, name),
        None => Value::Nil,
    }
}

fn field_named(w: &[u32], l: Plan, t: TableRef, s: StrRef) -> Value
    requires l_in_bounds { (lay_of l.sizes).words ≤ length w.now }
    ensures { result ≡ field_named (lay_of l.sizes) t s w.now }
{
    let tables = layout::tables_of(l);
    match arena::name_of(w, tables, t.0, t.1) {
        Some(i) => look_up(w, record::body_of(w, tables, i), s),
        None => Value::Nil,
    }
}

// `k` in it means weak keys, `v` weak values.
fn mode_of_text(s: &[u8]) -> Mode
    ensures { result ≡ mode_of_text s.now }
{
    Mode {
        keys: record::strings::has_byte(s, b'k'),
        values: record::strings::has_byte(s, b'v'),
    }
}

fn mode_of_string(w: &[u32], b: &[u8], l: Plan, s: StrRef) -> Mode
    requires l_in_bounds { (lay_of l.sizes).words ≤ length w.now }
    requires l_in_bounds_2 { (lay_of l.sizes).bytes ≤ length b.now }
    ensures { result ≡ mode_of_string (lay_of l.sizes) s w.now b.now }
{
    let strings = layout::strings_of(l);
    match arena::name_of(w, strings, s.0, s.1) {
        Some(i) => {
            let n = record::strings::string_length(w, record::body_of(w, strings, i));
            mode_of_text(record::strings::text(b, i, n))
        }
        None => STRONG,
    }
}

fn mode_of_value(w: &[u32], b: &[u8], l: Plan, v: Value) -> Mode
    requires l_in_bounds { (lay_of l.sizes).words ≤ length w.now }
    requires l_in_bounds_2 { (lay_of l.sizes).bytes ≤ length b.now }
    ensures { result ≡ mode_of_value (lay_of l.sizes) v w.now b.now }
{
    match v {
        Value::Str(s) => mode_of_string(w, b, l, s),
        _ => STRONG,
    }
}

// The mode that a metatable gives, if there is one.
pub fn check_weak_mode(w: &[u32], b: &[u8], l: Plan, mt: Option<TableRef>) -> Mode
    requires l_in_bounds { (lay_of l.sizes).words ≤ length w.now }
    requires l_in_bounds_2 { (lay_of l.sizes).bytes ≤ length b.now }
    ensures { result ≡ weak_mode (lay_of l.sizes) mt w.now b.now }
{
    match mt {
        Some(t) => {
            let v = field(w, l, t, main_record::mode_name(w));
            mode_of_value(w, b, l, v)
        }
        None => STRONG,
    }
}

// The `__gc` that a metatable gives now, nil where there is none.
pub fn gc_method(w: &[u32], l: Plan, mt: Option<TableRef>) -> Value
    requires l_in_bounds { (lay_of l.sizes).words ≤ length w.now }
    ensures { result ≡ gc_method (lay_of l.sizes) mt w.now }
{
    match mt {
        Some(t) => field(w, l, t, main_record::gc_name(w)),
        None => Value::Nil,
    }
}
