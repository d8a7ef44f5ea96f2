// Handles and values (document 01, module 2): a handle for each kind, the nine kinds of value and the three words that
// each is stored in, a handle that may be missing, and the equality of keys.
#![tactic(auto)]

ghost use Rattle.std.specs.Prelude.{◌≡◌, ◌+◌, ◌<◌, length};
ghost use Rattle.base.specs.Words.{put};
ghost use Rattle.value.specs.Numbers.{is_nan, same_number};
ghost use Rattle.value.specs.Values.{is_nil, tag_of, word_of, low_of, high_of, bits_of, value_of, value_at, put3, put_value, payload_equal, key_equal};
ghost use Rattle.value.specs.Handles.{handle_of, handle_at, put_handle, table_or_at, put_table_or, str_or_at, put_str_or, ud_or_at, put_ud_or};

// A handle is an index and a generation. Each kind has its own, so that a string's never passes for a table's.
#[derive(Clone, Copy)]
pub struct StrRef(pub u32, pub u32);

#[derive(Clone, Copy)]
pub struct TableRef(pub u32, pub u32);

#[derive(Clone, Copy)]
pub struct FuncRef(pub u32, pub u32);

#[derive(Clone, Copy)]
pub struct UpvalRef(pub u32, pub u32);

#[derive(Clone, Copy)]
pub struct UdRef(pub u32, pub u32);

#[derive(Clone, Copy)]
pub struct ThreadRef(pub u32, pub u32);

// The nine kinds, in the order of their tags. A number is the pattern of its 64 bits.
#[derive(Clone, Copy)]
pub enum Value {
    Nil,
    Boolean(bool),
    Light(u64),
    Number(u64),
    Str(StrRef),
    Table(TableRef),
    Function(FuncRef),
    Userdata(UdRef),
    Thread(ThreadRef),
}

// The tag of a value: Lua's own number of its type.
pub fn tag_of(v: Value) -> u32
    ensures { result ≡ tag_of v }
{
    match v {
        Value::Nil => 0,
        Value::Boolean(_) => 1,
        Value::Light(_) => 2,
        Value::Number(_) => 3,
        Value::Str(_) => 4,
        Value::Table(_) => 5,
        Value::Function(_) => 6,
        Value::Userdata(_) => 7,
        Value::Thread(_) => 8,
    }
}

// A boolean as a word: 1 for true, 0 for false.
pub fn word_of(b: bool) -> u32
    ensures { result ≡ word_of b }
{
    u32::from(b)
}

pub fn low_of(v: Value) -> u32
    ensures { result ≡ low_of v }
{
    match v {
        Value::Nil => 0,
        Value::Boolean(b) => word_of(b),
        Value::Light(x) => base::low_half(x),
        Value::Number(x) => base::low_half(x),
        Value::Str(r) => r.0,
        Value::Table(r) => r.0,
        Value::Function(r) => r.0,
        Value::Userdata(r) => r.0,
        Value::Thread(r) => r.0,
    }
}

pub fn high_of(v: Value) -> u32
    ensures { result ≡ high_of v }
{
    match v {
        Value::Nil => 0,
        Value::Boolean(_) => 0,
        Value::Light(x) => base::high_half(x),
        Value::Number(x) => base::high_half(x),
        Value::Str(r) => r.1,
        Value::Table(r) => r.1,
        Value::Function(r) => r.1,
        Value::Userdata(r) => r.1,
        Value::Thread(r) => r.1,
    }
}

// The value of a tag and two words. An unknown tag is nil.
pub fn value_of(tag: u32, low: u32, high: u32) -> Value
    ensures { result ≡ value_of tag low high }
{
    match tag {
        1 => Value::Boolean(0 < low),
        2 => Value::Light(base::joined(low, high)),
        3 => Value::Number(base::joined(low, high)),
        4 => Value::Str(StrRef(low, high)),
        5 => Value::Table(TableRef(low, high)),
        6 => Value::Function(FuncRef(low, high)),
        7 => Value::Userdata(UdRef(low, high)),
        8 => Value::Thread(ThreadRef(low, high)),
        _ => Value::Nil,
    }
}

// The value in words p to p + 2.
pub fn read_value(w: &[u32], p: usize) -> Value
    requires { p + 2 < length w.now }
    ensures { result ≡ value_at w.now p }
{
    value_of(base::get(w, p), base::get(w, p + 1), base::get(w, p + 2))
}

// Three words from p on.
pub fn put3(w: &mut [u32], p: usize, a: u32, b: u32, c: u32)
    requires { p + 2 < length w.old }
    ensures { w.new ≡ put3 p a b c w.old }
{
    base::put(w, p, a);
    base::put(w, p + 1, b);
    base::put(w, p + 2, c);
}

pub fn write_value(w: &mut [u32], p: usize, v: Value)
    requires { p + 2 < length w.old }
    ensures { w.new ≡ put_value p v w.old }
{
    put3(w, p, tag_of(v), low_of(v), high_of(v));
}

// The handle that two words hold: index + 1, 0 for none, and the generation.
fn handle_of(first: u32, generation: u32) -> Option<(u32, u32)>
    ensures { result ≡ handle_of first generation }
{
    if first == 0 {
        None
    } else {
        Some((first - 1, generation))
    }
}

fn read_handle(w: &[u32], p: usize) -> Option<(u32, u32)>
    requires { p + 1 < length w.now }
    ensures { result ≡ handle_at w.now p }
{
    handle_of(base::get(w, p), base::get(w, p + 1))
}

fn put_pair(w: &mut [u32], p: usize, a: u32, b: u32)
    requires { p + 1 < length w.old }
    ensures { w.new ≡ put (p + 1) b (put p a w.old) }
{
    base::put(w, p, a);
    base::put(w, p + 1, b);
}

// The sum wraps: an index of 2^32 - 1, which no slot has, is stored as none with its generation.
fn write_handle(w: &mut [u32], p: usize, h: Option<(u32, u32)>)
    requires { p + 1 < length w.old }
    ensures { w.new ≡ put_handle p h w.old }
{
    match h {
        None => put_pair(w, p, 0, 0),
        Some((i, g)) => put_pair(w, p, i.wrapping_add(1), g),
    }
}

pub fn read_table_or(w: &[u32], p: usize) -> Option<TableRef>
    requires { p + 1 < length w.now }
    ensures { result ≡ table_or_at w.now p }
{
    read_handle(w, p).map(|(i, g)| TableRef(i, g))
}

pub fn write_table_or(w: &mut [u32], p: usize, t: Option<TableRef>)
    requires { p + 1 < length w.old }
    ensures { w.new ≡ put_table_or p t w.old }
{
    write_handle(w, p, t.map(|r| (r.0, r.1)));
}

pub fn read_str_or(w: &[u32], p: usize) -> Option<StrRef>
    requires { p + 1 < length w.now }
    ensures { result ≡ str_or_at w.now p }
{
    read_handle(w, p).map(|(i, g)| StrRef(i, g))
}

pub fn write_str_or(w: &mut [u32], p: usize, s: Option<StrRef>)
    requires { p + 1 < length w.old }
    ensures { w.new ≡ put_str_or p s w.old }
{
    write_handle(w, p, s.map(|r| (r.0, r.1)));
}

pub fn read_ud_or(w: &[u32], p: usize) -> Option<UdRef>
    requires { p + 1 < length w.now }
    ensures { result ≡ ud_or_at w.now p }
{
    read_handle(w, p).map(|(i, g)| UdRef(i, g))
}

pub fn write_ud_or(w: &mut [u32], p: usize, d: Option<UdRef>)
    requires { p + 1 < length w.old }
    ensures { w.new ≡ put_ud_or p d w.old }
{
    write_handle(w, p, d.map(|r| (r.0, r.1)));
}

// Exponent all ones, and a mantissa that is not 0.
pub fn is_nan(bits: u64) -> bool
    ensures { result ≡ is_nan bits }
{
    9218868437227405312 < bits % 9223372036854775808
}

// Whether two numbers are one key: NaN equals nothing, and 0 equals -0.
pub fn same_number(a: u64, b: u64) -> bool
    ensures { result ≡ same_number a b }
{
    !is_nan(a) && (a == b || a % 9223372036854775808 == 0 && b % 9223372036854775808 == 0)
}

fn bits_of(v: Value) -> u64
    ensures { result ≡ bits_of v }
{
    base::joined(low_of(v), high_of(v))
}

// Two values of one kind: their payloads.
fn payload_equal(a: Value, b: Value) -> bool
    ensures { result ≡ payload_equal a b }
{
    low_of(a) == low_of(b) && high_of(a) == high_of(b)
}

pub fn is_nil(v: Value) -> bool
    ensures { result ≡ is_nil v }
{
    tag_of(v) == 0
}

// Whether two values are one key.
pub fn key_equal(a: Value, b: Value) -> bool
    ensures { result ≡ key_equal a b }
{
    let t = tag_of(a);
    if t != tag_of(b) {
        false
    } else if t == 3 {
        same_number(bits_of(a), bits_of(b))
    } else {
        payload_equal(a, b)
    }
}
