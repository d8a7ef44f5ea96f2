// Stacks of values, of the main record and of threads alike: a `Counted` says where one lies, so what a call may do with it, and
// what it refuses (5, 4, 2, in this order), is here once. So is a value that a call is given to store at a place.
#![tactic(auto)]

ghost use Rattle.std.specs.Prelude.{◌≡◌, ◌+◌, ◌≤◌, ◌<◌, length};
ghost use Rattle.layout.specs.Layout.{lay_of};
ghost use Rattle.stacks.specs.Places.{Holds, store_value};
ghost use Rattle.stacks.specs.Values.{push_value, pop_value, set_value, raised, set_height};

use base::Refusal;
use layout::Plan;
use value::Value;

// A counted part of the words: the place of its count, its first place, how many places it has, its count as it is read.
#[derive(Clone, Copy)]
pub struct Counted {
    pub word: usize,
    pub base: usize,
    pub room: usize,
    pub count: usize,
}

// A value stands in the three words from p on; 2 for one that names nothing.
pub fn store_value(w: &mut [u32], l: Plan, p: usize, v: Value) -> Result<(), Refusal>
    requires l_in_bounds { (lay_of l.sizes).words ≤ length w.old }
    requires p_in_bounds { p + 2 < length w.old }
    ensures { (result, w.new) ≡ store_value (lay_of l.sizes) p v w.old }
{
    if !given::is_sound(w, l, v) {
        return Err(Refusal::Stale);
    }
    value::write_value(w, p, v);
    Ok(())
}

// A value on top of a stack.
pub fn push_value(w: &mut [u32], l: Plan, s: Counted, v: Value) -> Result<(), Refusal>
    requires l_in_bounds { (lay_of l.sizes).words ≤ length w.old }
    requires holds { Holds s 3 (length w.old) }
    ensures { (result, w.new) ≡ push_value (lay_of l.sizes) s v w.old }
{
    if s.room <= s.count {
        return Err(Refusal::OutOfRange);
    }
    if !given::is_sound(w, l, v) {
        return Err(Refusal::Stale);
    }
    value::write_value(w, s.base + 3 * s.count, v);
    record::put_number(w, s.word, s.count + 1);
    Ok(())
}

// The top is one less; the value there is answered and stays.
pub fn pop_value(w: &mut [u32], s: Counted) -> Result<Value, Refusal>
    requires { Holds s 3 (length w.old) }
    ensures { (result, w.new) ≡ pop_value s w.old }
{
    if s.count == 0 {
        return Err(Refusal::WrongState);
    }
    let v = value::read_value(w, s.base + 3 * (s.count - 1));
    record::put_number(w, s.word, s.count - 1);
    Ok(v)
}

// Any place of a stack, also at or above the top.
pub fn set_value(w: &mut [u32], l: Plan, s: Counted, i: u32, v: Value) -> Result<(), Refusal>
    requires l_in_bounds { (lay_of l.sizes).words ≤ length w.old }
    requires holds { Holds s 3 (length w.old) }
    ensures { (result, w.new) ≡ set_value (lay_of l.sizes) s i v w.old }
{
    let k = base::wide(i);
    if s.room <= k {
        return Err(Refusal::OutOfRange);
    }
    store_value(w, l, s.base + 3 * k, v)
}

// The places from the top up to n become nil; none if n is not above it.
fn raise(w: &mut [u32], s: Counted, n: usize)
    requires holds { Holds s 3 (length w.old) }
    requires n_le_room { n ≤ s.room }
    ensures { w.new ≡ raised s n w.old }
{
    for i in s.count..n {
        value::write_value(w, s.base + 3 * i, Value::Nil);
    }
}

// The top of a stack is n.
pub fn set_height(w: &mut [u32], s: Counted, n: u32) -> Result<(), Refusal>
    requires { Holds s 3 (length w.old) }
    ensures { (result, w.new) ≡ set_height s n w.old }
{
    let top = base::wide(n);
    if s.room < top {
        return Err(Refusal::OutOfRange);
    }
    raise(w, s, top);
    record::put_number(w, s.word, top);
    Ok(())
}
