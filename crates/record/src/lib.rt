// The records of strings, tables and userdata (document 01, 'Sizes' and 'Followed links'): one function for each field, to
// read it and to write it, a module for each kind. A record is addressed by the place p of its body. All contents are taken
// as they are: a size or count outside its range reads as 0, so no call pays for records that it does not touch.
// Here stands what all kinds share: the place of a body, and a word, a count, a flag or an upvalue's handle at a place.
#![tactic(auto)]

use arena::Arena;
use value::UpvalRef;

pub mod strings;
pub mod tables;
pub mod userdata;

ghost use Rattle.std.specs.Prelude.{◌≡◌, ◌+◌, ◌*◌, ◌^◌, ◌≤◌, ◌<◌, min, eqb, ltb, length};
ghost use Rattle.base.specs.Words.{at, put, bounded};
ghost use Rattle.arena.specs.Slots.{Room};
ghost use Rattle.record.specs.Fields.{body_at, upval_at, put_upval, put_flag};

// The place of slot i's body.
pub fn body_of(w: &[u32], a: Arena, i: usize) -> usize
    requires room { Room a w.now }
    requires i_lt_slots { i < a.slots }
    ensures { (result ≡ body_at a i) × (result + a.stride ≤ length w.now) }
{
    a.bodies + i * a.stride
}

// The word at p as a number.
pub fn number_at(w: &[u32], p: usize) -> usize
    requires { p < length w.now }
    ensures { (result ≡ at w.now p) × (result < 2 ^ 32) }
{
    base::wide(w[p])
}

pub fn put_number(w: &mut [u32], p: usize, n: usize)
    requires p_in_bounds { p < length w.old }
    requires n_bound { n < 2 ^ 32 }
    ensures { w.new ≡ put p n w.old }
{
    base::put(w, p, n as u32);
}

// The size or count at p: one past its range reads as 0.
pub fn count_at(w: &[u32], p: usize, most: usize) -> usize
    requires { p < length w.now }
    ensures { (result ≡ bounded (at w.now p) most) × (result ≤ most) }
{
    base::within(base::get(w, p), most)
}

pub fn least(x: usize, y: usize) -> usize
    ensures { result ≡ min x y }
{
    x.min(y)
}

// Whether 1 stands at p.
pub fn is_one(w: &[u32], p: usize) -> bool
    requires { p < length w.now }
    ensures { result ≡ eqb (at w.now p) 1 }
{
    w[p] == 1
}

// Whether p has any number but 0.
pub fn is_set(w: &[u32], p: usize) -> bool
    requires { p < length w.now }
    ensures { result ≡ ltb 0 (at w.now p) }
{
    0 < w[p]
}

// 1 for yes, 0 for no.
pub fn put_flag(w: &mut [u32], p: usize, b: bool)
    requires { p < length w.old }
    ensures { w.new ≡ put_flag p b w.old }
{
    base::put(w, p, value::word_of(b));
}

// An upvalue's handle in words p and p + 1: index and generation.
pub fn read_upval(w: &[u32], p: usize) -> UpvalRef
    requires { p + 1 < length w.now }
    ensures { result ≡ upval_at w.now p }
{
    UpvalRef(base::get(w, p), base::get(w, p + 1))
}

pub fn write_upval(w: &mut [u32], p: usize, u: UpvalRef)
    requires { p + 1 < length w.old }
    ensures { w.new ≡ put_upval p u w.old }
{
    base::put(w, p, u.0);
    base::put(w, p + 1, u.1);
}
