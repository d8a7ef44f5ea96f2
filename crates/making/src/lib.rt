// What all calls that make an object share (document 01, 'Refusal numbers', rows 6 and 3, and the damage rule): the tracked
// total would pass 2^31 - 1, every slot is occupied, a head or fresh index names no free slot; else a slot in the current
// white, a record of zeroed words, and the total with it.
#![tactic(auto)]

ghost use Rattle.std.specs.Prelude.{◌≡◌, ◌+◌, ◌*◌, ◌≤◌, ◌<◌, length};
ghost use Rattle.arena.specs.Slots.{Room};
ghost use Rattle.record.specs.Fields.{body_at};
ghost use Rattle.making.specs.Making.{begun, new_object, Placed, put_values};

use arena::{Arena, Untaken};
use base::Refusal;
use value::{FuncRef, StrRef, TableRef, ThreadRef, UdRef, UpvalRef};

// What a call that makes something answers: a handle of the kind made, a prototype's number, or a refusal.
#[derive(Clone, Copy)]
pub enum Made {
    Str(StrRef),
    Table(TableRef),
    Function(FuncRef),
    Upvalue(UpvalRef),
    Userdata(UdRef),
    Thread(ThreadRef),
    Proto(u32),
}

// Sizes in the total.
pub const STRING: u32 = 48;

pub const TABLE: u32 = 64;

pub const CLOSURE: u32 = 48;

pub const UPVALUE: u32 = 24;

pub const USERDATA: u32 = 48;

pub const THREAD: u32 = 256;

// Slot i has a record of n zeroed words, and its size is in the total. The place of its body.
fn begin(w: &mut [u32], a: Arena, i: usize, size: u32, n: usize) -> usize
    requires room { Room a w.old }
    requires in_bounds { (91 ≤ length w.old) × (i < a.slots) × (n ≤ a.stride) }
    ensures { (w.new ≡ begun a size n i w.old) × (result ≡ body_at a i) × (result + a.stride ≤ length w.old) }
{
    let p = record::body_of(w, a, i);
    base::clear_words(w, p, n);
    counters::track(w, size);
    p
}

// A new object with a record of n words, of this size in the total. 6 and 3 change nothing; damage is marked, and is 8.
pub fn new_object(
    w: &mut [u32],
    a: Arena,
    size: u32,
    n: usize,
) -> Result<(u32, u32, usize), Refusal>
    requires room { Room a w.old }
    requires in_bounds { (91 ≤ length w.old) × (n ≤ a.stride) × (n ≤ 580) }
    ensures { ((result, w.new) ≡ new_object a size n w.old) × Placed result a (length w.old) }
{
    if counters::would_pass(counters::counters_of(w), size) {
        return Err(Refusal::TooLarge);
    }
    let white = base::get(w, layout::WHITE);
    match arena::take_slot(w, a, white, n as u32) {
        Ok((i, g)) => Ok((i as u32, g, begin(w, a, i, size, n))),
        Err(Untaken::NoneFree) => Err(Refusal::Full),
        Err(Untaken::Broken) => {
            base::put(w, layout::DAMAGE, 1);
            Err(Refusal::Damaged)
        }
    }
}

// The n values that the words s hold stand from p on.
pub fn put_values(w: &mut [u32], p: usize, s: &[u32], n: usize)
    requires { (p + 3 * n ≤ length w.old) × (3 * n ≤ length s.now) }
    ensures { w.new ≡ put_values p s.now n w.old }
{
    for k in 0..n {
        value::write_value(w, p + 3 * k, value::read_value(s, 3 * k));
    }
}
