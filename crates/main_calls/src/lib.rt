// The calls that change the main open list, the error value and the hook function (document 01, module 5). Each gives 1 and 8
// first, then 4 and 2 as they apply, and changes nothing where it refuses.
#![tactic(auto)]

ghost use Rattle.std.specs.Prelude.{◌≡◌};
ghost use Rattle.base.specs.Heap.{heap};
ghost use Rattle.main_calls.specs.MainCalls.{open_push, open_cut, set_error, set_hook};

use base::Refusal;
use value::{UpvalRef, Value};

// An upvalue at the end of the open list: 4 for a full one, 2 for a handle that names nothing.
pub fn open_push(w: &mut [u32], b: &[u8], u: UpvalRef) -> Result<(), Refusal>
    ensures { (result, heap w.new b.now) ≡ open_push u (heap w.old b.now) }
{
    let l = test1::enter(w, b)?;
    let s = owners::main_opens(w, l);
    upvalue_lists::push_upvalue(w, l, s, u)
}

// The first n open upvalues stay; 4 for more than there are.
pub fn open_cut(w: &mut [u32], b: &[u8], n: u32) -> Result<(), Refusal>
    ensures { (result, heap w.new b.now) ≡ open_cut n (heap w.old b.now) }
{
    let l = test1::enter(w, b)?;
    let s = owners::main_opens(w, l);
    upvalue_lists::cut_upvalues(w, s, n)
}

// The error value; 2 for a value that names nothing.
pub fn set_error(w: &mut [u32], b: &[u8], v: Value) -> Result<(), Refusal>
    ensures { (result, heap w.new b.now) ≡ set_error v (heap w.old b.now) }
{
    let l = test1::enter(w, b)?;
    stacks::store_value(w, l, layout::ERROR, v)
}

// The hook function; 2 for a value that names nothing.
pub fn set_hook(w: &mut [u32], b: &[u8], v: Value) -> Result<(), Refusal>
    ensures { (result, heap w.new b.now) ≡ set_hook v (heap w.old b.now) }
{
    let l = test1::enter(w, b)?;
    stacks::store_value(w, l, layout::HOOK, v)
}
