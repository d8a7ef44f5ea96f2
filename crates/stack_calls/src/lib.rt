// The calls that change the main stack (document 01, module 5). Each gives 1 and 8 first, then 5, 4 and 2 as they apply, and
// changes nothing where it refuses.
#![tactic(auto)]

ghost use Rattle.std.specs.Prelude.{◌≡◌};
ghost use Rattle.base.specs.Heap.{heap};
ghost use Rattle.stack_calls.specs.StackCalls.{push, pop, stack_set, set_top};

use base::Refusal;
use value::Value;

// A value on top of the main stack: 4 for a full one, 2 for a value that names nothing.
pub fn push(w: &mut [u32], b: &[u8], v: Value) -> Result<(), Refusal>
    ensures { (result, heap w.new b.now) ≡ push v (heap w.old b.now) }
{
    let l = test1::enter(w, b)?;
    let s = owners::main_stack(w, l);
    stacks::push_value(w, l, s, v)
}

// The value on top, which stays where it is; 5 for an empty stack.
pub fn pop(w: &mut [u32], b: &[u8]) -> Result<Value, Refusal>
    ensures { (result, heap w.new b.now) ≡ pop (heap w.old b.now) }
{
    let l = test1::enter(w, b)?;
    let s = owners::main_stack(w, l);
    stacks::pop_value(w, s)
}

// A value in place i, also at or above the top: 4 past the stack's size, 2 for a value that names nothing.
pub fn stack_set(w: &mut [u32], b: &[u8], i: u32, v: Value) -> Result<(), Refusal>
    ensures { (result, heap w.new b.now) ≡ stack_set i v (heap w.old b.now) }
{
    let l = test1::enter(w, b)?;
    let s = owners::main_stack(w, l);
    stacks::set_value(w, l, s, i, v)
}

// The top is n, and places newly below it are nil; 4 past the stack's size.
pub fn set_top(w: &mut [u32], b: &[u8], n: u32) -> Result<(), Refusal>
    ensures { (result, heap w.new b.now) ≡ set_top n (heap w.old b.now) }
{
    let l = test1::enter(w, b)?;
    let s = owners::main_stack(w, l);
    stacks::set_height(w, s, n)
}
