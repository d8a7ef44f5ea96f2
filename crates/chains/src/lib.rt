// The chain of free slots of one arena, looked over (document 01, the audit): it holds every free slot below the fresh index
// once. The cost is linear in the slots.
#![tactic(auto)]

ghost use Rattle.std.specs.Prelude.{◌≡◌};
ghost use Rattle.arena.specs.Slots.{Room};
ghost use Rattle.chains.specs.Chains.{free_count, names_free, chain_holds};

use arena::Arena;
use base::wide;

// How many slots below the fresh index are free.
fn free_count(w: &[u32], a: Arena) -> usize
    requires { Room a w.now }
    ensures { result ≡ free_count a w.now }
{
    arena::used_of(w, a) - arena::occupied_of(w, a)
}

// Whether the stored word x, a slot's index + 1 and 0 for none, names a free slot below the fresh index.
fn names_free(w: &[u32], a: Arena, x: u32) -> bool
    requires { Room a w.now }
    ensures { result ≡ names_free a w.now x }
{
    if x == 0 {
        return false;
    }
    let i = wide(x) - 1;
    if arena::used_of(w, a) <= i {
        return false;
    }
    arena::colour_of(w, a, i) == 0
}

// Whether the chain holds every free slot below the fresh index once: as many steps as there are such slots, each to one of
// them, and then its end.
pub fn chain_holds(w: &[u32], a: Arena) -> bool
    requires { Room a w.now }
    ensures { result ≡ chain_holds a w.now }
{
    let n = free_count(w, a);
    let mut x = arena::head_of(w, a);
    for k in 0..n {
        if !names_free(w, a, x) {
            return false;
        }
        x = arena::link_of(w, a, wide(x) - 1);
    }
    x == 0
}
