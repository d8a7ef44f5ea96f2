// The reads asked by number, for Rust or C: which question a number asks, in the order in which the question's enum has its
// variants. A number that asks nothing is refused with 4, after 1 and 8.
#![tactic(auto)]

pub mod header;
pub mod objects;

ghost use Rattle.base.specs.Heap.{heap};
ghost use Rattle.asked.specs.Asked.{Asked};

use base::Refusal;
use reads::Read;

// A question is read; no question is refused.
fn ask<Q, F: FnOnce(Q) -> Result<Read, Refusal>>(
    w: &[u32],
    b: &[u8],
    q: Option<Q>,
    read: F,
) -> Result<Read, Refusal>
    requires { (x : Q) → F.pre read x }
    ensures { Asked (F.post read) q (heap w.now b.now) result }
{
    match q {
        Some(x) => read(x),
        None => codes::no_question(w, b),
    }
}
