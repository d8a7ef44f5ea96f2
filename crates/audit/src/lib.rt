// The audit (document 01, at the end of 'Steps and pacing'): a heap between collections, looked over. It gives 1 and 8 first,
// says yes or no, and changes nothing.
#![tactic(auto)]

ghost use Rattle.std.specs.Prelude.{◌≡◌, ◌≤◌, ◌<◌, length};
ghost use Rattle.layout.specs.Layout.{lay_of};
ghost use Rattle.base.specs.Heap.{heap};
ghost use Rattle.audit.specs.Audit.{is_within, lists_within, chains_hold, audit_of, said, audit};

use base::Refusal;
use layout::{List, Plan};

// Whether a list is within its room.
fn is_within(w: &[u32], b: List) -> bool
    requires { b.count < length w.now }
    ensures { result ≡ is_within b w.now }
{
    let p = b.count;
    let room = b.room;
    base::wide(w[p]) <= room
}

fn lists_within(w: &[u32], l: Plan) -> bool
    requires l_in_bounds { (lay_of l.sizes).words ≤ length w.now }
    ensures { result ≡ lists_within (lay_of l.sizes) w.now }
{
    is_within(w, layout::gray_of(l))
        & is_within(w, layout::grayagain_of(l))
        & is_within(w, layout::weak_of(l))
        & is_within(w, layout::queue_of(l))
}

fn chains_hold(w: &[u32], l: Plan) -> bool
    requires l_in_bounds { (lay_of l.sizes).words ≤ length w.now }
    ensures { result ≡ chains_hold (lay_of l.sizes) w.now }
{
    chains::chain_holds(w, layout::strings_of(l))
        & chains::chain_holds(w, layout::tables_of(l))
        & chains::chain_holds(w, layout::functions_of(l))
        & chains::chain_holds(w, layout::upvalues_of(l))
        & chains::chain_holds(w, layout::userdata_of(l))
        & chains::chain_holds(w, layout::threads_of(l))
}

// The four questions, in the document's order.
fn passes(w: &[u32], l: Plan) -> bool
    requires l_in_bounds { (lay_of l.sizes).words ≤ length w.now }
    ensures { result ≡ audit_of (lay_of l.sizes) w.now }
{
    if w[layout::PHASE] != 0 {
        return false;
    }
    if !lists_within(w, l) {
        return false;
    }
    if !chains_hold(w, l) {
        return false;
    }
    held::all_name(w, l)
}

fn say(b: bool) -> Result<bool, Refusal>
    ensures { result ≡ said b }
{
    Ok(b)
}

// Whether the phase is Pause, each list is within its room, each chain holds every free slot below its arena's fresh index
// once, and every handle in an occupied record names an occupied slot.
pub fn audit(w: &[u32], b: &[u8]) -> Result<bool, Refusal>
    ensures { result ≡ audit (heap w.now b.now) }
{
    let l = test1::enter(w, b)?;
    say(passes(w, l))
}
