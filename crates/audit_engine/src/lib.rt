// The audit for Rust or C to link: an exported function on slices only. The answer is a code, 0 or the number of a refusal, and
// one word lent for the rest: 1 for yes, 0 for no.
#![tactic(auto)]

ghost use Rattle.std.specs.Prelude.{◌≡◌, ◌≤◌, ◌<◌, length};
ghost use Rattle.base.specs.Heap.{heap};
ghost use Rattle.audit_engine.specs.Exports.{told, on_audit};

use base::Refusal;

// An answer in a word; the number of a refusal leaves it as it is.
fn tell(out: &mut [u32], a: Result<bool, Refusal>) -> u32
    requires { 1 ≤ length out.old }
    ensures { (result, out.new) ≡ told a out.old }
{
    match a {
        Ok(true) => {
            base::put(out, 0, 1);
            0
        }
        Ok(false) => {
            base::put(out, 0, 0);
            0
        }
        Err(n) => n.number(),
    }
}

// The audit.
#[unsafe(no_mangle)]
pub extern "C" fn sieddesan_audit(w: &[u32], b: &[u8], out: &mut [u32]) -> u32
    ensures { (result, out.new) ≡ on_audit (heap w.now b.now) out.old }
{
    if out.len() < 1 {
        return 1;
    }
    let a = audit::audit(w, b);
    tell(out, a)
}
