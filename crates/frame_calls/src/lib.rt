// The calls that change the frames (document 01, module 5). Each gives 1 and 8 first, then 4, and changes nothing where it
// refuses.
#![tactic(auto)]

ghost use Rattle.std.specs.Prelude.{◌≡◌, ◌≤◌, length};
ghost use Rattle.layout.specs.Layout.{lay_of};
ghost use Rattle.base.specs.Heap.{heap};
ghost use Rattle.frame_calls.specs.FrameCalls.{set_frame_in, set_frame, set_ci_in, set_ci};

use base::Refusal;
use layout::Plan;

fn set_frame_in(w: &mut [u32], l: Plan, i: u32, n: u32) -> Result<(), Refusal>
    requires l_in_bounds { (lay_of l.sizes).words ≤ length w.old }
    ensures { (result, w.new) ≡ set_frame_in i n (lay_of l.sizes) w.old }
{
    let k = base::wide(i);
    let f = base::wide(n);
    if l.sizes.frames <= k {
        return Err(Refusal::OutOfRange);
    }
    if 256 < f {
        return Err(Refusal::OutOfRange);
    }
    main_record::set_frame_function(w, l, k, f);
    Ok(())
}

// The function index of frame i is n: 4 past the last frame or past 256.
pub fn set_frame(w: &mut [u32], b: &[u8], i: u32, n: u32) -> Result<(), Refusal>
    ensures { (result, heap w.new b.now) ≡ set_frame i n (heap w.old b.now) }
{
    let l = test1::enter(w, b)?;
    set_frame_in(w, l, i, n)
}

fn set_ci_in(w: &mut [u32], l: Plan, i: u32) -> Result<(), Refusal>
    requires l_in_bounds { (lay_of l.sizes).words ≤ length w.old }
    ensures { (result, w.new) ≡ set_ci_in i (lay_of l.sizes) w.old }
{
    let k = base::wide(i);
    if l.sizes.frames <= k {
        return Err(Refusal::OutOfRange);
    }
    main_record::set_main_ci(w, k);
    Ok(())
}

// The current frame is i; 4 past the last frame.
pub fn set_ci(w: &mut [u32], b: &[u8], i: u32) -> Result<(), Refusal>
    ensures { (result, heap w.new b.now) ≡ set_ci i (heap w.old b.now) }
{
    let l = test1::enter(w, b)?;
    set_ci_in(w, l, i)
}
