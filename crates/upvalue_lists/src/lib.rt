// Lists of upvalues' handles, two words for each place, of the main record and of threads alike: a `Counted` says where one lies.
#![tactic(auto)]

ghost use Rattle.std.specs.Prelude.{◌≡◌, ◌≤◌, length};
ghost use Rattle.layout.specs.Layout.{lay_of};
ghost use Rattle.stacks.specs.Places.{Holds};
ghost use Rattle.upvalue_lists.specs.Lists.{push_upvalue, cut_upvalues};

use base::Refusal;
use layout::Plan;
use stacks::Counted;
use value::UpvalRef;

// An upvalue at the end of a list.
pub fn push_upvalue(w: &mut [u32], l: Plan, s: Counted, u: UpvalRef) -> Result<(), Refusal>
    requires l_in_bounds { (lay_of l.sizes).words ≤ length w.old }
    requires holds { Holds s 2 (length w.old) }
    ensures { (result, w.new) ≡ push_upvalue (lay_of l.sizes) s u w.old }
{
    if s.room <= s.count {
        return Err(Refusal::OutOfRange);
    }
    if !given::is_upvalue(w, l, u) {
        return Err(Refusal::Stale);
    }
    record::write_upval(w, s.base + 2 * s.count, u);
    record::put_number(w, s.word, s.count + 1);
    Ok(())
}

// The first n upvalues of a list stay; the words of the others become 0.
pub fn cut_upvalues(w: &mut [u32], s: Counted, n: u32) -> Result<(), Refusal>
    requires { Holds s 2 (length w.old) }
    ensures { (result, w.new) ≡ cut_upvalues s n w.old }
{
    let k = base::wide(n);
    if s.count < k {
        return Err(Refusal::OutOfRange);
    }
    base::clear_words(w, s.base + 2 * k, 2 * (s.count - k));
    record::put_number(w, s.word, k);
    Ok(())
}
