// Lists of values and handles that a call is given, and the constants of a prototype and of all nested ones: each names an
// occupied slot of its kind (document 01, row 2). Nothing is changed.
#![tactic(auto)]

ghost use Rattle.std.specs.Prelude.{◌≡◌, ◌+◌, ◌*◌, ◌≤◌, ◌<◌, length};
ghost use Rattle.layout.specs.Layout.{lay_of};
ghost use Rattle.sound.specs.Sound.{are_sound, are_upvalues, constants_sound, sound_proto, Known, Grown};

use layout::Plan;

// Whether each of n values in the words s, from p on, is sound.
pub fn are_sound(w: &[u32], l: Plan, s: &[u32], p: usize, n: usize) -> bool
    requires l_in_bounds { (lay_of l.sizes).words ≤ length w.now }
    requires n_in_bounds { p + 3 * n ≤ length s.now }
    ensures { result ≡ are_sound (lay_of l.sizes) s.now p n w.now }
{
    for k in 0..n {
        if !given::is_sound(w, l, value::read_value(s, p + 3 * k)) {
            return false;
        }
    }
    true
}

// Whether each of n handles in the words s names an upvalue.
pub fn are_upvalues(w: &[u32], l: Plan, s: &[u32], n: usize) -> bool
    requires l_in_bounds { (lay_of l.sizes).words ≤ length w.now }
    requires n_in_bounds { 2 * n ≤ length s.now }
    ensures { result ≡ are_upvalues (lay_of l.sizes) s.now n w.now }
{
    for k in 0..n {
        if !given::is_upvalue(w, l, record::read_upval(s, 2 * k)) {
            return false;
        }
    }
    true
}

// Whether the constants of prototype n are sound.
fn constants_sound(w: &[u32], l: Plan, n: usize) -> bool
    requires l_in_bounds { (lay_of l.sizes).words ≤ length w.now }
    requires n_bound { n < (lay_of l.sizes).protos.room }
    ensures { result ≡ constants_sound (lay_of l.sizes) w.now n }
{
    let k = main_record::prototypes::proto_constants(w, l, n);
    are_sound(w, l, w, layout::protos_at(l) + 59 * n + 3, k)
}

// Whether the constants of prototype n and of all nested in it are. `seen` has a 1 for each number that was looked at: so words
// in which each nests the next one eight times take no longer than others. A nested number not below its parent's is skipped.
fn sound_proto(w: &[u32], l: Plan, seen: &mut [u8], n: usize) -> bool
    requires l_in_bounds { (lay_of l.sizes).words ≤ length w.now }
    requires n_bound { (n < (lay_of l.sizes).protos.room) × ((lay_of l.sizes).protos.room ≤ length seen.old) }
    requires known { Known (lay_of l.sizes) w.now seen.old n }
    ensures { (result ≡ sound_proto (lay_of l.sizes) w.now n) × Grown (lay_of l.sizes) w.now result seen.old seen.new }
{
    if 0 < seen[n] {
        return true;
    }
    seen[n] = 1;
    if !constants_sound(w, l, n) {
        return false;
    }
    let m = main_record::prototypes::proto_nested(w, l, n);
    for j in 0..m {
        let q = main_record::prototypes::proto_child(w, l, n, j);
        if q < n {
            if !sound_proto(w, l, seen, q) {
                return false;
            }
        }
    }
    true
}

// The same, with none looked at before.
pub fn is_proto_sound(w: &[u32], l: Plan, n: usize) -> bool
    requires l_in_bounds { (lay_of l.sizes).words ≤ length w.now }
    requires n_bound { n < (lay_of l.sizes).protos.room }
    ensures { result ≡ sound_proto (lay_of l.sizes) w.now n }
{
    let mut seen = [0u8; 256];
    sound_proto(w, l, &mut seen, n)
}
