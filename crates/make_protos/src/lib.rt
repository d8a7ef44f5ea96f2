// The call that makes a prototype (document 01, 'Sizes' and 'Refusal numbers'): it is made in one call and never changed. It
// gives 1 and 8 first, then 4, 2 and 3, and changes nothing that way.
#![tactic(auto)]

ghost use Rattle.std.specs.Prelude.{◌≡◌, ◌*◌, ◌/◌, ◌≤◌, ◌<◌, length};
ghost use Rattle.layout.specs.Layout.{lay_of};
ghost use Rattle.base.specs.Heap.{heap};
ghost use Rattle.make_protos.specs.Making.{lengths_fit, is_first, can_nest, are_nestable, Below, nest_one, put_nested, put_proto, proto_in, make_proto};

use base::Refusal;
use layout::Plan;
use making::Made;

// Constants of three words each, up to 16, and nested numbers, up to 8.
fn lengths_fit(constants: &[u32], nested: &[u32]) -> bool
    ensures { result ≡ lengths_fit (length constants.now) (length nested.now) }
{
    constants.len() % 3 == 0 && constants.len() <= 48 && nested.len() <= 8
}

// Whether the k-th number of s is none of those before it.
fn is_first(s: &[u32], k: usize) -> bool
    requires { k < length s.now }
    ensures { result ≡ is_first s.now k }
{
    for j in 0..k {
        if s[j] == s[k] {
            return false;
        }
    }
    true
}

// Whether the k-th number of s is that of a prototype made, with no parent, and named once.
fn can_nest(w: &[u32], l: Plan, s: &[u32], k: usize) -> bool
    requires l_in_bounds { (lay_of l.sizes).words ≤ length w.now }
    requires k_in_bounds { k < length s.now }
    ensures { result ≡ can_nest (lay_of l.sizes) w.now s.now k }
{
    let n = base::wide(base::get(s, k));
    if main_record::prototypes::protos_used(w, l) <= n {
        return false;
    }
    if 0 < main_record::prototypes::proto_parent(w, l, n) {
        return false;
    }
    is_first(s, k)
}

fn are_nestable(w: &[u32], l: Plan, s: &[u32]) -> bool
    requires l_in_bounds { (lay_of l.sizes).words ≤ length w.now }
    ensures { result ≡ are_nestable (lay_of l.sizes) w.now s.now }
{
    let n = s.len();
    for k in 0..n {
        if !can_nest(w, l, s, k) {
            return false;
        }
    }
    true
}

// The k-th number of s is nested in n, which is its parent.
fn nest_one(w: &mut [u32], l: Plan, n: usize, s: &[u32], k: usize)
    requires l_in_bounds { (lay_of l.sizes).words ≤ length w.old }
    requires n_bound { (n < (lay_of l.sizes).protos.room) × (k < 8) × (k < length s.now) }
    requires below { Below (lay_of l.sizes).protos.room s.now }
    ensures { w.new ≡ nest_one (lay_of l.sizes) n s.now k w.old }
{
    let q = base::wide(base::get(s, k));
    main_record::prototypes::set_proto_child(w, l, n, k, q);
    main_record::prototypes::set_proto_parent(w, l, q, n + 1);
}

fn put_nested(w: &mut [u32], l: Plan, n: usize, s: &[u32])
    requires l_in_bounds { (lay_of l.sizes).words ≤ length w.old }
    requires n_bound { (n < (lay_of l.sizes).protos.room) × (length s.now ≤ 8) }
    requires below { Below (lay_of l.sizes).protos.room s.now }
    ensures { w.new ≡ put_nested (lay_of l.sizes) n s.now w.old }
{
    let m = s.len();
    for k in 0..m {
        nest_one(w, l, n, s, k);
    }
}

// Prototype n, with every word of its record, is written, and n + 1 numbers are used.
fn put_proto(w: &mut [u32], l: Plan, n: usize, constants: &[u32], nested: &[u32])
    requires l_in_bounds { (lay_of l.sizes).words ≤ length w.old }
    requires n_bound { (n < (lay_of l.sizes).protos.room) × (length constants.now ≤ 48) × (length nested.now ≤ 8) }
    requires below { Below (lay_of l.sizes).protos.room nested.now }
    ensures { w.new ≡ put_proto (lay_of l.sizes) n constants.now nested.now w.old }
{
    let p = layout::protos_at(l) + 59 * n;
    let k = constants.len() / 3;
    base::clear_words(w, p, layout::PROTO_WORDS);
    main_record::prototypes::set_proto_counts(w, l, n, k, nested.len());
    making::put_values(w, p + 3, constants, k);
    put_nested(w, l, n, nested);
    main_record::prototypes::set_protos_used(w, n + 1);
}

fn proto_in(w: &mut [u32], l: Plan, constants: &[u32], nested: &[u32]) -> Result<Made, Refusal>
    requires l_in_bounds { (lay_of l.sizes).words ≤ length w.old }
    ensures { (result, w.new) ≡ proto_in constants.now nested.now (lay_of l.sizes) w.old }
{
    if !lengths_fit(constants, nested) {
        return Err(Refusal::OutOfRange);
    }
    if !are_nestable(w, l, nested) {
        return Err(Refusal::OutOfRange);
    }
    if !sound::are_sound(w, l, constants, 0, constants.len() / 3) {
        return Err(Refusal::Stale);
    }
    let n = main_record::prototypes::protos_used(w, l);
    if l.sizes.protos <= n {
        return Err(Refusal::Full);
    }
    put_proto(w, l, n, constants, nested);
    Ok(Made::Proto(n as u32))
}

// A prototype with these constants, three words each, and these prototypes nested in it, whose parent it is. Its number.
pub fn make_proto(
    w: &mut [u32],
    b: &[u8],
    constants: &[u32],
    nested: &[u32],
) -> Result<Made, Refusal>
    ensures { (result, heap w.new b.now) ≡ make_proto constants.now nested.now (heap w.old b.now) }
{
    let l = test1::enter(w, b)?;
    proto_in(w, l, constants, nested)
}
