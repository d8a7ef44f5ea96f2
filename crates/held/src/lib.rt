// The handles in the records of occupied slots (document 01, the audit): each names an occupied slot. One function for each
// kind says which handles its record holds; whether one names a slot is asked in one place, `given::is_named`. Nothing is
// changed, and each slot is looked at once.
#![tactic(auto)]

ghost use Rattle.std.specs.Prelude.{◌≡◌, ◌+◌, ◌*◌, ◌≤◌, ◌<◌, length};
ghost use Rattle.layout.specs.Layout.{lay_of};
ghost use Rattle.reads.specs.Objects.{arena_of, words_of};
ghost use Rattle.held.specs.Held.{upvalues_name, node_names, nodes_name, table_names, closure_names, upvalue_names, userdata_names, fields_name, lists_name, thread_names, record_names, slot_names, slots_name, all_name};

use layout::Plan;
use reads::Kind;

// Whether each of n handles from q on names an upvalue.
fn upvalues_name(w: &[u32], l: Plan, q: usize, n: usize) -> bool
    requires l_in_bounds { (lay_of l.sizes).words ≤ length w.now }
    requires n_in_bounds { q + 2 * n ≤ length w.now }
    ensures { result ≡ upvalues_name (lay_of l.sizes) w.now q n }
{
    for k in 0..n {
        if !given::is_upvalue(w, l, record::read_upval(w, q + 2 * k)) {
            return false;
        }
    }
    true
}

// The key and the value of node j.
fn node_names(w: &[u32], l: Plan, p: usize, j: usize) -> bool
    requires l_in_bounds { (lay_of l.sizes).words ≤ length w.now }
    requires p_in_bounds { (p + 580 ≤ length w.now) × (j < 64) }
    ensures { result ≡ node_names (lay_of l.sizes) w.now p j }
{
    let key = record::tables::node_key(w, p, j);
    let value = record::tables::node_value(w, p, j);
    if !given::is_sound(w, l, key) {
        return false;
    }
    given::is_sound(w, l, value)
}

fn nodes_name(w: &[u32], l: Plan, p: usize) -> bool
    requires l_in_bounds { (lay_of l.sizes).words ≤ length w.now }
    requires p_in_bounds { p + 580 ≤ length w.now }
    ensures { result ≡ nodes_name (lay_of l.sizes) w.now p }
{
    let n = record::tables::node_count(w, p);
    for j in 0..n {
        if !node_names(w, l, p, j) {
            return false;
        }
    }
    true
}

fn table_names(w: &[u32], l: Plan, p: usize) -> bool
    requires l_in_bounds { (lay_of l.sizes).words ≤ length w.now }
    requires p_in_bounds { p + 580 ≤ length w.now }
    ensures { result ≡ table_names (lay_of l.sizes) w.now p }
{
    if !given::is_table_or(w, l, record::tables::table_meta(w, p)) {
        return false;
    }
    if !sound::are_sound(w, l, w, p + 4, record::tables::array_size(w, p)) {
        return false;
    }
    nodes_name(w, l, p)
}

fn closure_names(w: &[u32], l: Plan, p: usize) -> bool
    requires l_in_bounds { (lay_of l.sizes).words ≤ length w.now }
    requires p_in_bounds { p + 53 ≤ length w.now }
    ensures { result ≡ closure_names (lay_of l.sizes) w.now p }
{
    if !given::is_table_or(w, l, run_record::closures::closure_env(w, p)) {
        return false;
    }
    let n = run_record::closures::closure_count(w, p);
    if run_record::closures::is_rust(w, p) {
        return sound::are_sound(w, l, w, p + 5, n);
    }
    upvalues_name(w, l, p + 5, n)
}

fn upvalue_names(w: &[u32], l: Plan, p: usize) -> bool
    requires l_in_bounds { (lay_of l.sizes).words ≤ length w.now }
    requires p_in_bounds { p + 4 ≤ length w.now }
    ensures { result ≡ upvalue_names (lay_of l.sizes) w.now p }
{
    if run_record::upvalues::is_closed(w, p) {
        return given::is_sound(w, l, run_record::upvalues::upvalue_value(w, p));
    }
    true
}

fn userdata_names(w: &[u32], l: Plan, p: usize) -> bool
    requires l_in_bounds { (lay_of l.sizes).words ≤ length w.now }
    requires p_in_bounds { p + 7 ≤ length w.now }
    ensures { result ≡ userdata_names (lay_of l.sizes) w.now p }
{
    if !given::is_table_or(w, l, record::userdata::ud_meta(w, p)) {
        return false;
    }
    given::is_table_or(w, l, record::userdata::ud_env(w, p))
}

// The global, the hook function and the error value of a thread.
fn fields_name(w: &[u32], l: Plan, p: usize) -> bool
    requires l_in_bounds { (lay_of l.sizes).words ≤ length w.now }
    requires p_in_bounds { p + 268 ≤ length w.now }
    ensures { result ≡ fields_name (lay_of l.sizes) w.now p }
{
    if !given::is_table_or(w, l, run_record::threads::thread_global(w, p)) {
        return false;
    }
    if !given::is_sound(w, l, run_record::threads::thread_hook(w, p)) {
        return false;
    }
    given::is_sound(w, l, run_record::threads::thread_error(w, p))
}

// Its open and its suspended upvalues.
fn lists_name(w: &[u32], l: Plan, p: usize) -> bool
    requires l_in_bounds { (lay_of l.sizes).words ≤ length w.now }
    requires p_in_bounds { p + 268 ≤ length w.now }
    ensures { result ≡ lists_name (lay_of l.sizes) w.now p }
{
    let n = run_record::threads::thread_open_count(w, p);
    let m = run_record::threads::thread_suspended_count(w, p);
    if !upvalues_name(w, l, p + 12, n) {
        return false;
    }
    upvalues_name(w, l, p + 44, m)
}

fn thread_names(w: &[u32], l: Plan, p: usize) -> bool
    requires l_in_bounds { (lay_of l.sizes).words ≤ length w.now }
    requires p_in_bounds { p + 268 ≤ length w.now }
    ensures { result ≡ thread_names (lay_of l.sizes) w.now p }
{
    if !fields_name(w, l, p) {
        return false;
    }
    if !sound::are_sound(w, l, w, p + 76, run_record::threads::thread_size(w, p)) {
        return false;
    }
    lists_name(w, l, p)
}

// Whether every handle in the record at p, of kind k, names an occupied slot.
fn record_names(w: &[u32], l: Plan, k: Kind, p: usize) -> bool
    requires l_in_bounds { (lay_of l.sizes).words ≤ length w.now }
    requires k_in_bounds { p + words_of k ≤ length w.now }
    ensures { result ≡ record_names (lay_of l.sizes) w.now k p }
{
    match k {
        Kind::Strings => true,
        Kind::Tables => table_names(w, l, p),
        Kind::Functions => closure_names(w, l, p),
        Kind::Upvalues => upvalue_names(w, l, p),
        Kind::Userdata => userdata_names(w, l, p),
        Kind::Threads => thread_names(w, l, p),
    }
}

// A free slot has no record.
fn slot_names(w: &[u32], l: Plan, k: Kind, i: usize) -> bool
    requires l_in_bounds { (lay_of l.sizes).words ≤ length w.now }
    requires i_bound { i < (arena_of (lay_of l.sizes) k).slots }
    ensures { result ≡ slot_names (lay_of l.sizes) w.now k i }
{
    let a = reads::arena_of(l, k);
    if arena::colour_of(w, a, i) == 0 {
        return true;
    }
    record_names(w, l, k, record::body_of(w, a, i))
}

fn slots_name(w: &[u32], l: Plan, k: Kind) -> bool
    requires l_in_bounds { (lay_of l.sizes).words ≤ length w.now }
    ensures { result ≡ slots_name (lay_of l.sizes) w.now k }
{
    let n = arena::used_of(w, reads::arena_of(l, k));
    for i in 0..n {
        if !slot_names(w, l, k, i) {
            return false;
        }
    }
    true
}

// Whether every handle in an occupied record names an occupied slot. Strings hold none.
pub fn all_name(w: &[u32], l: Plan) -> bool
    requires l_in_bounds { (lay_of l.sizes).words ≤ length w.now }
    ensures { result ≡ all_name (lay_of l.sizes) w.now }
{
    if !slots_name(w, l, Kind::Tables) {
        return false;
    }
    if !slots_name(w, l, Kind::Functions) {
        return false;
    }
    if !slots_name(w, l, Kind::Upvalues) {
        return false;
    }
    if !slots_name(w, l, Kind::Userdata) {
        return false;
    }
    slots_name(w, l, Kind::Threads)
}
