// The call that makes a string (document 01, 'Sizes' and 'Refusal numbers'): found by its bytes, or new. It gives 1 and 8
// first, then 4; a string already present answers its handle, never 6 or 3; a new one gives 6, then 3.
#![tactic(auto)]

ghost use Rattle.std.specs.Prelude.{◌≡◌, ◌*◌, ◌+◌, ◌≤◌, ◌<◌, length};
ghost use Rattle.layout.specs.Layout.{lay_of};
ghost use Rattle.base.specs.Heap.{heap};
ghost use Rattle.arena.specs.Slots.{Room};
ghost use Rattle.make_strings.specs.Making.{holds, find_string, Below, kept, found_string, put_text, new_string, string_in, make_string};

use arena::Arena;
use base::Refusal;
use layout::Plan;
use making::Made;
use value::StrRef;

// Whether slot i is occupied and holds these bytes.
fn holds(w: &[u32], b: &[u8], l: Plan, s: &[u8], i: usize) -> bool
    requires l_in_bounds { (lay_of l.sizes).words ≤ length w.now }
    requires l_in_bounds_2 { (lay_of l.sizes).bytes ≤ length b.now }
    requires i_bound { i < (lay_of l.sizes).strings.slots }
    ensures { result ≡ holds (lay_of l.sizes) s.now (heap w.now b.now) i }
{
    let strings = layout::strings_of(l);
    if arena::colour_of(w, strings, i) == 0 {
        return false;
    }
    let n = record::strings::string_length(w, record::body_of(w, strings, i));
    record::strings::same_bytes(record::strings::text(b, i, n), s)
}

// The first slot that does.
fn find_string(w: &[u32], b: &[u8], l: Plan, s: &[u8]) -> Option<usize>
    requires l_in_bounds { (lay_of l.sizes).words ≤ length w.now }
    requires l_in_bounds_2 { (lay_of l.sizes).bytes ≤ length b.now }
    ensures { (result ≡ find_string (lay_of l.sizes) s.now (heap w.now b.now)) × Below result (lay_of l.sizes).strings.slots }
{
    let end = arena::used_of(w, layout::strings_of(l));
    for i in 0..end {
        if holds(w, b, l, s, i) {
            return Some(i);
        }
    }
    None
}

// A string found while old white takes the current white.
fn keep(w: &mut [u32], a: Arena, i: usize)
    requires room { Room a w.old }
    requires in_bounds { (91 ≤ length w.old) × (i < a.slots) }
    ensures { w.new ≡ kept a i w.old }
{
    let white = base::get(w, layout::WHITE);
    if arena::colour_of(w, a, i) == mark::other_white(white) {
        arena::set_colour(w, a, i, white);
    }
}

fn found_string(w: &mut [u32], l: Plan, i: usize) -> Result<Made, Refusal>
    requires l_in_bounds { (lay_of l.sizes).words ≤ length w.old }
    requires i_bound { i < (lay_of l.sizes).strings.slots }
    ensures { (result, w.new) ≡ found_string (lay_of l.sizes) i w.old }
{
    let strings = layout::strings_of(l);
    let g = arena::generation_of(w, strings, i);
    keep(w, strings, i);
    Ok(Made::Str(StrRef(i as u32, g)))
}

// The bytes of slot i are s and then 0.
fn put_text(b: &mut [u8], i: usize, s: &[u8])
    requires i_in_bounds { 64 * i + 64 ≤ length b.old }
    requires s_len_bound { length s.now ≤ 64 }
    ensures { b.new ≡ put_text i s.now b.old }
{
    base::clear_bytes(b, 64 * i, layout::STRING_BYTES);
    record::strings::text_put(b, i, s);
}

fn new_string(w: &mut [u32], b: &mut [u8], l: Plan, s: &[u8]) -> Result<Made, Refusal>
    requires l_in_bounds { (lay_of l.sizes).words ≤ length w.old }
    requires l_in_bounds_2 { (lay_of l.sizes).bytes ≤ length b.old }
    requires s_len_bound { length s.now ≤ 64 }
    ensures { (result, heap w.new b.new) ≡ new_string s.now (lay_of l.sizes) (heap w.old b.old) }
{
    let (i, g, p) = making::new_object(
        w,
        layout::strings_of(l),
        making::STRING,
        layout::STRING_WORDS,
    )?;
    record::strings::set_string_length(w, p, s.len());
    put_text(b, base::wide(i), s);
    Ok(Made::Str(StrRef(i, g)))
}

fn string_in(w: &mut [u32], b: &mut [u8], l: Plan, s: &[u8]) -> Result<Made, Refusal>
    requires l_in_bounds { (lay_of l.sizes).words ≤ length w.old }
    requires l_in_bounds_2 { (lay_of l.sizes).bytes ≤ length b.old }
    ensures { (result, heap w.new b.new) ≡ string_in s.now (lay_of l.sizes) (heap w.old b.old) }
{
    if 64 < s.len() {
        return Err(Refusal::OutOfRange);
    }
    match find_string(w, b, l, s) {
        Some(i) => found_string(w, l, i),
        None => new_string(w, b, l, s),
    }
}

// A string with these bytes, found or new.
pub fn make_string(w: &mut [u32], b: &mut [u8], s: &[u8]) -> Result<Made, Refusal>
    ensures { (result, heap w.new b.new) ≡ make_string s.now (heap w.old b.old) }
{
    let l = test1::enter(w, b)?;
    string_in(w, b, l, s)
}
