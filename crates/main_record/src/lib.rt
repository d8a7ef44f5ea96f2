// The main record and the other roots (document 01, 'Followed links'): one function for each field, to read it and to write
// it. The prototypes stand in a module of their own. The ten sizes say where the parts past the header lie; contents are taken as
// they are, and a count never reads past its part.
#![tactic(auto)]

use layout::Plan;
use value::{StrRef, TableRef, UpvalRef, Value};

pub mod prototypes;

ghost use Rattle.std.specs.Prelude.{◌≡◌, ◌+◌, ◌^◌, ◌≤◌, ◌<◌, length};
ghost use Rattle.layout.specs.Layout.{lay_of};
ghost use Rattle.main_record.specs.Parts.{Parts};
ghost use Rattle.main_record.specs.Main.{main_top, set_main_top, main_open_count, set_main_open_count, main_ci, set_main_ci, main_error, set_main_error, main_hook, set_main_hook, global, set_global, registry, set_registry, mode_name, set_mode_name, gc_name, set_gc_name, type_meta, set_type_meta, main_value, set_main_value, main_open, set_main_open, frame_function, set_frame_function};

// The stack below top.
pub fn main_top(w: &[u32], l: Plan) -> usize
    requires { Parts (lay_of l.sizes) (length w.now) }
    ensures { (result ≡ main_top (lay_of l.sizes) w.now) × (result ≤ (lay_of l.sizes).stack.room) }
{
    record::least(record::number_at(w, layout::TOP), l.sizes.stack)
}

pub fn set_main_top(w: &mut [u32], n: usize)
    requires in_bounds { 91 ≤ length w.old }
    requires n_bound { n ≤ 256 }
    ensures { w.new ≡ set_main_top n w.old }
{
    record::put_number(w, layout::TOP, n);
}

// How many open upvalues there are.
pub fn main_open_count(w: &[u32], l: Plan) -> usize
    requires { Parts (lay_of l.sizes) (length w.now) }
    ensures { (result ≡ main_open_count (lay_of l.sizes) w.now) × (result ≤ (lay_of l.sizes).opens.room) }
{
    record::least(record::number_at(w, layout::OPENS), l.sizes.opens)
}

pub fn set_main_open_count(w: &mut [u32], n: usize)
    requires in_bounds { 91 ≤ length w.old }
    requires n_bound { n ≤ 64 }
    ensures { w.new ≡ set_main_open_count n w.old }
{
    record::put_number(w, layout::OPENS, n);
}

// The current frame.
pub fn main_ci(w: &[u32], l: Plan) -> usize
    requires { Parts (lay_of l.sizes) (length w.now) }
    ensures { (result ≡ main_ci (lay_of l.sizes) w.now) × (result < (lay_of l.sizes).frames.room) }
{
    record::least(record::number_at(w, layout::CI), l.sizes.frames - 1)
}

pub fn set_main_ci(w: &mut [u32], n: usize)
    requires in_bounds { 91 ≤ length w.old }
    requires n_bound { n ≤ 31 }
    ensures { w.new ≡ set_main_ci n w.old }
{
    record::put_number(w, layout::CI, n);
}

pub fn main_error(w: &[u32]) -> Value
    requires { 91 ≤ length w.now }
    ensures { result ≡ main_error w.now }
{
    value::read_value(w, layout::ERROR)
}

pub fn set_main_error(w: &mut [u32], v: Value)
    requires { 91 ≤ length w.old }
    ensures { w.new ≡ set_main_error v w.old }
{
    value::write_value(w, layout::ERROR, v);
}

pub fn main_hook(w: &[u32]) -> Value
    requires { 91 ≤ length w.now }
    ensures { result ≡ main_hook w.now }
{
    value::read_value(w, layout::HOOK)
}

pub fn set_main_hook(w: &mut [u32], v: Value)
    requires { 91 ≤ length w.old }
    ensures { w.new ≡ set_main_hook v w.old }
{
    value::write_value(w, layout::HOOK, v);
}

pub fn global(w: &[u32]) -> Option<TableRef>
    requires { 91 ≤ length w.now }
    ensures { result ≡ global w.now }
{
    value::read_table_or(w, layout::GLOBAL)
}

pub fn set_global(w: &mut [u32], t: Option<TableRef>)
    requires { 91 ≤ length w.old }
    ensures { w.new ≡ set_global t w.old }
{
    value::write_table_or(w, layout::GLOBAL, t);
}

pub fn registry(w: &[u32]) -> Option<TableRef>
    requires { 91 ≤ length w.now }
    ensures { result ≡ registry w.now }
{
    value::read_table_or(w, layout::REGISTRY)
}

pub fn set_registry(w: &mut [u32], t: Option<TableRef>)
    requires { 91 ≤ length w.old }
    ensures { w.new ≡ set_registry t w.old }
{
    value::write_table_or(w, layout::REGISTRY, t);
}

// The name `__mode`.
pub fn mode_name(w: &[u32]) -> Option<StrRef>
    requires { 91 ≤ length w.now }
    ensures { result ≡ mode_name w.now }
{
    value::read_str_or(w, layout::NAME_MODE)
}

pub fn set_mode_name(w: &mut [u32], s: Option<StrRef>)
    requires { 91 ≤ length w.old }
    ensures { w.new ≡ set_mode_name s w.old }
{
    value::write_str_or(w, layout::NAME_MODE, s);
}

// The name `__gc`.
pub fn gc_name(w: &[u32]) -> Option<StrRef>
    requires { 91 ≤ length w.now }
    ensures { result ≡ gc_name w.now }
{
    value::read_str_or(w, layout::NAME_GC)
}

pub fn set_gc_name(w: &mut [u32], s: Option<StrRef>)
    requires { 91 ≤ length w.old }
    ensures { w.new ≡ set_gc_name s w.old }
{
    value::write_str_or(w, layout::NAME_GC, s);
}

// The metatable of type k.
pub fn type_meta(w: &[u32], k: usize) -> Option<TableRef>
    requires in_bounds { 91 ≤ length w.now }
    requires k_bound { k < 9 }
    ensures { result ≡ type_meta k w.now }
{
    value::read_table_or(w, layout::METATABLES + 2 * k)
}

pub fn set_type_meta(w: &mut [u32], k: usize, t: Option<TableRef>)
    requires in_bounds { 91 ≤ length w.old }
    requires k_bound { k < 9 }
    ensures { w.new ≡ set_type_meta k t w.old }
{
    value::write_table_or(w, layout::METATABLES + 2 * k, t);
}

// A place of the main stack.
pub fn main_value(w: &[u32], l: Plan, i: usize) -> Value
    requires parts { Parts (lay_of l.sizes) (length w.now) }
    requires i_bound { i < (lay_of l.sizes).stack.room }
    ensures { result ≡ main_value (lay_of l.sizes) i w.now }
{
    value::read_value(w, layout::stack_at(l) + 3 * i)
}

pub fn set_main_value(w: &mut [u32], l: Plan, i: usize, v: Value)
    requires parts { Parts (lay_of l.sizes) (length w.old) }
    requires i_bound { i < (lay_of l.sizes).stack.room }
    ensures { w.new ≡ set_main_value (lay_of l.sizes) i v w.old }
{
    value::write_value(w, layout::stack_at(l) + 3 * i, v);
}

// An upvalue of the main open list.
pub fn main_open(w: &[u32], l: Plan, i: usize) -> UpvalRef
    requires parts { Parts (lay_of l.sizes) (length w.now) }
    requires i_bound { i < (lay_of l.sizes).opens.room }
    ensures { result ≡ main_open (lay_of l.sizes) i w.now }
{
    record::read_upval(w, layout::opens_at(l) + 2 * i)
}

pub fn set_main_open(w: &mut [u32], l: Plan, i: usize, u: UpvalRef)
    requires parts { Parts (lay_of l.sizes) (length w.old) }
    requires i_bound { i < (lay_of l.sizes).opens.room }
    ensures { w.new ≡ set_main_open (lay_of l.sizes) i u w.old }
{
    record::write_upval(w, layout::opens_at(l) + 2 * i, u);
}

// The function index of frame i.
pub fn frame_function(w: &[u32], l: Plan, i: usize) -> usize
    requires parts { Parts (lay_of l.sizes) (length w.now) }
    requires i_bound { i < (lay_of l.sizes).frames.room }
    ensures { (result ≡ frame_function (lay_of l.sizes) i w.now) × (result < 2 ^ 32) }
{
    record::number_at(w, layout::frames_at(l) + i)
}

pub fn set_frame_function(w: &mut [u32], l: Plan, i: usize, n: usize)
    requires parts { Parts (lay_of l.sizes) (length w.old) }
    requires i_bound { i < (lay_of l.sizes).frames.room }
    requires n_bound { n ≤ 256 }
    ensures { w.new ≡ set_frame_function (lay_of l.sizes) i n w.old }
{
    record::put_number(w, layout::frames_at(l) + i, n);
}
