// Public reads of the header: counters, sizes, the finalizer that is out and roots. Each gives 1 and 8 first, then 4, and
// changes nothing. Beside them what all reads share: what they answer, and what the handle of an object names.
#![tactic(auto)]

ghost use Rattle.std.specs.Prelude.{◌≡◌, ◌≤◌, ◌<◌, length};
ghost use Rattle.layout.specs.Layout.{lay_of};
ghost use Rattle.base.specs.Heap.{heap};
ghost use Rattle.arena.specs.Slots.{Room};
ghost use Rattle.reads.specs.Reads.{number_read, flag_read, field_of, InHeader, counter_in, read_counter, size_place, read_size, read_out, root_in, read_root};
ghost use Rattle.reads.specs.Objects.{arena_of, Lies, Holds, found_in, found};

use arena::Arena;
use base::Refusal;
use layout::Plan;
use lists::Item;
use value::{StrRef, TableRef, UdRef, UpvalRef, Value};

// What a read answers.
#[derive(Clone, Copy)]
pub enum Read {
    Number(u64),
    Value(Value),
    Table(Option<TableRef>),
    Str(Option<StrRef>),
    Upvalue(UpvalRef),
    Item(Item),
    Userdata(Option<UdRef>),
}

// A counter, setting or mark of the header.
#[derive(Clone, Copy)]
pub enum Counter {
    Prototypes,
    Limit,
    Pause,
    Stepmul,
    Creation,
    Phase,
    White,
    CursorArena,
    CursorSlot,
    Total,
    Peak,
    Estimate,
    Threshold,
    // Stored plus 2^63.
    Debt,
    // What the finalizer that is out interrupted; 0 where none is out.
    Interrupted,
    Remaining,
}

// Where a counter stands: one word, or two.
#[derive(Clone, Copy)]
pub enum Field {
    Short(usize),
    Long(usize),
}

// One of the ten sizes that the heap was made with, in the order of `layout::Sizes`.
#[derive(Clone, Copy)]
pub enum Size {
    Strings,
    Tables,
    Functions,
    Upvalues,
    Userdata,
    Threads,
    Prototypes,
    Stack,
    Opens,
    Frames,
}

// A root that is a handle.
#[derive(Clone, Copy)]
pub enum Root {
    Global,
    Registry,
    // The names `__mode` and `__gc`.
    Mode,
    Gc,
    // The metatable of a type, 0 to 8.
    Type(u32),
}

// One of the six arenas, in sweep order.
#[derive(Clone, Copy)]
pub enum Kind {
    Strings,
    Tables,
    Functions,
    Upvalues,
    Userdata,
    Threads,
}

// A word of the words as a number that is read.
pub fn number_read(w: &[u32], p: usize) -> Result<Read, Refusal>
    requires { p < length w.now }
    ensures { result ≡ number_read p w.now }
{
    Ok(Read::Number(base::get(w, p) as u64))
}

// 1 for yes, 0 for no.
pub fn flag_read(b: bool) -> Result<Read, Refusal>
    ensures { result ≡ flag_read b }
{
    if b {
        Ok(Read::Number(1))
    } else {
        Ok(Read::Number(0))
    }
}

fn field_of(c: Counter) -> Field
    ensures { (result ≡ field_of c) × InHeader result }
{
    match c {
        Counter::Prototypes => Field::Short(layout::PROTOTYPES),
        Counter::Limit => Field::Long(layout::LIMIT),
        Counter::Pause => Field::Short(layout::PAUSE),
        Counter::Stepmul => Field::Short(layout::STEPMUL),
        Counter::Creation => Field::Long(layout::CREATION),
        Counter::Phase => Field::Short(layout::PHASE),
        Counter::White => Field::Short(layout::WHITE),
        Counter::CursorArena => Field::Short(layout::CURSOR_ARENA),
        Counter::CursorSlot => Field::Short(layout::CURSOR_SLOT),
        Counter::Total => Field::Short(layout::TOTAL),
        Counter::Peak => Field::Short(layout::PEAK),
        Counter::Estimate => Field::Short(layout::ESTIMATE),
        Counter::Threshold => Field::Long(layout::THRESHOLD),
        Counter::Debt => Field::Long(layout::DEBT),
        Counter::Interrupted => Field::Short(layout::INTERRUPTED),
        Counter::Remaining => Field::Long(layout::REMAINING),
    }
}

fn counter_in(w: &[u32], c: Counter) -> Result<Read, Refusal>
    requires { 91 ≤ length w.now }
    ensures { result ≡ counter_in c w.now }
{
    match field_of(c) {
        Field::Short(p) => number_read(w, p),
        Field::Long(p) => Ok(Read::Number(base::get64(w, p))),
    }
}

// A counter, setting or mark.
pub fn read_counter(w: &[u32], b: &[u8], c: Counter) -> Result<Read, Refusal>
    ensures { result ≡ read_counter c (heap w.now b.now) }
{
    test1::enter(w, b)?;
    counter_in(w, c)
}

// The sizes are the first words of the header.
fn size_place(q: Size) -> usize
    ensures { (result ≡ size_place q) × (result < 10) }
{
    match q {
        Size::Strings => 0,
        Size::Tables => 1,
        Size::Functions => 2,
        Size::Upvalues => 3,
        Size::Userdata => 4,
        Size::Threads => 5,
        Size::Prototypes => 6,
        Size::Stack => 7,
        Size::Opens => 8,
        Size::Frames => 9,
    }
}

// One of the ten sizes.
pub fn read_size(w: &[u32], b: &[u8], q: Size) -> Result<Read, Refusal>
    ensures { result ≡ read_size q (heap w.now b.now) }
{
    test1::enter(w, b)?;
    number_read(w, size_place(q))
}

// The userdata whose finalizer is out.
pub fn read_out(w: &[u32], b: &[u8]) -> Result<Read, Refusal>
    ensures { result ≡ read_out (heap w.now b.now) }
{
    test1::enter(w, b)?;
    Ok(Read::Userdata(value::read_ud_or(w, layout::OUT)))
}

fn root_in(w: &[u32], r: Root) -> Result<Read, Refusal>
    requires { 91 ≤ length w.now }
    ensures { result ≡ root_in r w.now }
{
    match r {
        Root::Global => Ok(Read::Table(value::read_table_or(w, layout::GLOBAL))),
        Root::Registry => Ok(Read::Table(value::read_table_or(w, layout::REGISTRY))),
        Root::Mode => Ok(Read::Str(value::read_str_or(w, layout::NAME_MODE))),
        Root::Gc => Ok(Read::Str(value::read_str_or(w, layout::NAME_GC))),
        Root::Type(k) => {
            if k < 9 {
                return Ok(Read::Table(value::read_table_or(
                    w,
                    layout::METATABLES + 2 * base::wide(k),
                )));
            }
            Err(Refusal::OutOfRange)
        }
    }
}

// A root that is a handle; 4 for a type past the ninth.
pub fn read_root(w: &[u32], b: &[u8], q: Root) -> Result<Read, Refusal>
    ensures { result ≡ read_root q (heap w.now b.now) }
{
    test1::enter(w, b)?;
    root_in(w, q)
}

pub fn arena_of(l: Plan, k: Kind) -> Arena
    ensures { result ≡ arena_of (lay_of l.sizes) k }
{
    match k {
        Kind::Strings => layout::strings_of(l),
        Kind::Tables => layout::tables_of(l),
        Kind::Functions => layout::functions_of(l),
        Kind::Upvalues => layout::upvalues_of(l),
        Kind::Userdata => layout::userdata_of(l),
        Kind::Threads => layout::threads_of(l),
    }
}

fn find_in(w: &[u32], a: Arena, i: u32, g: u32) -> Result<(usize, usize), Refusal>
    requires { Room a w.now }
    ensures { (result ≡ found_in a i g w.now) × Lies a result (length w.now) }
{
    match arena::name_of(w, a, i, g) {
        Some(j) => Ok((j, record::body_of(w, a, j))),
        None => Err(Refusal::Stale),
    }
}

// What the handle of an object names, index i and generation g: 1 and 8 first, then 2. All reads of objects begin so.
pub fn find(w: &[u32], b: &[u8], k: Kind, i: u32, g: u32) -> Result<(usize, usize), Refusal>
    ensures { (result ≡ found k i g (heap w.now b.now)) × Holds k result (length w.now) (length b.now) }
{
    let l = test1::enter(w, b)?;
    find_in(w, arena_of(l, k), i, g)
}
