// Public reads of what stands past the header's counters: the main record, the working lists, and the slots of each arena.
// Each gives 1 and 8 first, then 4, and changes nothing.
#![tactic(auto)]

ghost use Rattle.std.specs.Prelude.{◌≡◌, ◌+◌, ◌*◌, ◌≤◌, ◌<◌, length};
ghost use Rattle.layout.specs.Layout.{lay_of};
ghost use Rattle.base.specs.Heap.{heap};
ghost use Rattle.arena.specs.Slots.{Room};
ghost use Rattle.lists.specs.Lists.{RoomFor};
ghost use Rattle.part_reads.specs.PartReads.{value_read, upval_read, stack_in, open_in, frame_in, MainOk, main_in, read_main, list_of, list_in, read_list, slot_in, arena_in, read_arena};

use arena::Arena;
use base::Refusal;
use layout::{List, Part, Plan};
use reads::{Kind, Read};
use value::UpvalRef;

// A field of the main record.
#[derive(Clone, Copy)]
pub enum Main {
    Top,
    Opens,
    Ci,
    Error,
    Hook,
    Stack(u32),
    Open(u32),
    Frame(u32),
}

// One of the four working lists.
#[derive(Clone, Copy)]
pub enum Which {
    Gray,
    Grayagain,
    Weak,
    Queue,
}

// An item of a list, or how many there are.
#[derive(Clone, Copy)]
pub enum Listed {
    Length,
    At(u32),
}

// What an arena keeps beside its bodies. A slot is given by its index, which lies below the fresh index.
#[derive(Clone, Copy)]
pub enum Slots {
    // The head of the chain and a slot's link: index + 1, 0 for none.
    Head,
    Fresh,
    Count,
    Generation(u32),
    Colour(u32),
    Link(u32),
}

fn value_read(w: &[u32], p: usize) -> Result<Read, Refusal>
    requires { p + 2 < length w.now }
    ensures { result ≡ value_read p w.now }
{
    Ok(Read::Value(value::read_value(w, p)))
}

fn upval_read(w: &[u32], p: usize) -> Result<Read, Refusal>
    requires { p + 1 < length w.now }
    ensures { result ≡ upval_read p w.now }
{
    Ok(Read::Upvalue(UpvalRef(base::get(w, p), base::get(w, p + 1))))
}

// A place of a part past the boundary: 4 from its end on.
fn stack_in(w: &[u32], p: Part, i: u32) -> Result<Read, Refusal>
    requires { (p.room ≤ 256) × (p.base + 3 * p.room ≤ length w.now) }
    ensures { result ≡ stack_in p i w.now }
{
    let k = base::wide(i);
    if k < p.room {
        return value_read(w, p.base + 3 * k);
    }
    Err(Refusal::OutOfRange)
}

// The open list ends at its count, which test 1 keeps within the room.
fn open_in(w: &[u32], p: Part, i: u32) -> Result<Read, Refusal>
    requires room_bound { (p.room ≤ 64) × (p.base + 2 * p.room ≤ length w.now) }
    requires in_bounds { 91 ≤ length w.now }
    ensures { result ≡ open_in p i w.now }
{
    let k = base::wide(i);
    if base::wide(base::get(w, layout::OPENS)) <= k {
        return Err(Refusal::OutOfRange);
    }
    if k < p.room {
        return upval_read(w, p.base + 2 * k);
    }
    Err(Refusal::OutOfRange)
}

fn frame_in(w: &[u32], p: Part, i: u32) -> Result<Read, Refusal>
    requires { (p.room ≤ 32) × (p.base + p.room ≤ length w.now) }
    ensures { result ≡ frame_in p i w.now }
{
    let k = base::wide(i);
    if k < p.room {
        return reads::number_read(w, p.base + k);
    }
    Err(Refusal::OutOfRange)
}

fn main_in(w: &[u32], l: Plan, q: Main) -> Result<Read, Refusal>
    requires { MainOk (lay_of l.sizes) (length w.now) }
    ensures { result ≡ main_in (lay_of l.sizes) q w.now }
{
    match q {
        Main::Top => reads::number_read(w, layout::TOP),
        Main::Opens => reads::number_read(w, layout::OPENS),
        Main::Ci => reads::number_read(w, layout::CI),
        Main::Error => value_read(w, layout::ERROR),
        Main::Hook => value_read(w, layout::HOOK),
        Main::Stack(i) => stack_in(
            w,
            Part {
                base: layout::stack_at(l),
                room: l.sizes.stack,
            },
            i,
        ),
        Main::Open(i) => open_in(
            w,
            Part {
                base: layout::opens_at(l),
                room: l.sizes.opens,
            },
            i,
        ),
        Main::Frame(i) => frame_in(
            w,
            Part {
                base: layout::frames_at(l),
                room: l.sizes.frames,
            },
            i,
        ),
    }
}

// A field of the main record; 4 for a place past its part's end.
pub fn read_main(w: &[u32], b: &[u8], q: Main) -> Result<Read, Refusal>
    ensures { result ≡ read_main q (heap w.now b.now) }
{
    let l = test1::enter(w, b)?;
    main_in(w, l, q)
}

fn list_of(l: Plan, q: Which) -> List
    ensures { result ≡ list_of (lay_of l.sizes) q }
{
    match q {
        Which::Gray => layout::gray_of(l),
        Which::Grayagain => layout::grayagain_of(l),
        Which::Weak => layout::weak_of(l),
        Which::Queue => layout::queue_of(l),
    }
}

fn list_in(w: &[u32], l: List, q: Listed) -> Result<Read, Refusal>
    requires { RoomFor l w.now }
    ensures { result ≡ list_in l q w.now }
{
    match q {
        Listed::Length => Ok(Read::Number(lists::length_of(w, l) as u64)),
        Listed::At(i) => {
            let k = base::wide(i);
            if lists::length_of(w, l) <= k {
                return Err(Refusal::OutOfRange);
            }
            Ok(Read::Item(lists::item_at(w, l, k)))
        }
    }
}

// A working list: its length, or an item; 4 from its end on.
pub fn read_list(w: &[u32], b: &[u8], which: Which, q: Listed) -> Result<Read, Refusal>
    ensures { result ≡ read_list which q (heap w.now b.now) }
{
    let l = test1::enter(w, b)?;
    list_in(w, list_of(l, which), q)
}

fn slot_in(w: &[u32], a: Arena, i: usize, q: Slots) -> Result<Read, Refusal>
    requires { Room a w.now }
    ensures { result ≡ slot_in a i q w.now }
{
    if arena::used_of(w, a) <= i {
        return Err(Refusal::OutOfRange);
    }
    match q {
        Slots::Generation(_) => Ok(Read::Number(arena::generation_of(w, a, i) as u64)),
        Slots::Colour(_) => Ok(Read::Number(arena::colour_of(w, a, i) as u64)),
        Slots::Link(_) => Ok(Read::Number(arena::link_of(w, a, i) as u64)),
        Slots::Head => Err(Refusal::OutOfRange),
        Slots::Fresh => Err(Refusal::OutOfRange),
        Slots::Count => Err(Refusal::OutOfRange),
    }
}

fn arena_in(w: &[u32], a: Arena, q: Slots) -> Result<Read, Refusal>
    requires { Room a w.now }
    ensures { result ≡ arena_in a q w.now }
{
    match q {
        Slots::Head => Ok(Read::Number(arena::head_of(w, a) as u64)),
        Slots::Fresh => Ok(Read::Number(arena::used_of(w, a) as u64)),
        Slots::Count => Ok(Read::Number(arena::count_of(w, a) as u64)),
        Slots::Generation(i) => slot_in(w, a, base::wide(i), q),
        Slots::Colour(i) => slot_in(w, a, base::wide(i), q),
        Slots::Link(i) => slot_in(w, a, base::wide(i), q),
    }
}

// What an arena keeps beside its bodies; 4 for a slot from the fresh index on.
pub fn read_arena(w: &[u32], b: &[u8], k: Kind, q: Slots) -> Result<Read, Refusal>
    ensures { result ≡ read_arena k q (heap w.now b.now) }
{
    let l = test1::enter(w, b)?;
    arena_in(w, reads::arena_of(l, k), q)
}
