// The header and the slots asked by number. An index that a question has no use for is not looked at.
ghost use Rattle.std.specs.Prelude.{◌≡◌};
ghost use Rattle.base.specs.Heap.{heap};
ghost use Rattle.asked.specs.Header.{counter_of, ask_counter, size_of, ask_size, root_of, ask_root, main_of, ask_main, which_of, listed_of, ask_list, kind_of, slots_of, ask_arena};

use crate::ask;
use base::Refusal;
use part_reads::{Listed, Main, Slots, Which};
use reads::{Counter, Kind, Read, Root, Size};

pub fn counter_of(n: u32) -> Option<Counter>
    ensures { result ≡ counter_of n }
{
    match n {
        0 => Some(Counter::Prototypes),
        1 => Some(Counter::Limit),
        2 => Some(Counter::Pause),
        3 => Some(Counter::Stepmul),
        4 => Some(Counter::Creation),
        5 => Some(Counter::Phase),
        6 => Some(Counter::White),
        7 => Some(Counter::CursorArena),
        8 => Some(Counter::CursorSlot),
        9 => Some(Counter::Total),
        10 => Some(Counter::Peak),
        11 => Some(Counter::Estimate),
        12 => Some(Counter::Threshold),
        13 => Some(Counter::Debt),
        14 => Some(Counter::Interrupted),
        15 => Some(Counter::Remaining),
        _ => None,
    }
}

pub fn size_of(n: u32) -> Option<Size>
    ensures { result ≡ size_of n }
{
    match n {
        0 => Some(Size::Strings),
        1 => Some(Size::Tables),
        2 => Some(Size::Functions),
        3 => Some(Size::Upvalues),
        4 => Some(Size::Userdata),
        5 => Some(Size::Threads),
        6 => Some(Size::Prototypes),
        7 => Some(Size::Stack),
        8 => Some(Size::Opens),
        9 => Some(Size::Frames),
        _ => None,
    }
}

pub fn root_of(n: u32, k: u32) -> Option<Root>
    ensures { result ≡ root_of n k }
{
    match n {
        0 => Some(Root::Global),
        1 => Some(Root::Registry),
        2 => Some(Root::Mode),
        3 => Some(Root::Gc),
        4 => Some(Root::Type(k)),
        _ => None,
    }
}

pub fn main_of(n: u32, i: u32) -> Option<Main>
    ensures { result ≡ main_of n i }
{
    match n {
        0 => Some(Main::Top),
        1 => Some(Main::Opens),
        2 => Some(Main::Ci),
        3 => Some(Main::Error),
        4 => Some(Main::Hook),
        5 => Some(Main::Stack(i)),
        6 => Some(Main::Open(i)),
        7 => Some(Main::Frame(i)),
        _ => None,
    }
}

pub fn which_of(n: u32) -> Option<Which>
    ensures { result ≡ which_of n }
{
    match n {
        0 => Some(Which::Gray),
        1 => Some(Which::Grayagain),
        2 => Some(Which::Weak),
        3 => Some(Which::Queue),
        _ => None,
    }
}

pub fn listed_of(n: u32, i: u32) -> Option<Listed>
    ensures { result ≡ listed_of n i }
{
    match n {
        0 => Some(Listed::Length),
        1 => Some(Listed::At(i)),
        _ => None,
    }
}

pub fn kind_of(n: u32) -> Option<Kind>
    ensures { result ≡ kind_of n }
{
    match n {
        0 => Some(Kind::Strings),
        1 => Some(Kind::Tables),
        2 => Some(Kind::Functions),
        3 => Some(Kind::Upvalues),
        4 => Some(Kind::Userdata),
        5 => Some(Kind::Threads),
        _ => None,
    }
}

pub fn slots_of(n: u32, i: u32) -> Option<Slots>
    ensures { result ≡ slots_of n i }
{
    match n {
        0 => Some(Slots::Head),
        1 => Some(Slots::Fresh),
        2 => Some(Slots::Count),
        3 => Some(Slots::Generation(i)),
        4 => Some(Slots::Colour(i)),
        5 => Some(Slots::Link(i)),
        _ => None,
    }
}

pub fn ask_counter(w: &[u32], b: &[u8], n: u32) -> Result<Read, Refusal>
    ensures { result ≡ ask_counter n (heap w.now b.now) }
{
    ask(w, b, counter_of(n), |q| reads::read_counter(w, b, q))
}

pub fn ask_size(w: &[u32], b: &[u8], n: u32) -> Result<Read, Refusal>
    ensures { result ≡ ask_size n (heap w.now b.now) }
{
    ask(w, b, size_of(n), |q| reads::read_size(w, b, q))
}

pub fn ask_root(w: &[u32], b: &[u8], n: u32, k: u32) -> Result<Read, Refusal>
    ensures { result ≡ ask_root n k (heap w.now b.now) }
{
    ask(w, b, root_of(n, k), |q| reads::read_root(w, b, q))
}

pub fn ask_main(w: &[u32], b: &[u8], n: u32, i: u32) -> Result<Read, Refusal>
    ensures { result ≡ ask_main n i (heap w.now b.now) }
{
    ask(w, b, main_of(n, i), |q| part_reads::read_main(w, b, q))
}

pub fn ask_list(w: &[u32], b: &[u8], l: u32, n: u32, i: u32) -> Result<Read, Refusal>
    ensures { result ≡ ask_list l n i (heap w.now b.now) }
{
    ask(w, b, which_of(l).zip(listed_of(n, i)), |(l, q)| {
        part_reads::read_list(w, b, l, q)
    })
}

pub fn ask_arena(w: &[u32], b: &[u8], a: u32, n: u32, i: u32) -> Result<Read, Refusal>
    ensures { result ≡ ask_arena a n i (heap w.now b.now) }
{
    ask(w, b, kind_of(a).zip(slots_of(n, i)), |(k, q)| {
        part_reads::read_arena(w, b, k, q)
    })
}
