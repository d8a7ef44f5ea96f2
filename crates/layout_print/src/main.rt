// Writes where everything lies in the words, for the smallest heap, heapscript's and the largest: the header once, then
// for each heap every part by name, and the totals.
#![tactic(auto)]

use arena::Arena;
use layout::{Lay, List, Part, Sizes};
use print::{at, say};
use std::io;

// A place of the header.
fn word(rt: &impl Print, p: usize, name: &[u8]) -> io::Result<()> {
    at(rt, b"  word ", p, b": ")?;
    say(rt, name)?;
    say(rt, b"\n")
}

fn header(rt: &impl Print) -> io::Result<()> {
    at(rt, b"header, ", layout::HEADER, b" words\n")?;
    header_first(rt)?;
    header_handles(rt)?;
    header_state(rt)?;
    header_counters(rt)?;
    header_lists(rt)?;
    header_arenas(rt)
}

fn header_first(rt: &impl Print) -> io::Result<()> {
    word(rt, 0, b"the ten sizes")?;
    word(rt, layout::PROTOTYPES, b"prototypes used")?;
    word(rt, layout::TOP, b"main top")?;
    word(rt, layout::OPENS, b"main open count")?;
    word(rt, layout::CI, b"ci")?;
    word(rt, layout::ERROR, b"main error value")?;
    word(rt, layout::HOOK, b"main hook value")
}

fn header_handles(rt: &impl Print) -> io::Result<()> {
    word(rt, layout::GLOBAL, b"global")?;
    word(rt, layout::REGISTRY, b"registry")?;
    word(rt, layout::NAME_MODE, b"name __mode")?;
    word(rt, layout::NAME_GC, b"name __gc")?;
    word(rt, layout::METATABLES, b"nine type metatables")?;
    word(rt, layout::LIMIT, b"limit")?;
    word(rt, layout::PAUSE, b"pause")?;
    word(rt, layout::STEPMUL, b"stepmul")?;
    word(rt, layout::CREATION, b"creation number")
}

fn header_state(rt: &impl Print) -> io::Result<()> {
    word(rt, layout::DAMAGE, b"damage mark")?;
    word(rt, layout::PHASE, b"phase")?;
    word(rt, layout::WHITE, b"current white")?;
    word(rt, layout::CURSOR_ARENA, b"cursor arena")?;
    word(rt, layout::CURSOR_SLOT, b"cursor slot")
}

fn header_counters(rt: &impl Print) -> io::Result<()> {
    word(rt, layout::TOTAL, b"total")?;
    word(rt, layout::PEAK, b"peak")?;
    word(rt, layout::ESTIMATE, b"estimate")?;
    word(rt, layout::THRESHOLD, b"threshold")?;
    word(rt, layout::DEBT, b"debt")?;
    word(
        rt,
        layout::INTERRUPTED,
        b"what the finalizer that is out interrupted",
    )?;
    word(rt, layout::OUT, b"userdata that is out")?;
    word(rt, layout::REMAINING, b"remaining budget")
}

fn header_lists(rt: &impl Print) -> io::Result<()> {
    word(rt, layout::GRAY, b"gray count")?;
    word(rt, layout::GRAYAGAIN, b"grayagain count")?;
    word(rt, layout::WEAK, b"weak count")?;
    word(rt, layout::QUEUE, b"queue count")
}

fn header_arenas(rt: &impl Print) -> io::Result<()> {
    word(rt, layout::STRINGS, b"strings: head, fresh, count")?;
    word(rt, layout::TABLES, b"tables: head, fresh, count")?;
    word(rt, layout::FUNCTIONS, b"functions: head, fresh, count")?;
    word(rt, layout::UPVALUES, b"upvalues: head, fresh, count")?;
    word(rt, layout::USERDATA, b"userdata: head, fresh, count")?;
    word(rt, layout::THREADS, b"threads: head, fresh, count")
}

fn arena_line(rt: &impl Print, name: &[u8], a: Arena) -> io::Result<()> {
    say(rt, b"  ")?;
    say(rt, name)?;
    at(rt, b": top ", a.top, b"")?;
    at(rt, b", table at ", a.base, b"")?;
    at(rt, b", ", a.slots, b" slots")?;
    at(rt, b", bodies at ", a.bodies, b"")?;
    at(rt, b", stride ", a.stride, b"")?;
    at(rt, b", width ", a.width, b"\n")
}

fn list_line(rt: &impl Print, name: &[u8], b: List) -> io::Result<()> {
    say(rt, b"  ")?;
    say(rt, name)?;
    at(rt, b": count at ", b.count, b"")?;
    at(rt, b", items at ", b.base, b"")?;
    at(rt, b", room ", b.room, b"")?;
    at(rt, b", stride ", layout::ITEM_WORDS, b"\n")
}

fn part_line(rt: &impl Print, name: &[u8], p: Part, words: usize) -> io::Result<()> {
    say(rt, b"  ")?;
    say(rt, name)?;
    at(rt, b": at ", p.base, b"")?;
    at(rt, b", room ", p.room, b"")?;
    at(rt, b", stride ", words, b"\n")
}

fn arenas(rt: &impl Print, l: Lay) -> io::Result<()> {
    arena_line(rt, b"strings", l.strings)?;
    arena_line(rt, b"tables", l.tables)?;
    arena_line(rt, b"functions", l.functions)?;
    arena_line(rt, b"upvalues", l.upvalues)?;
    arena_line(rt, b"userdata", l.userdata)?;
    arena_line(rt, b"threads", l.threads)
}

fn lists(rt: &impl Print, l: Lay) -> io::Result<()> {
    list_line(rt, b"gray", l.gray)?;
    list_line(rt, b"grayagain", l.grayagain)?;
    list_line(rt, b"weak", l.weak)?;
    list_line(rt, b"queue", l.queue)
}

fn parts(rt: &impl Print, l: Lay) -> io::Result<()> {
    part_line(rt, b"prototypes", l.protos, layout::PROTO_WORDS)?;
    part_line(rt, b"main stack", l.stack, layout::VALUE_WORDS)?;
    part_line(rt, b"main open list", l.opens, layout::HANDLE_WORDS)?;
    part_line(rt, b"frames", l.frames, 1)
}

fn show(rt: &impl Print, name: &[u8], s: Sizes) -> io::Result<()> {
    say(rt, name)?;
    match layout::plan(s) {
        Ok(z) => {
            let l = layout::lay_of(z);
            at(rt, b": ", l.words, b" words, ")?;
            at(rt, b"", l.bytes, b" bytes, ")?;
            at(rt, b"boundary at ", l.boundary, b"\n")?;
            arenas(rt, l)?;
            lists(rt, l)?;
            parts(rt, l)
        }
        Err(n) => at(rt, b": refused ", n.number() as usize, b"\n"),
    }
}

fn alike(slots: usize, places: usize, opens: usize, frames: usize) -> Sizes {
    Sizes {
        strings: slots,
        tables: slots,
        functions: slots,
        upvalues: slots,
        userdata: slots,
        threads: slots,
        protos: places,
        stack: places,
        opens,
        frames,
    }
}

fn main(rt: HostRuntime) -> io::Result<()> {
    header(&rt)?;
    show(&rt, b"the smallest heap", print::smallest())?;
    show(&rt, b"heapscript's heap", print::heapscript())?;
    show(&rt, b"the largest heap", alike(4096, 256, 64, 32))?;
    show(&rt, b"one slot more", alike(4097, 256, 64, 32))?;
    show(&rt, b"one string only", alike(1, 256, 64, 32))
}
