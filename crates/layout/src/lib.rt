// Where everything lies in the two lent buffers (document 01, 'Sizes').
#![tactic(auto)]

use arena::Arena;
use base::Refusal;

mod places;
mod plans;

ghost use Rattle.std.specs.Prelude.{◌≡◌, ℕ};
ghost use Rattle.layout.specs.Sizes.{sizes_fit};
ghost use Rattle.layout.specs.Layout.{lay_of, planned, needed_of};
ghost use Rattle.layout.specs.Plans.{sizes_given};

pub use plans::Plan;

// The places of the header (specs/Places.antt says what stands there).
pub const PROTOTYPES: usize = 10;

pub const TOP: usize = 11;

pub const OPENS: usize = 12;

pub const CI: usize = 13;

pub const ERROR: usize = 14;

pub const HOOK: usize = 17;

pub const GLOBAL: usize = 20;

pub const REGISTRY: usize = 22;

pub const NAME_MODE: usize = 24;

pub const NAME_GC: usize = 26;

pub const METATABLES: usize = 28;

pub const LIMIT: usize = 46;

pub const PAUSE: usize = 48;

pub const STEPMUL: usize = 49;

pub const CREATION: usize = 50;

pub const DAMAGE: usize = 52;

pub const PHASE: usize = 53;

pub const WHITE: usize = 54;

pub const CURSOR_ARENA: usize = 55;

pub const CURSOR_SLOT: usize = 56;

pub const TOTAL: usize = 57;

pub const PEAK: usize = 58;

pub const ESTIMATE: usize = 59;

pub const THRESHOLD: usize = 60;

pub const DEBT: usize = 62;

pub const INTERRUPTED: usize = 64;

pub const OUT: usize = 65;

pub const REMAINING: usize = 67;

pub const GRAY: usize = 69;

pub const GRAYAGAIN: usize = 70;

pub const WEAK: usize = 71;

pub const QUEUE: usize = 72;

pub const STRINGS: usize = 73;

pub const TABLES: usize = 76;

pub const FUNCTIONS: usize = 79;

pub const UPVALUES: usize = 82;

pub const USERDATA: usize = 85;

pub const THREADS: usize = 88;

pub const HEADER: usize = 91;

// The words of one record, item, value or handle, and the bytes of a string.
pub const STRING_WORDS: usize = 1;

pub const TABLE_WORDS: usize = 580;

pub const FUNCTION_WORDS: usize = 53;

pub const UPVALUE_WORDS: usize = 4;

pub const USERDATA_WORDS: usize = 7;

pub const THREAD_WORDS: usize = 268;

pub const PROTO_WORDS: usize = 59;

pub const ITEM_WORDS: usize = 3;

pub const VALUE_WORDS: usize = 3;

pub const HANDLE_WORDS: usize = 2;

pub const STRING_BYTES: usize = 64;

// The ten sizes that a heap is made with: the slots of each arena, prototypes, main stack, main open list, frames.
#[derive(Clone, Copy)]
pub struct Sizes {
    pub strings: usize,
    pub tables: usize,
    pub functions: usize,
    pub upvalues: usize,
    pub userdata: usize,
    pub threads: usize,
    pub protos: usize,
    pub stack: usize,
    pub opens: usize,
    pub frames: usize,
}

// A working list: the place of its count, and its items, ITEM_WORDS words each.
#[derive(Clone, Copy)]
pub struct List {
    pub count: usize,
    pub base: usize,
    pub room: usize,
}

// A part of the main record past the boundary.
#[derive(Clone, Copy)]
pub struct Part {
    pub base: usize,
    pub room: usize,
}

// Where everything lies. Marking writes below the boundary only; traversal reads past it.
#[derive(Clone, Copy)]
pub struct Lay {
    pub strings: Arena,
    pub tables: Arena,
    pub functions: Arena,
    pub upvalues: Arena,
    pub userdata: Arena,
    pub threads: Arena,
    pub gray: List,
    pub grayagain: List,
    pub weak: List,
    pub queue: List,
    pub protos: Part,
    pub stack: Part,
    pub opens: Part,
    pub frames: Part,
    pub boundary: usize,
    pub words: usize,
    pub bytes: usize,
}

// Whether each size lies within its range.
pub fn sizes_fit(s: Sizes) -> bool
    ensures { result ≡ sizes_fit s }
{
    (2 <= s.strings)
        & (s.strings <= 4096)
        & (2 <= s.tables)
        & (s.tables <= 4096)
        & (s.functions <= 4096)
        & (s.upvalues <= 4096)
        & (s.userdata <= 4096)
        & (s.threads <= 4096)
        & (s.protos <= 256)
        & (s.stack <= 256)
        & (s.opens <= 64)
        & (1 <= s.frames)
        & (s.frames <= 32)
}

// These sizes, whose layout fits, or 4 where one lies outside its range.
pub fn plan(s: Sizes) -> Result<Plan, Refusal>
    ensures { sizes_given result ≡ planned s }
{
    if !sizes_fit(s) {
        return Err(Refusal::OutOfRange);
    }
    Ok(Plan { sizes: s })
}

// The parts of the layout, each computed where it is used: ten sizes are handed on, not the whole layout.

pub fn strings_of(s: Plan) -> Arena
    ensures { result ≡ (lay_of s.sizes).strings }
{
    Arena {
        top: STRINGS,
        base: HEADER,
        slots: s.sizes.strings,
        bodies: places::string_bodies_at(s),
        stride: STRING_WORDS,
        width: STRING_BYTES,
    }
}

pub fn tables_of(s: Plan) -> Arena
    ensures { result ≡ (lay_of s.sizes).tables }
{
    Arena {
        top: TABLES,
        base: places::tables_at(s),
        slots: s.sizes.tables,
        bodies: places::table_bodies_at(s),
        stride: TABLE_WORDS,
        width: 0,
    }
}

pub fn functions_of(s: Plan) -> Arena
    ensures { result ≡ (lay_of s.sizes).functions }
{
    Arena {
        top: FUNCTIONS,
        base: places::functions_at(s),
        slots: s.sizes.functions,
        bodies: places::function_bodies_at(s),
        stride: FUNCTION_WORDS,
        width: 0,
    }
}

pub fn upvalues_of(s: Plan) -> Arena
    ensures { result ≡ (lay_of s.sizes).upvalues }
{
    Arena {
        top: UPVALUES,
        base: places::upvalues_at(s),
        slots: s.sizes.upvalues,
        bodies: places::upvalue_bodies_at(s),
        stride: UPVALUE_WORDS,
        width: 0,
    }
}

pub fn userdata_of(s: Plan) -> Arena
    ensures { result ≡ (lay_of s.sizes).userdata }
{
    Arena {
        top: USERDATA,
        base: places::userdata_at(s),
        slots: s.sizes.userdata,
        bodies: places::userdata_bodies_at(s),
        stride: USERDATA_WORDS,
        width: 0,
    }
}

pub fn threads_of(s: Plan) -> Arena
    ensures { result ≡ (lay_of s.sizes).threads }
{
    Arena {
        top: THREADS,
        base: places::threads_at(s),
        slots: s.sizes.threads,
        bodies: places::thread_bodies_at(s),
        stride: THREAD_WORDS,
        width: 0,
    }
}

pub fn gray_of(s: Plan) -> List
    ensures { result ≡ (lay_of s.sizes).gray }
{
    List {
        count: GRAY,
        base: places::gray_at(s),
        room: places::gray_room(s),
    }
}

pub fn grayagain_of(s: Plan) -> List
    ensures { result ≡ (lay_of s.sizes).grayagain }
{
    List {
        count: GRAYAGAIN,
        base: places::grayagain_at(s),
        room: places::grayagain_room(s),
    }
}

pub fn weak_of(s: Plan) -> List
    ensures { result ≡ (lay_of s.sizes).weak }
{
    List {
        count: WEAK,
        base: places::weak_at(s),
        room: places::weak_room(s),
    }
}

pub fn queue_of(s: Plan) -> List
    ensures { result ≡ (lay_of s.sizes).queue }
{
    List {
        count: QUEUE,
        base: places::queue_at(s),
        room: s.sizes.userdata,
    }
}

// Where the parts of the main record begin; each has as many places as its size says.
pub fn protos_at(s: Plan) -> usize
    ensures { result ≡ (lay_of s.sizes).protos.base }
{
    places::boundary_at(s)
}

pub fn stack_at(s: Plan) -> usize
    ensures { result ≡ (lay_of s.sizes).stack.base }
{
    places::stack_at(s)
}

pub fn opens_at(s: Plan) -> usize
    ensures { result ≡ (lay_of s.sizes).opens.base }
{
    places::opens_at(s)
}

pub fn frames_at(s: Plan) -> usize
    ensures { result ≡ (lay_of s.sizes).frames.base }
{
    places::frames_at(s)
}

// The words and the bytes of a heap of these sizes.
pub fn words_of(s: Plan) -> usize
    ensures { result ≡ (lay_of s.sizes).words }
{
    places::words_at(s)
}

pub fn bytes_of(s: Plan) -> usize
    ensures { result ≡ (lay_of s.sizes).bytes }
{
    STRING_BYTES * s.sizes.strings
}

// The whole layout, for calls that are not in a hurry.
pub fn lay_of(s: Plan) -> Lay
    ensures { result ≡ lay_of s.sizes }
{
    Lay {
        strings: strings_of(s),
        tables: tables_of(s),
        functions: functions_of(s),
        upvalues: upvalues_of(s),
        userdata: userdata_of(s),
        threads: threads_of(s),
        gray: gray_of(s),
        grayagain: grayagain_of(s),
        weak: weak_of(s),
        queue: queue_of(s),
        protos: Part {
            base: protos_at(s),
            room: s.sizes.protos,
        },
        stack: Part {
            base: stack_at(s),
            room: s.sizes.stack,
        },
        opens: Part {
            base: opens_at(s),
            room: s.sizes.opens,
        },
        frames: Part {
            base: frames_at(s),
            room: s.sizes.frames,
        },
        boundary: places::boundary_at(s),
        words: words_of(s),
        bytes: bytes_of(s),
    }
}

// The words and bytes that a heap of these sizes needs, or 4 where one lies outside its range.
pub fn needed(s: Sizes) -> Result<(usize, usize), Refusal>
    ensures { result ≡ needed_of s }
{
    let z = plan(s)?;
    Ok((words_of(z), bytes_of(z)))
}
