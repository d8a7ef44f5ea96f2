// The places of the parts, from sizes that lie within their ranges: each part begins where the one before it ends.
ghost use Rattle.std.specs.Prelude.{◌≡◌};
ghost use Rattle.layout.specs.Layout.{gray_room, grayagain_room, weak_room, tables_at, functions_at, upvalues_at, userdata_at, threads_at, gray_at, grayagain_at, weak_at, queue_at, boundary_of, stack_at, opens_at, frames_at, string_bodies_at, table_bodies_at, function_bodies_at, upvalue_bodies_at, userdata_bodies_at, thread_bodies_at, words_of};

use crate::{
    FUNCTION_WORDS, HANDLE_WORDS, HEADER, ITEM_WORDS, PROTO_WORDS, Plan, STRING_WORDS, TABLE_WORDS,
    THREAD_WORDS, UPVALUE_WORDS, USERDATA_WORDS, VALUE_WORDS,
};

// The room of the working lists.
pub fn gray_room(s: Plan) -> usize
    ensures { result ≡ gray_room s.sizes }
{
    s.sizes.tables + s.sizes.functions + s.sizes.threads + 1
}

pub fn grayagain_room(s: Plan) -> usize
    ensures { result ≡ grayagain_room s.sizes }
{
    s.sizes.tables + 2 * s.sizes.threads + 1
}

pub fn weak_room(s: Plan) -> usize
    ensures { result ≡ weak_room s.sizes }
{
    2 * s.sizes.tables
}

// The colours, generations, links and extents of each arena.
pub fn tables_at(s: Plan) -> usize
    ensures { result ≡ tables_at s.sizes }
{
    HEADER + 4 * s.sizes.strings
}

pub fn functions_at(s: Plan) -> usize
    ensures { result ≡ functions_at s.sizes }
{
    tables_at(s) + 4 * s.sizes.tables
}

pub fn upvalues_at(s: Plan) -> usize
    ensures { result ≡ upvalues_at s.sizes }
{
    functions_at(s) + 4 * s.sizes.functions
}

pub fn userdata_at(s: Plan) -> usize
    ensures { result ≡ userdata_at s.sizes }
{
    upvalues_at(s) + 4 * s.sizes.upvalues
}

pub fn threads_at(s: Plan) -> usize
    ensures { result ≡ threads_at s.sizes }
{
    userdata_at(s) + 4 * s.sizes.userdata
}

// The four lists.
pub fn gray_at(s: Plan) -> usize
    ensures { result ≡ gray_at s.sizes }
{
    threads_at(s) + 4 * s.sizes.threads
}

pub fn grayagain_at(s: Plan) -> usize
    ensures { result ≡ grayagain_at s.sizes }
{
    gray_at(s) + ITEM_WORDS * gray_room(s)
}

pub fn weak_at(s: Plan) -> usize
    ensures { result ≡ weak_at s.sizes }
{
    grayagain_at(s) + ITEM_WORDS * grayagain_room(s)
}

pub fn queue_at(s: Plan) -> usize
    ensures { result ≡ queue_at s.sizes }
{
    weak_at(s) + ITEM_WORDS * weak_room(s)
}

// The boundary; prototypes, main stack, main open list, frames.
pub fn boundary_at(s: Plan) -> usize
    ensures { result ≡ boundary_of s.sizes }
{
    queue_at(s) + ITEM_WORDS * s.sizes.userdata
}

pub fn stack_at(s: Plan) -> usize
    ensures { result ≡ stack_at s.sizes }
{
    boundary_at(s) + PROTO_WORDS * s.sizes.protos
}

pub fn opens_at(s: Plan) -> usize
    ensures { result ≡ opens_at s.sizes }
{
    stack_at(s) + VALUE_WORDS * s.sizes.stack
}

pub fn frames_at(s: Plan) -> usize
    ensures { result ≡ frames_at s.sizes }
{
    opens_at(s) + HANDLE_WORDS * s.sizes.opens
}

// The bodies of each arena, and the end of the words.
pub fn string_bodies_at(s: Plan) -> usize
    ensures { result ≡ string_bodies_at s.sizes }
{
    frames_at(s) + s.sizes.frames
}

pub fn table_bodies_at(s: Plan) -> usize
    ensures { result ≡ table_bodies_at s.sizes }
{
    string_bodies_at(s) + STRING_WORDS * s.sizes.strings
}

pub fn function_bodies_at(s: Plan) -> usize
    ensures { result ≡ function_bodies_at s.sizes }
{
    table_bodies_at(s) + TABLE_WORDS * s.sizes.tables
}

pub fn upvalue_bodies_at(s: Plan) -> usize
    ensures { result ≡ upvalue_bodies_at s.sizes }
{
    function_bodies_at(s) + FUNCTION_WORDS * s.sizes.functions
}

pub fn userdata_bodies_at(s: Plan) -> usize
    ensures { result ≡ userdata_bodies_at s.sizes }
{
    upvalue_bodies_at(s) + UPVALUE_WORDS * s.sizes.upvalues
}

pub fn thread_bodies_at(s: Plan) -> usize
    ensures { result ≡ thread_bodies_at s.sizes }
{
    userdata_bodies_at(s) + USERDATA_WORDS * s.sizes.userdata
}

pub fn words_at(s: Plan) -> usize
    ensures { result ≡ words_of s.sizes }
{
    thread_bodies_at(s) + THREAD_WORDS * s.sizes.threads
}
