// The fields of objects asked by number, the object by its handle, index x and generation g. An index that a field has no
// use for is not looked at.
ghost use Rattle.std.specs.Prelude.{◌≡◌};
ghost use Rattle.base.specs.Heap.{heap};
ghost use Rattle.asked.specs.Objects.{string_field_of, ask_string, table_field_of, ask_table, closure_field_of, ask_closure, upvalue_field_of, ask_upvalue, userdata_field_of, ask_userdata, thread_field_of, ask_thread, proto_field_of, ask_proto};

use crate::ask;
use base::Refusal;
use proto_reads::ProtoField;
use reads::Read;
use run_reads::{ClosureField, ThreadField, UpvalueField};
use table_reads::{StringField, TableField, UserdataField};
use value::{FuncRef, StrRef, TableRef, ThreadRef, UdRef, UpvalRef};

pub fn string_field_of(n: u32, i: u32) -> Option<StringField>
    ensures { result ≡ string_field_of n i }
{
    match n {
        0 => Some(StringField::Length),
        1 => Some(StringField::Byte(i)),
        _ => None,
    }
}

pub fn table_field_of(n: u32, i: u32) -> Option<TableField>
    ensures { result ≡ table_field_of n i }
{
    match n {
        0 => Some(TableField::Meta),
        1 => Some(TableField::Array),
        2 => Some(TableField::Nodes),
        3 => Some(TableField::At(i)),
        4 => Some(TableField::Key(i)),
        5 => Some(TableField::Val(i)),
        _ => None,
    }
}

pub fn closure_field_of(n: u32, i: u32) -> Option<ClosureField>
    ensures { result ≡ closure_field_of n i }
{
    match n {
        0 => Some(ClosureField::Rust),
        1 => Some(ClosureField::Env),
        2 => Some(ClosureField::Proto),
        3 => Some(ClosureField::Count),
        4 => Some(ClosureField::Upvalue(i)),
        5 => Some(ClosureField::Value(i)),
        _ => None,
    }
}

pub fn upvalue_field_of(n: u32) -> Option<UpvalueField>
    ensures { result ≡ upvalue_field_of n }
{
    match n {
        0 => Some(UpvalueField::Closed),
        1 => Some(UpvalueField::Value),
        _ => None,
    }
}

pub fn userdata_field_of(n: u32) -> Option<UserdataField>
    ensures { result ≡ userdata_field_of n }
{
    match n {
        0 => Some(UserdataField::Meta),
        1 => Some(UserdataField::Env),
        2 => Some(UserdataField::Creation),
        3 => Some(UserdataField::Finalized),
        _ => None,
    }
}

pub fn thread_field_of(n: u32, i: u32) -> Option<ThreadField>
    ensures { result ≡ thread_field_of n i }
{
    match n {
        0 => Some(ThreadField::Global),
        1 => Some(ThreadField::Hook),
        2 => Some(ThreadField::Error),
        3 => Some(ThreadField::Size),
        4 => Some(ThreadField::Top),
        5 => Some(ThreadField::Opens),
        6 => Some(ThreadField::Suspendeds),
        7 => Some(ThreadField::Open(i)),
        8 => Some(ThreadField::Suspended(i)),
        9 => Some(ThreadField::Stack(i)),
        _ => None,
    }
}

pub fn proto_field_of(n: u32, i: u32) -> Option<ProtoField>
    ensures { result ≡ proto_field_of n i }
{
    match n {
        0 => Some(ProtoField::Constants),
        1 => Some(ProtoField::Nested),
        2 => Some(ProtoField::Parent),
        3 => Some(ProtoField::Constant(i)),
        4 => Some(ProtoField::Child(i)),
        _ => None,
    }
}

pub fn ask_string(w: &[u32], b: &[u8], x: u32, g: u32, n: u32, i: u32) -> Result<Read, Refusal>
    ensures { result ≡ ask_string x g n i (heap w.now b.now) }
{
    ask(w, b, string_field_of(n, i), |q| {
        table_reads::read_string(w, b, StrRef(x, g), q)
    })
}

pub fn ask_table(w: &[u32], b: &[u8], x: u32, g: u32, n: u32, i: u32) -> Result<Read, Refusal>
    ensures { result ≡ ask_table x g n i (heap w.now b.now) }
{
    ask(w, b, table_field_of(n, i), |q| {
        table_reads::read_table(w, b, TableRef(x, g), q)
    })
}

pub fn ask_closure(w: &[u32], b: &[u8], x: u32, g: u32, n: u32, i: u32) -> Result<Read, Refusal>
    ensures { result ≡ ask_closure x g n i (heap w.now b.now) }
{
    ask(w, b, closure_field_of(n, i), |q| {
        run_reads::read_closure(w, b, FuncRef(x, g), q)
    })
}

pub fn ask_upvalue(w: &[u32], b: &[u8], x: u32, g: u32, n: u32) -> Result<Read, Refusal>
    ensures { result ≡ ask_upvalue x g n (heap w.now b.now) }
{
    ask(w, b, upvalue_field_of(n), |q| {
        run_reads::read_upvalue(w, b, UpvalRef(x, g), q)
    })
}

pub fn ask_userdata(w: &[u32], b: &[u8], x: u32, g: u32, n: u32) -> Result<Read, Refusal>
    ensures { result ≡ ask_userdata x g n (heap w.now b.now) }
{
    ask(w, b, userdata_field_of(n), |q| {
        table_reads::read_userdata(w, b, UdRef(x, g), q)
    })
}

pub fn ask_thread(w: &[u32], b: &[u8], x: u32, g: u32, n: u32, i: u32) -> Result<Read, Refusal>
    ensures { result ≡ ask_thread x g n i (heap w.now b.now) }
{
    ask(w, b, thread_field_of(n, i), |q| {
        run_reads::read_thread(w, b, ThreadRef(x, g), q)
    })
}

pub fn ask_proto(w: &[u32], b: &[u8], p: u32, n: u32, i: u32) -> Result<Read, Refusal>
    ensures { result ≡ ask_proto p n i (heap w.now b.now) }
{
    ask(w, b, proto_field_of(n, i), |q| {
        proto_reads::read_proto(w, b, p, q)
    })
}
