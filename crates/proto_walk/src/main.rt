// Words that no calls make: 256 prototypes, each of which nests the one below it eight times, so that 8^255 ways lead from the
// highest down to the lowest. A Lua closure of the highest is on the main stack. Single steps are made until it is traversed:
// since each number is walked once, that is at once, and the lowest prototype's constant is then black. The stored output is
// by document 01's costs.
#![tactic(auto)]

ghost use Rattle.std.specs.Prelude.{◌≤◌, ◌<◌};
ghost use Rattle.layout.specs.Layout.{lay_of};

use layout::{Plan, Sizes};
use main_record::prototypes::{
    set_proto_child, set_proto_constant, set_proto_counts, set_protos_used,
};
use part_reads::Slots;
use print::{count, say};
use reads::{Kind, Read};
use std::io;
use value::{FuncRef, StrRef, Value};

const SIZES: Sizes = Sizes {
    strings: 3,
    tables: 2,
    functions: 1,
    upvalues: 0,
    userdata: 0,
    threads: 0,
    protos: 256,
    stack: 1,
    opens: 0,
    frames: 1,
};

// Prototype n nests the one below it eight times.
fn nest(w: &mut [u32; 16472], l: Plan, n: usize)
    requires l_bound { (lay_of l.sizes).words ≤ 16472 }
    requires n_nonzero { (0 < n) × (n < 256) × (n < (lay_of l.sizes).protos.room) }
{
    set_proto_counts(w, l, n, 0, 8);
    for k in 0..8 {
        set_proto_child(w, l, n, k, n - 1);
    }
}

fn nest_all(w: &mut [u32; 16472], l: Plan)
    requires l_bound { (lay_of l.sizes).words ≤ 16472 }
{
    set_protos_used(w, 256);
    for n in 1..256 {
        if l.sizes.protos <= n {
            return;
        }
        nest(w, l, n);
    }
}

// The lowest has one constant, string 2, which nothing else has.
fn put_constant(rt: &impl Print, w: &mut [u32; 16472], l: Plan) -> io::Result<()>
    requires l_bound { (lay_of l.sizes).words ≤ 16472 }
{
    match arena::take_slot(w, layout::strings_of(l), 1, 1) {
        Ok((_, _)) => {
            if 0 < l.sizes.protos {
                set_proto_counts(w, l, 0, 1, 0);
                set_proto_constant(w, l, 0, 0, Value::Str(StrRef(2, 0)));
            }
            Ok(())
        }
        _ => say(rt, b"no slot for the string\n"),
    }
}

// The closure, with neither env nor upvalues, is the main stack's only value. It is function 0.
fn push_closure(w: &mut [u32; 16472], l: Plan, i: usize)
    requires l_bound { (lay_of l.sizes).words ≤ 16472 }
    requires i_bound { i < (lay_of l.sizes).functions.slots }
{
    let p = record::body_of(w, layout::functions_of(l), i);
    run_record::closures::set_closure_proto(w, p, 255);
    if 0 < l.sizes.stack {
        main_record::set_main_value(w, l, 0, Value::Function(FuncRef(0, 0)));
        main_record::set_main_top(w, 1);
    }
}

fn make_closure(rt: &impl Print, w: &mut [u32; 16472], l: Plan) -> io::Result<()>
    requires l_bound { (lay_of l.sizes).words ≤ 16472 }
{
    match arena::take_slot(w, layout::functions_of(l), 1, 5) {
        Ok((i, _)) => {
            push_closure(w, l, i);
            Ok(())
        }
        _ => say(rt, b"no slot for the closure\n"),
    }
}

fn is_black(w: &[u32], b: &[u8], k: Kind, i: u32) -> bool {
    match part_reads::read_arena(w, b, k, Slots::Colour(i)) {
        Ok(Read::Number(n)) => n == 4,
        _ => false,
    }
}

fn step(rt: &impl Print, w: &mut [u32], b: &mut [u8], n: u32) -> io::Result<()> {
    count(rt, b"step ", n, b": ")?;
    print_answer::answer(rt, steps::gc_singlestep(w, b))
}

fn traversed(rt: &impl Print, w: &[u32], b: &[u8], n: u32) -> io::Result<()> {
    count(
        rt,
        b"the closure of prototype 255 was traversed in ",
        n,
        b" steps\n",
    )?;
    if is_black(w, b, Kind::Strings, 2) {
        say(rt, b"the constant of prototype 0 is black\n")
    } else {
        say(rt, b"the constant of prototype 0 was not reached\n")
    }
}

fn walk(rt: &impl Print, w: &mut [u32; 16472], b: &mut [u8; 192]) -> io::Result<()> {
    for n in 1..100 {
        step(rt, w, b, n)?;
        if is_black(w, b, Kind::Functions, 0) {
            return traversed(rt, w, b, n);
        }
    }
    say(rt, b"not traversed in 99 steps\n")
}

fn walk_in(rt: &impl Print, w: &mut [u32; 16472], b: &mut [u8; 192], l: Plan) -> io::Result<()>
    requires l_bound { (lay_of l.sizes).words ≤ 16472 }
{
    nest_all(w, l);
    put_constant(rt, w, l)?;
    make_closure(rt, w, l)?;
    walk(rt, w, b)
}

fn show(rt: &impl Print, w: &mut [u32; 16472], b: &mut [u8; 192]) -> io::Result<()> {
    match layout::plan(SIZES) {
        Ok(l) => {
            if 16472 < layout::words_of(l) {
                return say(rt, b"too few words\n");
            }
            walk_in(rt, w, b, l)
        }
        Err(n) => count(rt, b"refused ", n.number(), b"\n"),
    }
}

fn main(rt: HostRuntime) -> io::Result<()> {
    let mut w = [0u32; 16472];
    let mut b = [0u8; 192];
    match newheap::make_heap(&mut w, &mut b, SIZES) {
        Ok(()) => show(&rt, &mut w, &mut b),
        Err(n) => count(&rt, b"refused ", n.number(), b"\n"),
    }
}
