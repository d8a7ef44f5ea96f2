// What the programs that make steps share: a value, an item of a list and an answer, in words. A handle is its kind, index
// and generation. What prints takes the runtime, and returns a write's failure.
#![tactic(auto)]

use accounts::Answer;
use base::Refusal;
use lists::Item;
use print::{count, long, say};
use std::io;
use value::Value;

fn handle(rt: &impl Print, kind: &[u8], index: u32, generation: u32) -> io::Result<()> {
    count(rt, kind, index, b".")?;
    count(rt, b"", generation, b"")
}

pub fn value(rt: &impl Print, v: Value) -> io::Result<()> {
    match v {
        Value::Nil => say(rt, b"nil"),
        Value::Boolean(_) => say(rt, b"a boolean"),
        Value::Light(_) => say(rt, b"a light userdata"),
        Value::Number(_) => say(rt, b"a number"),
        Value::Str(r) => handle(rt, b"string ", r.0, r.1),
        Value::Table(r) => handle(rt, b"table ", r.0, r.1),
        Value::Function(r) => handle(rt, b"function ", r.0, r.1),
        Value::Userdata(r) => handle(rt, b"userdata ", r.0, r.1),
        Value::Thread(r) => handle(rt, b"thread ", r.0, r.1),
    }
}

pub fn item(rt: &impl Print, x: Item) -> io::Result<()> {
    match x {
        Item::Table(r) => value(rt, Value::Table(r)),
        Item::Function(r) => value(rt, Value::Function(r)),
        Item::Userdata(r) => value(rt, Value::Userdata(r)),
        Item::Thread(r) => value(rt, Value::Thread(r)),
        Item::Main => say(rt, b"main"),
        Item::Unknown => say(rt, b"unknown"),
    }
}

pub fn answer(rt: &impl Print, a: Result<Answer, Refusal>) -> io::Result<()> {
    match a {
        Ok(Answer::Stepped(c)) => long(rt, b"a step of cost ", c as u64, b"\n"),
        Ok(Answer::Unfinished) => say(rt, b"unfinished\n"),
        Ok(Answer::Ended) => say(rt, b"the cycle ended\n"),
        Ok(Answer::Passed) => say(rt, b"passed\n"),
        Ok(Answer::Handed(r, v)) => {
            value(rt, Value::Userdata(r))?;
            say(rt, b" is handed out with ")?;
            value(rt, v)?;
            say(rt, b"\n")
        }
        Ok(Answer::Busy) => say(rt, b"busy\n"),
        Ok(Answer::Failed) => say(rt, b"failed\n"),
        Err(n) => count(rt, b"refused ", n.number(), b"\n"),
    }
}
