// Values read from words, odd ones too, said in words.
#![tactic(auto)]

use std::io;
use value::Value;

fn say(rt: &impl Print, text: &[u8]) -> io::Result<()> {
    rt.write_all(text)
}

// A value's kind.
fn say_value(rt: &impl Print, v: Value) -> io::Result<()> {
    match v {
        Value::Nil => say(rt, b"nil\n"),
        Value::Boolean(b) => say_truth(rt, b),
        Value::Light(_) => say(rt, b"light\n"),
        Value::Number(x) => say_number(rt, x),
        Value::Str(_) => say(rt, b"string\n"),
        Value::Table(_) => say(rt, b"table\n"),
        Value::Function(_) => say(rt, b"function\n"),
        Value::Userdata(_) => say(rt, b"userdata\n"),
        Value::Thread(_) => say(rt, b"thread\n"),
    }
}

fn say_truth(rt: &impl Print, b: bool) -> io::Result<()> {
    if b {
        say(rt, b"true\n")
    } else {
        say(rt, b"false\n")
    }
}

fn say_number(rt: &impl Print, x: u64) -> io::Result<()> {
    if value::is_nan(x) {
        say(rt, b"NaN\n")
    } else {
        say(rt, b"number\n")
    }
}

// The value of three words.
fn show(rt: &impl Print, tag: u32, low: u32, high: u32) -> io::Result<()> {
    let mut w = [0u32; 3];
    value::put3(&mut w, 0, tag, low, high);
    say_value(rt, value::read_value(&w, 0))
}

// Whether two numbers are one key.
fn compare(rt: &impl Print, a: u64, b: u64) -> io::Result<()> {
    say_truth(rt, value::key_equal(Value::Number(a), Value::Number(b)))
}

fn kinds(rt: &impl Print) -> io::Result<()> {
    show(rt, 0, 5, 5)?;
    show(rt, 1, 0, 9)?;
    show(rt, 1, 7, 0)?;
    show(rt, 2, 1, 2)?;
    show(rt, 3, 0, 0)?;
    show(rt, 4, 1, 2)?;
    show(rt, 5, 1, 2)?;
    show(rt, 6, 1, 2)?;
    show(rt, 7, 1, 2)?;
    show(rt, 8, 1, 2)?;
    show(rt, 9, 1, 2)?;
    show(rt, 4294967295, 1, 2)
}

fn numbers(rt: &impl Print) -> io::Result<()> {
    show(rt, 3, 0, 2146435072)?;
    show(rt, 3, 1, 2146435072)?;
    show(rt, 3, 0, 4294443008)?;
    compare(rt, 0, 9223372036854775808)?;
    compare(rt, 9221120237041090560, 9221120237041090560)?;
    compare(rt, 4607182418800017408, 4607182418800017408)?;
    compare(rt, 4607182418800017408, 4611686018427387904)
}

fn main(rt: HostRuntime) -> io::Result<()> {
    kinds(&rt)?;
    numbers(&rt)
}
