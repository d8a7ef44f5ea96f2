// What a script prints (document 01, `heapscript`), into lent bytes from a place on. A byte that finds no room is left out.
// Each function answers the place past what it printed.
#![tactic(auto)]

ghost use Rattle.std.specs.Prelude.{◌≡◌, ◌++◌, ◌+◌, ◌-◌, ◌%◌, ◌≤◌, length, take, drop};
ghost use Rattle.script_bytes.specs.Bytes.{said};
ghost use Rattle.script_print.specs.Texts.{decimal, field, handle_text, final_line, object_line, three_fields, freed_line, refused_line, outcome_text};

use base::Refusal;
use script_bytes::say;
use value::{StrRef, TableRef, UdRef};

// How many objects of each kind, in sweep order.
#[derive(Clone, Copy)]
pub struct Counts {
    pub strings: u64,
    pub tables: u64,
    pub functions: u64,
    pub upvalues: u64,
    pub userdata: u64,
    pub threads: u64,
}

// How a line ended: with nothing to print, a made object and its number, the counts of what was freed, or a refusal.
#[derive(Clone, Copy)]
pub enum Outcome {
    Quiet,
    Str(u32, StrRef),
    Table(u32, TableRef),
    Userdata(u32, UdRef),
    Freed(Counts),
}

fn last_digit(n: u64) -> u8
    ensures { result ≡ 48 + n % 10 }
{
    48 + (n % 10) as u8
}

// A number's decimal digits in the last of 20 bytes. The place of the first.
fn spell(digits: &mut [u8], n: u64) -> usize
    requires { length digits.old ≡ 20 }
    ensures { (take (20 - result) (drop result digits.new) ≡ decimal n) × (result ≤ 20) }
{
    let mut rest = n;
    for i in (0..20).rev() {
        digits[i] = last_digit(rest);
        if rest < 10 {
            return i;
        }
        rest /= 10;
    }
    0
}

// A number in decimal digits.
fn say_number(out: &mut [u8], at: usize, n: u64) -> usize
    ensures { (result, out.new) ≡ said (decimal n) (at, out.old) }
{
    let mut digits = [0u8; 20];
    let i = spell(&mut digits, n);
    say(out, at, &digits[i..])
}

// A space and a number.
fn say_field(out: &mut [u8], at: usize, n: u64) -> usize
    ensures { (result, out.new) ≡ said (field n) (at, out.old) }
{
    let next = say(out, at, b" ");
    say_number(out, next, n)
}

// A slot and a generation, and the end of the line.
fn say_handle(out: &mut [u8], at: usize, slot: u32, generation: u32) -> usize
    ensures { (result, out.new) ≡ said (handle_text slot generation) (at, out.old) }
{
    let one = say_field(out, at, slot as u64);
    let two = say_field(out, one, generation as u64);
    say(out, two, b"\n")
}

// A finalizer that is handed out.
pub fn final_line(out: &mut [u8], at: usize, r: UdRef) -> usize
    ensures { (result, out.new) ≡ said (final_line r) (at, out.old) }
{
    let next = say(out, at, b"final");
    say_handle(out, next, r.0, r.1)
}

// A made object: its number, kind, slot and generation.
fn object_line(
    out: &mut [u8],
    at: usize,
    number: u32,
    kind: &[u8],
    slot: u32,
    generation: u32,
) -> usize
    ensures { (result, out.new) ≡ said (object_line number kind.now slot generation) (at, out.old) }
{
    let one = say_number(out, at, number as u64);
    let two = say(out, one, kind);
    say_handle(out, two, slot, generation)
}

fn say_three(out: &mut [u8], at: usize, a: u64, b: u64, c: u64) -> usize
    ensures { (result, out.new) ≡ said (three_fields a b c) (at, out.old) }
{
    let one = say_field(out, at, a);
    let two = say_field(out, one, b);
    say_field(out, two, c)
}

// What was freed.
fn freed_line(out: &mut [u8], at: usize, c: Counts) -> usize
    ensures { (result, out.new) ≡ said (freed_line c) (at, out.old) }
{
    let one = say(out, at, b"freed");
    let two = say_three(out, one, c.strings, c.tables, c.functions);
    let three = say_three(out, two, c.upvalues, c.userdata, c.threads);
    say(out, three, b"\n")
}

// A refused line.
fn refused_line(out: &mut [u8], at: usize, line: u64, n: u32) -> usize
    ensures { (result, out.new) ≡ said (refused_line line n) (at, out.old) }
{
    let one = say(out, at, b"line");
    let two = say_field(out, one, line);
    let three = say(out, two, b" refused");
    let four = say_field(out, three, n as u64);
    say(out, four, b"\n")
}

// How line number `line` ended.
pub fn outcome_line(out: &mut [u8], at: usize, line: u64, o: Result<Outcome, Refusal>) -> usize
    ensures { (result, out.new) ≡ said (outcome_text line o) (at, out.old) }
{
    match o {
        Ok(Outcome::Quiet) => at,
        Ok(Outcome::Str(k, r)) => object_line(out, at, k, b" str", r.0, r.1),
        Ok(Outcome::Table(k, r)) => object_line(out, at, k, b" tab", r.0, r.1),
        Ok(Outcome::Userdata(k, r)) => object_line(out, at, k, b" ud", r.0, r.1),
        Ok(Outcome::Freed(c)) => freed_line(out, at, c),
        Err(n) => refused_line(out, at, line, n.number()),
    }
}
