// What the programs that read lines of text share: the text itself, the number at or past a place, and the place past a
// line's end.
#![tactic(auto)]

ghost use Rattle.std.specs.Prelude.{◌≡◌, ◌≤◌, ◌<◌, length, IfOk, OnErr};

use std::io;
use std::io::Read;

// Reads until `text` is full or the input ends, and returns how many bytes it put at the start of `text`. A read that
// fails is returned; `text` then holds what was read before it.
pub fn read_full(input: &mut impl Read, text: &mut [u8]) -> io::Result<usize>
    ensures ok { IfOk result (λ n. n ≤ length text.new) }
    ensures err { OnErr result (length text.new ≡ length text.old) }
{
    let mut done: usize = 0;
    while done < text.len() {
        let n = input.read(&mut text[done..])?;
        if n == 0 {
            return Ok(done);
        }
        done += n;
    }
    Ok(done)
}

// A number, and the place past it.
#[derive(Clone, Copy)]
pub struct Number {
    pub value: u32,
    pub next: usize,
}

// The place of the first digit at or past `at`, before the line's end, or that end.
fn digits_at(s: &[u8], at: usize) -> usize
    requires { at ≤ length s.now }
    ensures { (at ≤ result) × (result ≤ length s.now) }
{
    for i in at..s.len() {
        if s[i].is_ascii_digit() || s[i] == b'\n' {
            return i;
        }
    }
    s.len()
}

// A number with one more digit, which stops at 32 bits.
fn longer(value: u32, digit: u8) -> u32 {
    let long = u64::from(value) * 10 + u64::from(digit);
    if long < 4294967296 {
        long as u32
    } else {
        4294967295
    }
}

// The number at or past `at` on this line, 0 if there is none.
pub fn number_at(s: &[u8], at: usize) -> Number
    requires { at ≤ length s.now }
    ensures { (at ≤ result.next) × (result.next ≤ length s.now) }
{
    let mut value: u32 = 0;
    for i in digits_at(s, at)..s.len() {
        let c = s[i];
        if !c.is_ascii_digit() {
            return Number { value, next: i };
        }
        value = longer(value, c - b'0');
    }
    Number {
        value,
        next: s.len(),
    }
}

// The place past this line's end.
pub fn line_end(s: &[u8], at: usize) -> usize
    requires { at < length s.now }
    ensures { (at < result) × (result ≤ length s.now) }
{
    for i in at..s.len() {
        if s[i] == b'\n' {
            return i + 1;
        }
    }
    s.len()
}
