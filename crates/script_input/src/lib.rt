// Where the reading of a script stands. Its input comes in parts; a line's bytes are gathered in lent bytes, and lines are
// numbered from 1, each of them, also the empty ones.
#![tactic(auto)]

ghost use Rattle.std.specs.Prelude.{◌≡◌, ◌≤◌, ◌<◌, length};
ghost use Rattle.script_input.specs.Input.{started, renewed, read_on, passed, is_left, Onward};

use script_bytes::Gathered;

// The place in the part, how many bytes of the line are gathered, whether the line is whole, and the line's number.
#[derive(Clone, Copy)]
pub struct Reading {
    pub at: usize,
    pub count: usize,
    pub whole: bool,
    pub number: u64,
}

// Before the first part.
pub fn start() -> Reading
    ensures { result ≡ started }
{
    Reading {
        at: 0,
        count: 0,
        whole: false,
        number: 1,
    }
}

// At the start of the next part.
pub fn renew(s: Reading) -> Reading
    ensures { result ≡ renewed s }
{
    Reading {
        at: 0,
        count: s.count,
        whole: s.whole,
        number: s.number,
    }
}

// The part is read up to a newline or its end.
pub fn read_on(part: &[u8], line: &mut [u8], s: Reading) -> Reading
    ensures { ((result, line.new) ≡ read_on part.now s line.old) × Onward part.now line.old s result }
{
    let g = script_bytes::gather(part, s.at, line, s.count);
    Reading {
        at: g.next,
        count: g.count,
        whole: g.whole,
        number: s.number,
    }
}

// Past a line that was run.
pub fn pass(s: Reading) -> Reading
    ensures { result ≡ passed s }
{
    let number = base::add_sat(s.number, 1);
    Reading {
        at: s.at,
        count: 0,
        whole: false,
        number,
    }
}

// Whether the input's end leaves a last line, with no newline.
pub fn is_left(s: Reading) -> bool
    ensures { result ≡ is_left s }
{
    0 < s.count
}
