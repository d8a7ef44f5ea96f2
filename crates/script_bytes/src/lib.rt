// Bytes kept one after another in lent bytes, as long as there is room: a text that is printed, and a line that is gathered
// from an input that comes in parts.
#![tactic(auto)]

ghost use Rattle.std.specs.Prelude.{◌≡◌};
ghost use Rattle.script_bytes.specs.Bytes.{kept, said, gather};

// The place past what was read of the part, how many bytes of the line are gathered, and whether the line is whole.
#[derive(Clone, Copy)]
pub struct Gathered {
    pub next: usize,
    pub count: usize,
    pub whole: bool,
}

// A byte at place n, if there is room. The place past it.
fn keep(out: &mut [u8], n: usize, c: u8) -> usize
    ensures { (result, out.new) ≡ kept c (n, out.old) }
{
    if n < out.len() {
        out[n] = c;
        n + 1
    } else {
        n
    }
}

// A text from place n on. The place past it.
pub fn say(out: &mut [u8], n: usize, text: &[u8]) -> usize
    ensures { (result, out.new) ≡ said text.now (n, out.old) }
{
    let mut p = n;
    for i in 0..text.len() {
        p = keep(out, p, text[i]);
    }
    p
}

// The bytes of a part from `from` on, up to a newline or the part's end, after the first `count` bytes of the line.
pub fn gather(part: &[u8], from: usize, line: &mut [u8], count: usize) -> Gathered
    ensures { (result, line.new) ≡ gather part.now from (count, line.old) }
{
    let mut n = count;
    for i in from..part.len() {
        let c = part[i];
        if c == b'\n' {
            return Gathered {
                next: i + 1,
                count: n,
                whole: true,
            };
        }
        n = keep(line, n, c);
    }
    Gathered {
        next: from.max(part.len()),
        count: n,
        whole: false,
    }
}
