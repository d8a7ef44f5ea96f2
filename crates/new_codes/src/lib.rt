// What a new heap needs, and making it, in numbers: the sizes are ten words, an answer is a code, 0 or the number of a refusal.
#![tactic(auto)]

ghost use Rattle.std.specs.Prelude.{◌≡◌, ◌<◌, length};
ghost use Rattle.base.specs.Words.{at};
ghost use Rattle.base.specs.Heap.{heap};
ghost use Rattle.new_codes.specs.NewCodes.{sizes_of, needed_in, needed_on, code_of, make_heap_on};

use base::Refusal;
use layout::Sizes;

// The word at p as a number.
fn number(s: &[u32], p: usize) -> usize
    requires { p < length s.now }
    ensures { result ≡ at s.now p }
{
    base::wide(s[p])
}

// The ten sizes that a heap is made with, in the order of `Sizes`.
fn sizes_of(s: &[u32]) -> Sizes
    requires { length s.now ≡ 10 }
    ensures { result ≡ sizes_of s.now }
{
    Sizes {
        strings: number(s, 0),
        tables: number(s, 1),
        functions: number(s, 2),
        upvalues: number(s, 3),
        userdata: number(s, 4),
        threads: number(s, 5),
        protos: number(s, 6),
        stack: number(s, 7),
        opens: number(s, 8),
        frames: number(s, 9),
    }
}

fn needed_in(s: Sizes, out: &mut [u32]) -> u32
    ensures { (result, out.new) ≡ needed_in s out.old }
{
    match layout::plan(s) {
        Ok(z) => {
            if out.len() < 2 {
                return Refusal::Unfit.number();
            }
            let words = layout::words_of(z);
            let bytes = layout::bytes_of(z);
            told::put_two(out, words as u32, bytes as u32);
            0
        }
        Err(n) => n.number(),
    }
}

// The words and bytes that a heap of these sizes needs: 0, with both in out; 4; or 1.
pub fn needed(sizes: &[u32], out: &mut [u32]) -> u32
    ensures { (result, out.new) ≡ needed_on sizes.now out.old }
{
    if sizes.len() != 10 {
        return Refusal::OutOfRange.number();
    }
    needed_in(sizes_of(sizes), out)
}

// Nothing but a code.
fn code(m: Result<(), Refusal>) -> u32
    ensures { result ≡ code_of m }
{
    match m {
        Ok(()) => 0,
        Err(n) => n.number(),
    }
}

// A new heap of these sizes in the two lent buffers: 0; 4; or 1.
pub fn make_heap(w: &mut [u32], b: &mut [u8], sizes: &[u32]) -> u32
    ensures { (result, heap w.new b.new) ≡ make_heap_on sizes.now (heap w.old b.old) }
{
    if sizes.len() != 10 {
        return Refusal::OutOfRange.number();
    }
    let m = newheap::make_heap(w, b, sizes_of(sizes));
    code(m)
}
