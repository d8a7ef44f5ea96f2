// The reads in numbers, for Rust or C: an answer as a code and four words. A number that asks nothing is refused with 4, after 1
// and 8.
#![tactic(auto)]

ghost use Rattle.std.specs.Prelude.{◌≡◌};
ghost use Rattle.base.specs.Heap.{heap};
ghost use Rattle.codes.specs.Numbers.{no_question};
ghost use Rattle.codes.specs.Answers.{handle_words, words_of, told};

use base::Refusal;
use reads::Read;

// What a number that names no question is answered.
pub fn no_question(w: &[u32], b: &[u8]) -> Result<Read, Refusal>
    ensures { result ≡ no_question (heap w.now b.now) }
{
    test1::enter(w, b)?;
    Err(Refusal::OutOfRange)
}

// A handle that may be missing: its kind, then 1 and the handle, or 0.
fn handle_words(k: u32, h: Option<(u32, u32)>) -> (u32, u32, u32, u32)
    ensures { result ≡ handle_words k h }
{
    h.map_or((k, 0, 0, 0), |(i, g)| (k, 1, i, g))
}

fn words_of(r: Result<Read, Refusal>) -> Result<(u32, u32, u32, u32), Refusal>
    ensures { result ≡ words_of r }
{
    Ok(match r? {
        Read::Number(n) => (0, base::low_half(n), base::high_half(n), 0),
        Read::Value(v) => (1, value::tag_of(v), value::low_of(v), value::high_of(v)),
        Read::Table(t) => handle_words(2, t.map(|r| (r.0, r.1))),
        Read::Str(s) => handle_words(3, s.map(|r| (r.0, r.1))),
        Read::Upvalue(u) => (4, u.0, u.1, 0),
        Read::Item(x) => (
            5,
            lists::kind_of(x),
            lists::index_of(x),
            lists::generation_of(x),
        ),
        Read::Userdata(d) => handle_words(6, d.map(|r| (r.0, r.1))),
    })
}

// The code of an answer, with its words in out.
pub fn tell(out: &mut [u32], r: Result<Read, Refusal>) -> u32
    ensures { (result, out.new) ≡ told r out.old }
{
    if out.len() < 4 {
        return Refusal::Unfit.number();
    }
    match words_of(r) {
        Ok((k, x, y, z)) => {
            base::put(out, 0, k);
            value::put3(out, 1, x, y, z);
            0
        }
        Err(n) => n.number(),
    }
}
