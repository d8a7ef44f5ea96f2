// A script's command `collect` (document 01, `heapscript`): a full collection, the finalizers that it hands out printed in lent
// bytes, and what was freed.
#![tactic(auto)]

ghost use Rattle.std.specs.Prelude.{◌≡◌};
ghost use Rattle.base.specs.Heap.{heap};
ghost use Rattle.script_collect.specs.Collects.{count_in, counts_in, lost, ended, handing, collecting};

use accounts::Answer;
use base::Refusal;
use part_reads::Slots;
use reads::{Kind, Read};
use script_print::{Counts, Outcome};

// The answer of a collection's last call, and the place past what is printed.
#[derive(Clone, Copy)]
pub struct Handing {
    pub answer: Result<Answer, Refusal>,
    pub next: usize,
}

// How a command ended, and the place past what is printed.
#[derive(Clone, Copy)]
pub struct Told {
    pub outcome: Result<Outcome, Refusal>,
    pub next: usize,
}

// The occupied slots of an arena.
fn count_in(w: &[u32], b: &[u8], k: Kind) -> u64
    ensures { result ≡ count_in k (heap w.now b.now) }
{
    match part_reads::read_arena(w, b, k, Slots::Count) {
        Ok(Read::Number(n)) => n,
        _ => 0,
    }
}

fn counts_in(w: &[u32], b: &[u8]) -> Counts
    ensures { result ≡ counts_in (heap w.now b.now) }
{
    Counts {
        strings: count_in(w, b, Kind::Strings),
        tables: count_in(w, b, Kind::Tables),
        functions: count_in(w, b, Kind::Functions),
        upvalues: count_in(w, b, Kind::Upvalues),
        userdata: count_in(w, b, Kind::Userdata),
        threads: count_in(w, b, Kind::Threads),
    }
}

// What was freed.
fn lost(x: Counts, y: Counts) -> Counts
    ensures { result ≡ lost x y }
{
    Counts {
        strings: x.strings.saturating_sub(y.strings),
        tables: x.tables.saturating_sub(y.tables),
        functions: x.functions.saturating_sub(y.functions),
        upvalues: x.upvalues.saturating_sub(y.upvalues),
        userdata: x.userdata.saturating_sub(y.userdata),
        threads: x.threads.saturating_sub(y.threads),
    }
}

// Each finalizer that is handed out is printed and succeeds, until none is: at most `most` of them.
fn finals(
    w: &mut [u32],
    b: &mut [u8],
    out: &mut [u8],
    first: Result<Answer, Refusal>,
    most: u64,
) -> Handing
    ensures { ((result.answer, heap w.new b.new), (result.next, out.new)) ≡ handing most first (heap w.old b.old) (0, out.old) }
{
    let mut a = first;
    let mut next: usize = 0;
    for _ in 0..most {
        let Ok(Answer::Handed(r, _)) = a else {
            return Handing { answer: a, next };
        };
        next = script_print::final_line(out, next, r);
        a = steps::finish(w, b, true);
    }
    Handing { answer: a, next }
}

// How a collection ended.
fn ended(
    w: &[u32],
    b: &[u8],
    before: Counts,
    a: Result<Answer, Refusal>,
) -> Result<Outcome, Refusal>
    ensures { result ≡ ended before (heap w.now b.now) a }
{
    a?;
    Ok(Outcome::Freed(lost(before, counts_in(w, b))))
}

// `collect`.
pub fn collect_command(w: &mut [u32], b: &mut [u8], out: &mut [u8]) -> Told
    ensures { ((result.outcome, heap w.new b.new), (result.next, out.new)) ≡ collecting (heap w.old b.old) (0, out.old) }
{
    let before = counts_in(w, b);
    let a = steps::full_gc(w, b);
    let h = finals(w, b, out, a, before.userdata);
    let answer = h.answer;
    let outcome = ended(w, b, before, answer);
    Told {
        outcome,
        next: h.next,
    }
}
