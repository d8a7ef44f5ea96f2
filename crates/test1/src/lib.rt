// Test 1: what every call asks of the header, in the order and words of specs/Test1.antt.
// It reads the header alone, 34 of its 91 words with the damage mark, and the two lengths: its cost does not grow with the slots.
#![tactic(auto)]

ghost use Rattle.std.specs.Prelude.{◌≡◌, ℕ, ◌+◌, ◌≤◌, ◌<◌, length};
ghost use Rattle.layout.specs.Table.{all};
ghost use Rattle.layout.specs.Plans.{sizes_given};
ghost use Rattle.layout.specs.Fits.{Gives};
ghost use Rattle.test1.specs.Test1.{sizes_at, arena_rows, arenas_fit, list_rows, main_rows, state_rows, counts_fit, opened};

use base::{Refusal, wide};
use layout::{Plan, Sizes};

// The ten sizes stand first.
fn sizes_at(w: &[u32]) -> Sizes
    requires { 91 ≤ length w.now }
    ensures { result ≡ sizes_at w.now }
{
    Sizes {
        strings: wide(w[0]),
        tables: wide(w[1]),
        functions: wide(w[2]),
        upvalues: wide(w[3]),
        userdata: wide(w[4]),
        threads: wide(w[5]),
        protos: wide(w[6]),
        stack: wide(w[7]),
        opens: wide(w[8]),
        frames: wide(w[9]),
    }
}

// An arena: the fresh index is at most the slots, the count of occupied slots at most the fresh index.
fn arena_fits(w: &[u32], top: usize, slots: usize) -> bool
    requires in_bounds { 91 ≤ length w.now }
    requires top_bound { top < 89 }
    ensures { result ≡ all (arena_rows w.now top slots) }
{
    (wide(w[top + 1]) <= slots) & (w[top + 2] <= w[top + 1])
}

fn arenas_fit(w: &[u32], l: Plan) -> bool
    requires { 91 ≤ length w.now }
    ensures { result ≡ arenas_fit w.now l.sizes }
{
    arena_fits(w, layout::STRINGS, l.sizes.strings)
        & arena_fits(w, layout::TABLES, l.sizes.tables)
        & arena_fits(w, layout::FUNCTIONS, l.sizes.functions)
        & arena_fits(w, layout::UPVALUES, l.sizes.upvalues)
        & arena_fits(w, layout::USERDATA, l.sizes.userdata)
        & arena_fits(w, layout::THREADS, l.sizes.threads)
}

// The four lists: each count is at most the room.
fn lists_fit(w: &[u32], l: Plan) -> bool
    requires { 91 ≤ length w.now }
    ensures { result ≡ all (list_rows w.now l.sizes) }
{
    (wide(w[layout::GRAY]) <= l.sizes.tables + l.sizes.functions + l.sizes.threads + 1)
        & (wide(w[layout::GRAYAGAIN]) <= l.sizes.tables + 2 * l.sizes.threads + 1)
        & (wide(w[layout::WEAK]) <= 2 * l.sizes.tables)
        & (wide(w[layout::QUEUE]) <= l.sizes.userdata)
}

// Prototypes used; the main thread's top, open count, and ci, which is below the frames.
fn main_fits(w: &[u32], l: Plan) -> bool
    requires { 91 ≤ length w.now }
    ensures { result ≡ all (main_rows w.now l.sizes) }
{
    (wide(w[layout::PROTOTYPES]) <= l.sizes.protos)
        & (wide(w[layout::TOP]) <= l.sizes.stack)
        & (wide(w[layout::OPENS]) <= l.sizes.opens)
        & (wide(w[layout::CI]) < l.sizes.frames)
}

// Five phases, two whites; tracked total at most 2^31 - 1.
fn state_fits(w: &[u32]) -> bool
    requires { 91 ≤ length w.now }
    ensures { result ≡ all (state_rows w.now) }
{
    (w[layout::PHASE] <= 4)
        & (1 <= w[layout::WHITE])
        & (w[layout::WHITE] <= 2)
        & (w[layout::TOTAL] <= 2147483647)
}

fn counts_fit(w: &[u32], l: Plan) -> bool
    requires { 91 ≤ length w.now }
    ensures { result ≡ counts_fit w.now l.sizes }
{
    arenas_fit(w, l) & lists_fit(w, l) & main_fits(w, l) & state_fits(w)
}

// What every call begins with: test 1, then the damage mark, else the sizes of its layout. It reads the header alone and the
// two lengths, so its cost does not grow with the slots.
pub fn enter(w: &[u32], b: &[u8]) -> Result<Plan, Refusal>
    ensures { (sizes_given result ≡ opened w.now (length b.now)) × Gives (sizes_given result) (length w.now) (length b.now) }
{
    if w.len() < layout::HEADER {
        return Err(Refusal::Unfit);
    }
    let s = sizes_at(w);
    if !layout::sizes_fit(s) {
        return Err(Refusal::Unfit);
    }
    let l = Plan { sizes: s };
    if !counts_fit(w, l) {
        return Err(Refusal::Unfit);
    }
    if w.len() < layout::words_of(l) {
        return Err(Refusal::Unfit);
    }
    if b.len() < layout::bytes_of(l) {
        return Err(Refusal::Unfit);
    }
    if base::get(w, layout::DAMAGE) != 0 {
        return Err(Refusal::Damaged);
    }
    Ok(l)
}
