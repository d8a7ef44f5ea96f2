// A line of a script (document 01, `heapscript`): read, obeyed by the heap's public calls, and answered in lent bytes.
#![tactic(auto)]

ghost use Rattle.std.specs.Prelude.{◌≡◌, ◌≤◌, length};
ghost use Rattle.base.specs.Heap.{heap};
ghost use Rattle.script_line.specs.Lines.{TextWithin};
ghost use Rattle.script_answers.specs.Answers.{script};
ghost use Rattle.script_run.specs.Runs.{run_line, printed, obeying};

use base::Refusal;
use script_collect::Told;
use script_line::Command;
use script_print::Outcome;

fn plain(outcome: Result<Outcome, Refusal>) -> Told
    ensures { (result.outcome ≡ outcome) × (result.next ≡ 0) }
{
    Told { outcome, next: 0 }
}

// A command is obeyed, and the finalizers that it hands out are printed.
fn obey(
    w: &mut [u32],
    b: &mut [u8],
    made: &mut [u32],
    out: &mut [u8],
    line: &[u8],
    c: Command,
) -> Told
    requires { TextWithin c (length line.now) }
    ensures { ((result.outcome, script (heap w.new b.new) made.new), (result.next, out.new)) ≡ obeying line.now c (script (heap w.old b.old) made.old) (0, out.old) }
{
    match c {
        Command::Str(i) => plain(script_makes::str_command(w, b, made, &line[i..])),
        Command::Tab(a, n) => plain(script_makes::tab_command(w, b, made, a, n)),
        Command::Ud => plain(script_makes::ud_command(w, b, made)),
        Command::Push(k) => plain(script_calls::push_command(w, b, made, k)),
        Command::Pop => plain(script_calls::pop_command(w, b, made)),
        Command::Seti(t, i, k) => plain(script_calls::seti_command(w, b, made, t, i, k)),
        Command::Setn(t, j, k, v) => plain(script_calls::setn_command(w, b, made, t, j, k, v)),
        Command::Meta(k, t) => plain(script_calls::meta_command(w, b, made, k, t)),
        Command::Collect => script_collect::collect_command(w, b, out),
        Command::Bad => plain(Err(Refusal::OutOfRange)),
    }
}

// Line number `number` of a script is run. How many bytes it prints, which stand at the start of `out`.
pub fn run_line(
    w: &mut [u32],
    b: &mut [u8],
    made: &mut [u32],
    out: &mut [u8],
    line: &[u8],
    number: u64,
) -> usize
    ensures made_after { ((result, out.new), script (heap w.new b.new) made.new) ≡ printed out.old (run_line line.now number (script (heap w.old b.old) made.old)) }
    ensures upper_bound { result ≤ length out.old }
{
    let c = script_line::parse(line);
    let t = obey(w, b, made, out, line, c);
    let outcome = t.outcome;
    script_print::outcome_line(out, t.next, number, outcome)
}
