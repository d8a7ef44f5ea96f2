// A script's commands that make an object (document 01, `heapscript`), by the heap's public calls.
#![tactic(auto)]

ghost use Rattle.std.specs.Prelude.{◌≡◌, ◌<◌};
ghost use Rattle.base.specs.Heap.{heap};
ghost use Rattle.script_made.specs.Objects.{count_of, room_of};
ghost use Rattle.script_answers.specs.Answers.{script};
ghost use Rattle.script_makes.specs.Makes.{numbered, str_command, tab_command, ud_command};

use base::Refusal;
use making::Made;
use script_print::Outcome;
use value::Value;

// A made object takes the next number.
fn number_made(made: &mut [u32], m: Result<Made, Refusal>) -> Result<Outcome, Refusal>
    requires { count_of made.old < room_of made.old }
    ensures { (result, made.new) ≡ numbered m made.old }
{
    match m? {
        Made::Str(r) => {
            let k = script_made::add(made, Value::Str(r));
            Ok(Outcome::Str(k, r))
        }
        Made::Table(r) => {
            let k = script_made::add(made, Value::Table(r));
            Ok(Outcome::Table(k, r))
        }
        Made::Userdata(r) => {
            let k = script_made::add(made, Value::Userdata(r));
            Ok(Outcome::Userdata(k, r))
        }
        _ => Err(Refusal::OutOfRange),
    }
}

// `str TEXT`.
pub fn str_command(
    w: &mut [u32],
    b: &mut [u8],
    made: &mut [u32],
    text: &[u8],
) -> Result<Outcome, Refusal>
    ensures { (result, script (heap w.new b.new) made.new) ≡ str_command text.now (script (heap w.old b.old) made.old) }
{
    if script_made::is_full(made) {
        return Err(Refusal::OutOfRange);
    }
    let m = make_strings::make_string(w, b, text);
    number_made(made, m)
}

// `tab A N`.
pub fn tab_command(
    w: &mut [u32],
    b: &[u8],
    made: &mut [u32],
    array: u32,
    nodes: u32,
) -> Result<Outcome, Refusal>
    ensures { (result, script (heap w.new b.now) made.new) ≡ tab_command array nodes (script (heap w.old b.now) made.old) }
{
    if script_made::is_full(made) {
        return Err(Refusal::OutOfRange);
    }
    let m = make_tables::make_table(w, b, array, nodes);
    number_made(made, m)
}

// `ud`.
pub fn ud_command(w: &mut [u32], b: &[u8], made: &mut [u32]) -> Result<Outcome, Refusal>
    ensures { (result, script (heap w.new b.now) made.new) ≡ ud_command (script (heap w.old b.now) made.old) }
{
    if script_made::is_full(made) {
        return Err(Refusal::OutOfRange);
    }
    let m = make_tables::make_userdata(w, b);
    number_made(made, m)
}
