// The answer of a call that steps, in numbers: a code, 0 or the number of a refusal, and six words lent for the rest.
#![tactic(auto)]

ghost use Rattle.std.specs.Prelude.{◌≡◌, ◌≤◌, length};
ghost use Rattle.step_codes.specs.Codes.{six, told};

use accounts::Answer;
use base::Refusal;
use value::Value;

// Six words of an answer.
fn put_six(out: &mut [u32], kind: u32, x: u32, y: u32, v: Value)
    requires { 6 ≤ length out.old }
    ensures { out.new ≡ six kind x y v out.old }
{
    base::put(out, 0, kind);
    base::put(out, 1, x);
    base::put(out, 2, y);
    value::write_value(out, 3, v);
}

// An answer in words; the number of a refusal leaves them as they are.
pub fn tell(out: &mut [u32], a: Result<Answer, Refusal>) -> u32
    requires { 6 ≤ length out.old }
    ensures { (result, out.new) ≡ told a out.old }
{
    match a {
        Ok(Answer::Stepped(c)) => {
            put_six(out, 0, (c % 4294967296) as u32, 0, Value::Nil);
            0
        }
        Ok(Answer::Unfinished) => {
            put_six(out, 1, 0, 0, Value::Nil);
            0
        }
        Ok(Answer::Ended) => {
            put_six(out, 2, 0, 0, Value::Nil);
            0
        }
        Ok(Answer::Passed) => {
            put_six(out, 3, 0, 0, Value::Nil);
            0
        }
        Ok(Answer::Handed(r, v)) => {
            put_six(out, 4, r.0, r.1, v);
            0
        }
        Ok(Answer::Busy) => {
            put_six(out, 5, 0, 0, Value::Nil);
            0
        }
        Ok(Answer::Failed) => {
            put_six(out, 6, 0, 0, Value::Nil);
            0
        }
        Err(n) => n.number(),
    }
}
