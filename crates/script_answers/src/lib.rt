// What a script's commands (document 01, `heapscript`) make of the heap's answers, and of the made objects that they are given.
#![tactic(auto)]

ghost use Rattle.std.specs.Prelude.{◌≡◌};
ghost use Rattle.script_answers.specs.Answers.{of_served, of_got, table_of, meta_of};

use base::Refusal;
use script_print::Outcome;
use value::{TableRef, Value};

pub fn of_served(a: Result<(), Refusal>) -> Result<Outcome, Refusal>
    ensures { result ≡ of_served a }
{
    a?;
    Ok(Outcome::Quiet)
}

pub fn of_got(a: Result<Value, Refusal>) -> Result<Outcome, Refusal>
    ensures { result ≡ of_got a }
{
    a?;
    Ok(Outcome::Quiet)
}

pub fn table_of(o: Option<Value>) -> Option<TableRef>
    ensures { result ≡ table_of o }
{
    match o? {
        Value::Table(r) => Some(r),
        _ => None,
    }
}

pub fn meta_of(o: Option<Value>) -> Option<Option<TableRef>>
    ensures { result ≡ meta_of o }
{
    match o? {
        Value::Nil => Some(None),
        Value::Table(r) => Some(Some(r)),
        _ => None,
    }
}
