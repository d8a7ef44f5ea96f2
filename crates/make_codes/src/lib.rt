// The calls that make, in numbers: lists of values, three words each, and how what was made is told.
#![tactic(auto)]

ghost use Rattle.std.specs.Prelude.{◌≡◌, ◌≤◌, length};
ghost use Rattle.make_codes.specs.Codes.{are_tags, made_told};

use base::Refusal;
use making::Made;

// Whether each value of a list has a tag: none is above 8. A rest that is no whole value is not looked at.
pub fn are_tags(s: &[u32]) -> bool
    ensures { result ≡ are_tags s.now }
{
    let n = s.len() / 3;
    for k in 0..n {
        if 8 < base::get(s, 3 * k) {
            return false;
        }
    }
    true
}

// The code of a call that makes, with what it made in words 0 and 1.
pub fn tell_made(out: &mut [u32], a: Result<Made, Refusal>) -> u32
    requires { 2 ≤ length out.old }
    ensures { (result, out.new) ≡ made_told a out.old }
{
    match a {
        Ok(Made::Str(r)) => {
            told::put_two(out, r.0, r.1);
            0
        }
        Ok(Made::Table(r)) => {
            told::put_two(out, r.0, r.1);
            0
        }
        Ok(Made::Function(r)) => {
            told::put_two(out, r.0, r.1);
            0
        }
        Ok(Made::Upvalue(r)) => {
            told::put_two(out, r.0, r.1);
            0
        }
        Ok(Made::Userdata(r)) => {
            told::put_two(out, r.0, r.1);
            0
        }
        Ok(Made::Thread(r)) => {
            told::put_two(out, r.0, r.1);
            0
        }
        Ok(Made::Proto(n)) => {
            told::put_two(out, n, 0);
            0
        }
        Err(n) => n.number(),
    }
}
