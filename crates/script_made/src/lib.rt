// The table of a script's made objects, in lent words: word 0 is how many there are, then three words for each, its value in
// the order of their numbers from 1. It has room for 4,096, or for fewer where the words are fewer.
#![tactic(auto)]

ghost use Rattle.std.specs.Prelude.{◌≡◌, ◌≤◌, ◌<◌, length};
ghost use Rattle.script_made.specs.Objects.{room_of, count_of, object_of, is_full, added};

use value::Value;

// The most made objects.
pub const MOST: usize = 4096;

// How many objects the words have room for.
fn room_of(made: &[u32]) -> usize
    ensures { result ≡ room_of made.now }
{
    (made.len().saturating_sub(1) / 3).min(MOST)
}

// How many objects were made. A count past the room reads as the room.
fn count_of(made: &[u32]) -> usize
    ensures { result ≡ count_of made.now }
{
    let room = room_of(made);
    if room == 0 {
        0
    } else {
        base::wide(made[0]).min(room)
    }
}

// What a number names.
pub fn object_of(made: &[u32], k: u32) -> Option<Value>
    ensures { result ≡ object_of made.now k }
{
    let n = base::wide(k);
    if n == 0 {
        Some(Value::Nil)
    } else if count_of(made) < n {
        None
    } else {
        Some(value::read_value(made, 3 * n - 2))
    }
}

// Whether there is no room for one more object.
pub fn is_full(made: &[u32]) -> bool
    ensures { result ≡ is_full made.now }
{
    room_of(made) <= count_of(made)
}

// One more object. Its number.
pub fn add(made: &mut [u32], v: Value) -> u32
    requires { count_of made.old < room_of made.old }
    ensures { (result, made.new) ≡ added v made.old }
{
    let n = count_of(made);
    value::write_value(made, 3 * n + 1, v);
    let number = (n + 1) as u32;
    made[0] = number;
    number
}
