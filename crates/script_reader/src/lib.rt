// A reader holds a line's bytes and a position. The functions over it are thin: the work is done on the slice and the number,
// in script_fields.
#![tactic(auto)]

ghost use Rattle.std.specs.Prelude.{◌≡◌};
ghost use Rattle.script_fields.specs.Fields.{word_at, number_at};

use script_fields::{Field, Word};

// The line's bytes and a position.
#[derive(Clone, Copy)]
pub struct Reader<'a> {
    pub line: &'a [u8],
    pub at: usize,
}

pub fn new<'a>(line: &'a [u8], at: usize) -> Reader<'a>
    ensures { (result.line ≡ line.entry) × (result.at ≡ at) }
{
    Reader { line, at }
}

// The word in the field at the reader's place.
pub fn next_word<'a>(r: Reader<'a>) -> Word
    ensures { result ≡ word_at r.entry.line.now r.entry.at }
{
    script_fields::word_at(r.line, r.at)
}

// The number in the field at the reader's place.
pub fn next_number<'a>(r: Reader<'a>) -> Field
    ensures { result ≡ number_at r.entry.line.now r.entry.at }
{
    script_fields::number_at(r.line, r.at)
}

// What a reader at this place of the line finds.
pub fn word_from(line: &[u8], at: usize) -> Word
    ensures { result ≡ word_at line.now at }
{
    next_word(new(line, at))
}

pub fn number_from(line: &[u8], at: usize) -> Field
    ensures { result ≡ number_at line.now at }
{
    next_number(new(line, at))
}
