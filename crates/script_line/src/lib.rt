// A line of a script (document 01, `heapscript`): the command that its fields make, which a reader reads.
#![tactic(auto)]

ghost use Rattle.std.specs.Prelude.{◌≡◌, ◌≤◌, length};
ghost use Rattle.script_fields.specs.Fields.{number_at};
ghost use Rattle.script_line.specs.Lines.{counted, fourth, third, second, first, numbers_from, text_from, exactly, command_of, parse, TextWithin};

use script_fields::{Field, Word};

// The numbers in the fields after the first, and how many: 0 to 4, or 5 where a field is no number or there are more.
#[derive(Clone, Copy)]
pub struct Numbers {
    pub count: usize,
    pub a: u32,
    pub b: u32,
    pub c: u32,
    pub d: u32,
}

// A command. The text of `str` is the line from the place given on.
#[derive(Clone, Copy)]
pub enum Command {
    Str(usize),
    Tab(u32, u32),
    Ud,
    Push(u32),
    Pop,
    Seti(u32, u32, u32),
    Setn(u32, u32, u32, u32),
    Meta(u32, u32),
    Collect,
    Bad,
}

// The most bytes that a line may have.
pub const LONGEST: usize = 4096;

fn counted(count: usize, a: u32, b: u32, c: u32, d: u32) -> Numbers
    ensures { result ≡ counted count a b c d }
{
    Numbers { count, a, b, c, d }
}

// One to four numbers, those before the last given.
fn fourth(line: &[u8], at: usize, a: u32, b: u32, c: u32) -> Numbers
    ensures { result ≡ fourth a b c (number_at line.now at) }
{
    match script_reader::number_from(line, at) {
        Field::Last(d) => counted(4, a, b, c, d),
        _ => counted(5, 0, 0, 0, 0),
    }
}

fn third(line: &[u8], at: usize, a: u32, b: u32) -> Numbers
    ensures { result ≡ third line.now a b (number_at line.now at) }
{
    match script_reader::number_from(line, at) {
        Field::Last(c) => counted(3, a, b, c, 0),
        Field::Part(c, next) => fourth(line, next, a, b, c),
        Field::Bad => counted(5, 0, 0, 0, 0),
    }
}

fn second(line: &[u8], at: usize, a: u32) -> Numbers
    ensures { result ≡ second line.now a (number_at line.now at) }
{
    match script_reader::number_from(line, at) {
        Field::Last(b) => counted(2, a, b, 0, 0),
        Field::Part(b, next) => third(line, next, a, b),
        Field::Bad => counted(5, 0, 0, 0, 0),
    }
}

fn first(line: &[u8], at: usize) -> Numbers
    ensures { result ≡ first line.now (number_at line.now at) }
{
    match script_reader::number_from(line, at) {
        Field::Last(a) => counted(1, a, 0, 0, 0),
        Field::Part(a, next) => second(line, next, a),
        Field::Bad => counted(5, 0, 0, 0, 0),
    }
}

// The numbers in the fields after the one that ends at `end`.
fn numbers_from(line: &[u8], end: usize) -> Numbers
    ensures { result ≡ numbers_from line.now end }
{
    if line.len() <= end {
        return counted(0, 0, 0, 0, 0);
    }
    first(line, end + 1)
}

// TEXT is the rest of the line after one space.
fn text_from(line: &[u8], end: usize) -> Command
    ensures { (result ≡ text_from line.now end) × TextWithin result (length line.now) }
{
    if line.len() <= end {
        return Command::Bad;
    }
    Command::Str(end + 1)
}

// A command, if there are as many numbers as it asks for.
fn exactly(wanted: usize, count: usize, c: Command) -> Command
    ensures { result ≡ exactly wanted count c }
{
    if count == wanted {
        return c;
    }
    Command::Bad
}

// The command of a word, with its text or its numbers.
fn command_of(word: Word, text: Command, n: Numbers) -> Command
    ensures { result ≡ command_of word text n }
{
    let count = n.count;
    match word {
        Word::Str => text,
        Word::Tab => exactly(2, count, Command::Tab(n.a, n.b)),
        Word::Ud => exactly(0, count, Command::Ud),
        Word::Push => exactly(1, count, Command::Push(n.a)),
        Word::Pop => exactly(0, count, Command::Pop),
        Word::Seti => exactly(3, count, Command::Seti(n.a, n.b, n.c)),
        Word::Setn => exactly(4, count, Command::Setn(n.a, n.b, n.c, n.d)),
        Word::Meta => exactly(2, count, Command::Meta(n.a, n.b)),
        Word::Collect => exactly(0, count, Command::Collect),
        Word::Unknown => Command::Bad,
    }
}

// The command of a line. A line that is longer than any room is none.
pub fn parse(line: &[u8]) -> Command
    ensures { (result ≡ parse line.now) × TextWithin result (length line.now) }
{
    if LONGEST < line.len() {
        return Command::Bad;
    }
    let word = script_reader::word_from(line, 0);
    let end = script_fields::field_end(line, 0);
    let text = text_from(line, end);
    let numbers = numbers_from(line, end);
    command_of(word, text, numbers)
}
