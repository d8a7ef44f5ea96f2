// The fields of a script's line (document 01, `heapscript`), parted by exactly one space: a command word, or a number.
#![tactic(auto)]

ghost use Rattle.std.specs.Prelude.{◌≡◌, ◌≤◌, ◌<◌, length};
ghost use Rattle.script_fields.specs.Fields.{field_end, Within, word_of, other_word, word_at, number_on, number_at};

// The nine command words, or none of them.
#[derive(Clone, Copy)]
pub enum Word {
    Str,
    Tab,
    Ud,
    Push,
    Pop,
    Seti,
    Setn,
    Meta,
    Collect,
    Unknown,
}

// A field that is a number: the line's last, or one that a field follows, which starts at the place given. Or no number.
#[derive(Clone, Copy)]
pub enum Field {
    Last(u32),
    Part(u32, usize),
    Bad,
}

// The place of the first space at or past `at`, or the end of the line.
pub fn field_end(line: &[u8], at: usize) -> usize
    ensures { (result ≡ field_end line.now at) × Within at result (length line.now) }
{
    for i in at..line.len() {
        if line[i] == b' ' {
            return i;
        }
    }
    at.max(line.len())
}

fn other_word(s: &[u8]) -> Word
    ensures { result ≡ other_word s.now }
{
    if record::strings::same_bytes(s, b"pop") {
        Word::Pop
    } else if record::strings::same_bytes(s, b"seti") {
        Word::Seti
    } else if record::strings::same_bytes(s, b"setn") {
        Word::Setn
    } else if record::strings::same_bytes(s, b"meta") {
        Word::Meta
    } else if record::strings::same_bytes(s, b"collect") {
        Word::Collect
    } else {
        Word::Unknown
    }
}

// The word that a field's bytes are.
fn word_of(s: &[u8]) -> Word
    ensures { result ≡ word_of s.now }
{
    if record::strings::same_bytes(s, b"str") {
        Word::Str
    } else if record::strings::same_bytes(s, b"tab") {
        Word::Tab
    } else if record::strings::same_bytes(s, b"ud") {
        Word::Ud
    } else if record::strings::same_bytes(s, b"push") {
        Word::Push
    } else {
        other_word(s)
    }
}

// The word in the field that starts at `at`.
pub fn word_at(line: &[u8], at: usize) -> Word
    ensures { result ≡ word_at line.now at }
{
    if line.len() < at {
        return Word::Unknown;
    }
    let end = field_end(line, at);
    word_of(&line[at..end])
}

// The number whose digits go on at `at`, up to a space or the end of the line.
fn number_on(line: &[u8], at: usize) -> Field
    ensures { result ≡ number_on line.now 0 at }
{
    let mut v: u64 = 0;
    for i in at..line.len() {
        let c = u64::from(line[i]);
        if c == 32 {
            return Field::Part(v as u32, i + 1);
        }
        if c < 48 || 57 < c {
            return Field::Bad;
        }
        v = v * 10 + (c - 48);
        if 4294967295 < v {
            return Field::Bad;
        }
    }
    Field::Last(v as u32)
}

// The number in the field that starts at `at`, which has a digit at least.
pub fn number_at(line: &[u8], at: usize) -> Field
    ensures { result ≡ number_at line.now at }
{
    if line.len() <= at || line[at] == b' ' {
        return Field::Bad;
    }
    number_on(line, at)
}
