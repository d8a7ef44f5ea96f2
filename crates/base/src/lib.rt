// The leaves that every crate cites: a word or two read and written, sums and counts that stop at their ends.
#![tactic(auto)]

ghost use Rattle.std.specs.Prelude.{◌≡◌, ℕ, ◌+◌, ◌-◌, ◌*◌, ◌/◌, ◌%◌, ◌^◌, ◌≤◌, ◌<◌, min, length};
ghost use Rattle.base.specs.Words.{at, put, clear, join, get64, put64, add_sat, more, bounded};
ghost use Rattle.base.specs.Refusals.{number};

// The refusals of document 01, in the order of their numbers, and any other number.
#[derive(Clone, Copy, PartialEq, Eq)]
pub enum Refusal {
    // A buffer is too short, or a stored size, count, phase or current white lies outside its range.
    Unfit,
    // A handle names no occupied slot of its kind.
    Stale,
    // Every slot is occupied, or every prototype number used.
    Full,
    // An index, length or size outside its range.
    OutOfRange,
    // What is asked does not fit the state: no finalizer is out, an upvalue is closed or open, a stack is empty.
    WrongState,
    // The tracked total would pass its end.
    TooLarge,
    // The total ended above the limit.
    OverLimit,
    // The damage mark is set.
    Damaged,
    // A number without a name here. No call of document 01 answers it; what tells an answer or hands it on takes any number.
    Other(u32),
}

impl Refusal {
    // Its number in document 01.
    pub fn number(self) -> u32
        ensures { result ≡ number self }
    {
        match self {
            Refusal::Unfit => 1,
            Refusal::Stale => 2,
            Refusal::Full => 3,
            Refusal::OutOfRange => 4,
            Refusal::WrongState => 5,
            Refusal::TooLarge => 6,
            Refusal::OverLimit => 7,
            Refusal::Damaged => 8,
            Refusal::Other(n) => n,
        }
    }
}

// The number that it is given. The crates that hold definitions and theorems alone hand this on.
pub fn same(x: u32) -> u32
    ensures { result ≡ x }
{
    std::convert::identity(x)
}

// A word as an index or a count.
pub fn wide(x: u32) -> usize
    ensures { (result ≡ x) × (result < 2 ^ 32) }
{
    x as usize
}

pub fn get(w: &[u32], p: usize) -> u32
    requires { p < length w.now }
    ensures { result ≡ at w.now p }
{
    w[p]
}

pub fn put(w: &mut [u32], p: usize, x: u32)
    requires { p < length w.old }
    ensures { w.new ≡ put p x w.old }
{
    w[p] = x;
}

// The two words of a number of 64 bits.
pub fn joined(low: u32, high: u32) -> u64
    ensures { result ≡ join low high }
{
    (low as u64) + (high as u64) * 4294967296
}

pub fn low_half(x: u64) -> u32
    ensures { result ≡ x % 4294967296 }
{
    (x % 4294967296) as u32
}

pub fn high_half(x: u64) -> u32
    ensures { result ≡ x / 4294967296 }
{
    (x / 4294967296) as u32
}

// A number of 64 bits in two words, the low one first.
pub fn get64(w: &[u32], p: usize) -> u64
    requires { p + 1 < length w.now }
    ensures { result ≡ get64 w.now p }
{
    joined(get(w, p), get(w, p + 1))
}

pub fn put64(w: &mut [u32], p: usize, x: u64)
    requires { p + 1 < length w.old }
    ensures { w.new ≡ put64 p x w.old }
{
    put(w, p, low_half(x));
    put(w, p + 1, high_half(x));
}

// The sum, which stops at the end of 64 bits.
pub fn add_sat(x: u64, y: u64) -> u64
    ensures { result ≡ add_sat x y }
{
    x.saturating_add(y)
}

// The difference, which stops at 0.
pub fn sub_sat(x: u64, y: u64) -> u64
    ensures { result ≡ x - y }
{
    x.saturating_sub(y)
}

// A count is one more. It stops at the end of 32 bits, which no count within its range comes near.
pub fn count_up(x: u32) -> u32
    ensures { result ≡ more x }
{
    x.saturating_add(1)
}

// A count is one less. It stops at 0.
pub fn count_down(x: u32) -> u32
    ensures { result ≡ x - 1 }
{
    x.saturating_sub(1)
}

// A stored size or count as it is read: one past its range is 0.
pub fn within(x: u32, most: usize) -> usize
    ensures { (result ≡ bounded x most) × (result ≤ most) }
{
    let n = wide(x);
    if n <= most { n } else { 0 }
}

// Words p to p + n - 1 are made 0.
pub fn clear_words(w: &mut [u32], p: usize, n: usize)
    requires { p + n ≤ length w.old }
    ensures { w.new ≡ clear p n w.old }
{
    w[p..p + n].fill(0);
}

// Bytes p to p + n - 1 are made 0.
pub fn clear_bytes(b: &mut [u8], p: usize, n: usize)
    requires { p + n ≤ length b.old }
    ensures { b.new ≡ clear p n b.old }
{
    b[p..p + n].fill(0);
}
