// A string's record, 1 word, and its bytes, a part of the byte buffer starting at slot times 64.
ghost use Rattle.std.specs.Prelude.{◌≡◌, ◌+◌, ◌*◌, ◌≤◌, length};
ghost use Rattle.record.specs.Strings.{string_length, set_string_length, text_of, text_put, has_byte, same_bytes};

pub fn string_length(w: &[u32], p: usize) -> usize
    requires { p + 1 ≤ length w.now }
    ensures { (result ≡ string_length p w.now) × (result ≤ 64) }
{
    crate::count_at(w, p, 64)
}

pub fn set_string_length(w: &mut [u32], p: usize, n: usize)
    requires p_in_bounds { p + 1 ≤ length w.old }
    requires n_bound { n ≤ 64 }
    ensures { w.new ≡ set_string_length p n w.old }
{
    crate::put_number(w, p, n);
}

// The bytes of slot i, n of them: a part of the byte buffer, handed on to the search and to comparison.
pub fn text(b: &[u8], i: usize, n: usize) -> &[u8]
    requires { 64 * i + n ≤ length b.now }
    ensures { result.now ≡ text_of i n b.now }
{
    let from = 64 * i;
    let end = from + n;
    &b[from..end]
}

// The bytes of slot i are s.
pub fn text_put(b: &mut [u8], i: usize, s: &[u8])
    requires s_in_bounds { 64 * i + length s.now ≤ length b.old }
    requires s_len_bound { length s.now ≤ 64 }
    ensures { b.new ≡ text_put i s.now b.old }
{
    let from = 64 * i;
    // No `copy_from_slice`: it is a call of C's memmove, which an archive would need from outside for 64 bytes at most.
    for k in 0..s.len() {
        b[from + k] = s[k];
    }
}

// The byte search.
pub fn has_byte(s: &[u8], c: u8) -> bool
    ensures { result ≡ has_byte s.now c }
{
    s.contains(&c)
}

// Comparison.
pub fn same_bytes(s: &[u8], t: &[u8]) -> bool
    ensures { result ≡ same_bytes s.now t.now }
{
    s == t
}
