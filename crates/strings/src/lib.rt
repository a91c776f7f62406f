// Strings that end at a zero byte, or with the bytes they stand in: where the last ends, how long one is, whether two are the same.
#![tactic(auto)]

ghost use Rattle.std.specs.Prelude.{◌≡◌, length};
ghost use Rattle.wire.specs.Stretch.{same_bytes};
ghost use Rattle.psv0_layout.specs.Position.{UpToLastZero};
ghost use Rattle.psv0_layout.specs.Reference.{string_at};

use memchr::{memchr, memrchr};

// One more than the place of the last zero byte. It is not compiled into its caller, whose short way it would slow.
#[inline(never)]
fn search_end(t: &[u8]) -> usize
    ensures { UpToLastZero t.now result }
{
    match memrchr(0, t) {
        Some(i) => i + 1,
        None => 0,
    }
}

// One more than the place of the last zero byte: a string reference is good exactly when it lies before it. Most tables end with a zero byte,
// which is tried first.
pub fn end_of(t: &[u8]) -> usize
    ensures { UpToLastZero t.now result }
{
    if let Some(0) = t.last() {
        return t.len();
    }
    search_end(t)
}

// The length of the string at o: up to the first zero byte, or to the end where there is none.
pub fn len_at(t: &[u8], o: usize) -> usize
    ensures { result ≡ length (string_at t.now o) }
{
    if t.len() <= o {
        return 0;
    }
    let rest = &t[o..];
    memchr(0, rest).unwrap_or(rest.len())
}

// Whether the string at o of a and the string at p of c have the same bytes. It looks no further than the first difference.
pub fn same(a: &[u8], o: usize, c: &[u8], p: usize) -> bool
    ensures { result ≡ same_bytes (string_at a.now o) (string_at c.now p) }
{
    // Stays: j counts beside i. A zip of the two ends where c does, and a string that ends there is the same as one that ends at a zero byte.
    let mut j = p;
    for i in o..a.len() {
        let x = a[i];
        if x != wire::byte_at(c, j) {
            return false;
        }
        if x == 0 {
            return true;
        }
        j += 1;
    }
    wire::byte_at(c, j) == 0
}
