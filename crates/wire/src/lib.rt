// Little-endian numbers in byte slices, and the refusal that readers and writers answer.
// Every function takes any bytes and any place.
#![tactic(auto)]

ghost use Rattle.std.specs.Prelude.{◌≡◌, ◌+◌, ◌≤◌, ◌<◌, length, get_or};
ghost use Rattle.wire.specs.Number.{u16_at, u32_at, le16, le32, placed};
ghost use Rattle.wire.specs.Stretch.{copied};

// A refusal: a number of document 01's table and a place.
// Stays: the number is no enum, since the definitions (`check`, each `.._judged`), docs/REFUSALS.md and the figures' counts speak of it as a number.
#[derive(Clone, Copy, Debug, PartialEq, Eq)]
pub struct Refusal {
    pub number: u8,
    pub place: usize,
}

// The refusal with a number and a place, whatever the call would have answered.
pub fn refused<T>(number: u8, place: usize) -> Result<T, Refusal>
    ensures { result ≡ Err (record { number = number; place = place }) }
{
    Err(Refusal { number, place })
}

// The byte k after a place, 0 past the end. The sum at + k need not fit.
fn byte_after(b: &[u8], at: usize, k: usize) -> u32
    ensures { (result ≡ get_or b.now (at + k) 0) × (result < 256) }
{
    let len = b.len();
    if len <= at {
        return 0;
    }
    if len - at <= k {
        return 0;
    }
    u32::from(b[at + k])
}

// The byte at a place, 0 past the end.
pub fn byte_at(b: &[u8], at: usize) -> u8
    ensures { result ≡ get_or b.now at 0 }
{
    if at < b.len() {
        return b[at];
    }
    0
}

// The number of the two bytes at a place; what is past the end counts as 0.
pub fn u16_at(b: &[u8], at: usize) -> u32
    ensures { result ≡ u16_at b.now at }
{
    u32::from(byte_at(b, at)) + 256 * byte_after(b, at, 1)
}

// The same of four bytes that are all there: one load when compiled.
fn whole_u32(b: &[u8], at: usize) -> u32
    requires { at + 4 ≤ length b.now }
    ensures { result ≡ u32_at b.now at }
{
    u32::from(b[at])
        + 256 * u32::from(b[at + 1])
        + 65536 * u32::from(b[at + 2])
        + 16777216 * u32::from(b[at + 3])
}

fn partial_u32(b: &[u8], at: usize) -> u32
    ensures { result ≡ u32_at b.now at }
{
    u32::from(byte_at(b, at))
        + 256 * byte_after(b, at, 1)
        + 65536 * byte_after(b, at, 2)
        + 16777216 * byte_after(b, at, 3)
}

// The number of the four bytes at a place; what is past the end counts as 0.
pub fn u32_at(b: &[u8], at: usize) -> u32
    ensures { result ≡ u32_at b.now at }
{
    let len = b.len();
    if at < len {
        if 4 <= len - at {
            return whole_u32(b, at);
        }
    }
    partial_u32(b, at)
}

// Copies src over the whole of out. Where they are not equally long, nothing changes.
// Stays: a loop, since `copy_from_slice` is compiled to a call of memmove, a name that the archive for C would need from outside; this one copies
// 32 bytes a turn.
pub fn copy(out: &mut [u8], src: &[u8])
    ensures { out.new ≡ copied out.old src.now }
{
    let n = src.len();
    if out.len() == n {
        for i in 0..n {
            out[i] = src[i];
        }
    }
}

// Puts bytes at a place. Where they do not fit, nothing changes.
pub fn put(out: &mut [u8], at: usize, src: &[u8])
    ensures { out.new ≡ placed out.old at src.now }
{
    let len = out.len();
    let n = src.len();
    if at <= len {
        if n <= len - at {
            copy(&mut out[at..at + n], src);
        }
    }
}

// Puts the two bytes of a number at a place. Where they do not fit, nothing changes.
pub fn put_u16(out: &mut [u8], at: usize, n: u16)
    ensures { out.new ≡ placed out.old at (le16 n) }
{
    put(out, at, &n.to_le_bytes());
}

// Puts the four bytes of a number at a place. Where they do not fit, nothing changes.
pub fn put_u32(out: &mut [u8], at: usize, n: u32)
    ensures { out.new ≡ placed out.old at (le32 n) }
{
    put(out, at, &n.to_le_bytes());
}
