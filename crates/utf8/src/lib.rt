// UTF-8 of strings that end at a zero byte: which of many references are good, whether one is, and how many code points a string has. Every
// public function takes any bytes and any numbers.
#![tactic(auto)]

ghost use Rattle.std.specs.Prelude.{◌≡◌, true, false, ◌+◌, ◌-◌, ◌*◌, ◌/◌, ◌%◌, ◌^◌, ◌≤◌, ◌<◌, min, max, eqb, length, get_or};
ghost use Rattle.utf8_layout.specs.Lead.{follows, lead, leads};
ghost use Rattle.utf8_layout.specs.Sequence.{well_formed, code_points};
ghost use Rattle.psv0_layout.specs.Position.{PlainFrom};
ghost use Rattle.psv0_layout.specs.Reference.{string_good};
ghost use Rattle.utf8.specs.Machine.{State, ran};
ghost use Rattle.utf8.specs.Marks.{past_at, flag, mark_of, Marked};
ghost use Rattle.utf8.specs.One.{Letters, read_of};
ghost use Rattle.utf8.specs.Referred.{passes, first_ill};

// ---- bytes below 0x80
// Whether every byte from a place on is below 0x80: then each string there that ends is well formed. All are looked at: with no way out of the
// loop, many are compared at once when compiled.
pub fn plain_from(t: &[u8], from: usize) -> bool
    ensures { (result ≡ true → PlainFrom t.now from) × (PlainFrom t.now from → result ≡ true) }
{
    let mut most = 0u8;
    for i in from..t.len() {
        most = most.max(t[i]);
    }
    most < 128
}

// ---- code points
// One for a byte that does not follow a lead byte.
fn lead(x: u8) -> usize
    ensures { (result ≡ lead x) × (result ≤ 1) }
{
    usize::from(x / 64 != 2)
}

// The code points of a well-formed string: its bytes that do not follow a lead byte.
pub fn code_points(s: &[u8]) -> usize
    ensures { (result ≡ leads s.now) × (result ≤ length s.now) × (well_formed s.now ≡ true → result ≡ code_points s.now) }
{
    let mut n = 0;
    for x in s {
        n += lead(*x);
    }
    n
}

// ---- the machine
// Of each byte a word with six bits for each state: the state after that byte. A step is a shift, so its time does not depend on the bytes.
static ROWS: [u64; 256] = [
    972777519512030592,
    972777519512027520,
    972777519512027520,
    972777519512027520,
    972777519512027520,
    972777519512027520,
    972777519512027520,
    972777519512027520,
    972777519512027520,
    972777519512027520,
    972777519512027520,
    972777519512027520,
    972777519512027520,
    972777519512027520,
    972777519512027520,
    972777519512027520,
    972777519512027520,
    972777519512027520,
    972777519512027520,
    972777519512027520,
    972777519512027520,
    972777519512027520,
    972777519512027520,
    972777519512027520,
    972777519512027520,
    972777519512027520,
    972777519512027520,
    972777519512027520,
    972777519512027520,
    972777519512027520,
    972777519512027520,
    972777519512027520,
    972777519512027520,
    972777519512027520,
    972777519512027520,
    972777519512027520,
    972777519512027520,
    972777519512027520,
    972777519512027520,
    972777519512027520,
    972777519512027520,
    972777519512027520,
    972777519512027520,
    972777519512027520,
    972777519512027520,
    972777519512027520,
    972777519512027520,
    972777519512027520,
    972777519512027520,
    972777519512027520,
    972777519512027520,
    972777519512027520,
    972777519512027520,
    972777519512027520,
    972777519512027520,
    972777519512027520,
    972777519512027520,
    972777519512027520,
    972777519512027520,
    972777519512027520,
    972777519512027520,
    972777519512027520,
    972777519512027520,
    972777519512027520,
    972777519512027520,
    972777519512027520,
    972777519512027520,
    972777519512027520,
    972777519512027520,
    972777519512027520,
    972777519512027520,
    972777519512027520,
    972777519512027520,
    972777519512027520,
    972777519512027520,
    972777519512027520,
    972777519512027520,
    972777519512027520,
    972777519512027520,
    972777519512027520,
    972777519512027520,
    972777519512027520,
    972777519512027520,
    972777519512027520,
    972777519512027520,
    972777519512027520,
    972777519512027520,
    972777519512027520,
    972777519512027520,
    972777519512027520,
    972777519512027520,
    972777519512027520,
    972777519512027520,
    972777519512027520,
    972777519512027520,
    972777519512027520,
    972777519512027520,
    972777519512027520,
    972777519512027520,
    972777519512027520,
    972777519512027520,
    972777519512027520,
    972777519512027520,
    972777519512027520,
    972777519512027520,
    972777519512027520,
    972777519512027520,
    972777519512027520,
    972777519512027520,
    972777519512027520,
    972777519512027520,
    972777519512027520,
    972777519512027520,
    972777519512027520,
    972777519512027520,
    972777519512027520,
    972777519512027520,
    972777519512027520,
    972777519512027520,
    972777519512027520,
    972777519512027520,
    972777519512027520,
    972777519512027520,
    972777519512027520,
    972777519512027520,
    972777519512027520,
    972777519512027520,
    972777519512027520,
    977844894031699968,
    977844894031699968,
    977844894031699968,
    977844894031699968,
    977844894031699968,
    977844894031699968,
    977844894031699968,
    977844894031699968,
    977844894031699968,
    977844894031699968,
    977844894031699968,
    977844894031699968,
    977844894031699968,
    977844894031699968,
    977844894031699968,
    977844894031699968,
    972857509288108032,
    972857509288108032,
    972857509288108032,
    972857509288108032,
    972857509288108032,
    972857509288108032,
    972857509288108032,
    972857509288108032,
    972857509288108032,
    972857509288108032,
    972857509288108032,
    972857509288108032,
    972857509288108032,
    972857509288108032,
    972857509288108032,
    972857509288108032,
    972856697539289088,
    972856697539289088,
    972856697539289088,
    972856697539289088,
    972856697539289088,
    972856697539289088,
    972856697539289088,
    972856697539289088,
    972856697539289088,
    972856697539289088,
    972856697539289088,
    972856697539289088,
    972856697539289088,
    972856697539289088,
    972856697539289088,
    972856697539289088,
    972856697539289088,
    972856697539289088,
    972856697539289088,
    972856697539289088,
    972856697539289088,
    972856697539289088,
    972856697539289088,
    972856697539289088,
    972856697539289088,
    972856697539289088,
    972856697539289088,
    972856697539289088,
    972856697539289088,
    972856697539289088,
    972856697539289088,
    972856697539289088,
    972777519512027136,
    972777519512027136,
    972777519512027904,
    972777519512027904,
    972777519512027904,
    972777519512027904,
    972777519512027904,
    972777519512027904,
    972777519512027904,
    972777519512027904,
    972777519512027904,
    972777519512027904,
    972777519512027904,
    972777519512027904,
    972777519512027904,
    972777519512027904,
    972777519512027904,
    972777519512027904,
    972777519512027904,
    972777519512027904,
    972777519512027904,
    972777519512027904,
    972777519512027904,
    972777519512027904,
    972777519512027904,
    972777519512027904,
    972777519512027904,
    972777519512027904,
    972777519512027904,
    972777519512027904,
    972777519512027904,
    972777519512027904,
    972777519512029056,
    972777519512028288,
    972777519512028288,
    972777519512028288,
    972777519512028288,
    972777519512028288,
    972777519512028288,
    972777519512028288,
    972777519512028288,
    972777519512028288,
    972777519512028288,
    972777519512028288,
    972777519512028288,
    972777519512029440,
    972777519512028288,
    972777519512028288,
    972777519512029824,
    972777519512028672,
    972777519512028672,
    972777519512028672,
    972777519512030208,
    972777519512027136,
    972777519512027136,
    972777519512027136,
    972777519512027136,
    972777519512027136,
    972777519512027136,
    972777519512027136,
    972777519512027136,
    972777519512027136,
    972777519512027136,
    972777519512027136,
];

// The state after the bytes from one place up to another.
fn run(t: &[u8], from: usize, to: usize, state: u64) -> u64
    requires { (from ≤ to) × (to ≤ length t.now) × State state }
    ensures { (result ≡ ran t.now from (to - from) state) × State result }
{
    let mut s = state;
    for p in from..to {
        s = (ROWS[t[p] as usize] >> s) % 64;
    }
    s
}

// Whether the byte at a place follows a lead byte.
fn follows_at(t: &[u8], p: usize) -> bool
    ensures { result ≡ follows (get_or t.now p 0) }
{
    wire::byte_at(t, p) / 64 == 2
}

// Past at most three bytes that follow a lead byte.
// Stays: three tests in a row: as a loop over p..p + 3 they compile to a loop, and judging a short name takes 25 ns in place of 20.
fn past(t: &[u8], p: usize) -> usize
    requires { p ≤ length t.now }
    ensures { (result ≡ past_at t.now p) × (p ≤ result) × (result ≤ p + 3) × (result ≤ length t.now) }
{
    if !follows_at(t, p) {
        return p;
    }
    if !follows_at(t, p + 1) {
        return p + 1;
    }
    if !follows_at(t, p + 2) {
        return p + 2;
    }
    p + 3
}

// Whether the reference o is good, where it is known of a place from it on whether a string that goes on there ends well.
fn good_by(t: &[u8], o: usize, to: usize, next: bool) -> bool
    requires { (o ≤ to) × (to ≤ length t.now) × (next ≡ flag t.now to) }
    ensures { result ≡ string_good t.now o }
{
    let p = past(t, to);
    let r = run(t, o, p, 6);
    if r == 6 {
        return next;
    }
    r == 54
}

// Whether the reference o is good, read up to the end of the table.
fn good_to_end(t: &[u8], o: usize) -> bool
    requires { o ≤ length t.now }
    ensures { result ≡ string_good t.now o }
{
    good_by(t, o, t.len(), false)
}

// ---- marks
// The flag of the block at a place, by that of the next block.
fn flag_at(t: &[u8], p: usize, next: bool) -> bool
    requires { next ≡ flag t.now (p + 32) }
    ensures { result ≡ flag t.now p }
{
    let len = t.len();
    if len <= p {
        return false;
    }
    let o = past(t, p);
    if len - p < 32 {
        return good_to_end(t, o);
    }
    good_by(t, o, p + 32, next)
}

// The mark of the 256 bytes from a place on, by the flag of the block after them.
fn mark_at(t: &[u8], p: usize, next: bool) -> u8
    requires { (p < length t.now) × (next ≡ flag t.now (p + 256)) }
    ensures { result ≡ mark_of t.now p }
{
    let mut mark = 0;
    let mut flag = next;
    for k in (0..8).rev() {
        flag = flag_at(t, p + 32 * k, flag);
        mark = mark * 2 + u8::from(flag);
    }
    mark
}

// The flag of a place, read up to the end of the table.
fn flag_to_end(t: &[u8], p: usize) -> bool
    ensures { result ≡ flag t.now p }
{
    if t.len() <= p {
        return false;
    }
    good_to_end(t, past(t, p))
}

// Fills in the marks of a table from its end down to a place, as many as there is room for.
fn mark_all(t: &[u8], from: usize, marks: &mut [u8])
    requires { length marks.old ≤ 65536 }
    ensures { (length marks.new ≡ length marks.old) × Marked t.now marks.new (from / 256) (min ((length t.now + 255) / 256) (length marks.new)) }
{
    let end = ((t.len() + 255) / 256).min(marks.len());
    let mut next = flag_to_end(t, end * 256);
    for j in (from / 256..end).rev() {
        let m = mark_at(t, j * 256, next);
        marks[j] = m;
        next = m % 2 == 1;
    }
}

// Bit k of a mark.
fn flag_of(mark: u8, k: usize) -> bool
    requires { k < 8 }
    ensures { result ≡ eqb (mark / (2 ^ k) % 2) 1 }
{
    (mark >> k) % 2 == 1
}

// ---- the references of records
// String references: each of the first is the first number of a record, the records some bytes apart, and past the records' count all are the
// last. Where free is true, a reference of 0 refers to nothing and passes.
#[derive(Clone, Copy)]
pub struct References<'a> {
    pub records: &'a [u8],
    pub stride: usize,
    pub count: usize,
    pub last: usize,
    pub len: usize,
    pub free: bool,
}

// A table whose marks are filled in from a place on, as many as there is room for.
#[derive(Clone, Copy)]
struct MarkedTable<'a> {
    bytes: &'a [u8],
    from: usize,
    marks: &'a [u8],
    ghost right: { Marked bytes.now marks.now (from / 256) (min ((length bytes.now + 255) / 256) (length marks.now)) },
}

impl<'a> MarkedTable<'a> {
    // Whether the reference o is good: read up to the end of its block, where the next block's mark goes on.
    fn good_at(&self, o: usize) -> bool
        ensures { result ≡ string_good self.now.bytes.now o }
    {
        let t = self.bytes;
        if t.len() <= o {
            return false;
        }
        let block = o / 32 + 1;
        let to = block * 32;
        let j = block / 8;
        if t.len() <= to || o < self.from || self.marks.len() <= j {
            return good_to_end(t, o);
        }
        good_by(t, o, to, flag_of(self.marks[j], block % 8))
    }

    fn passes(&self, free: bool, o: usize) -> bool
        ensures { result ≡ passes self.now.bytes.now free o }
    {
        if free && o == 0 {
            return true;
        }
        self.good_at(o)
    }

    // The number of the first of the references that does not pass, or how many they are.
    fn search(&self, r: &References) -> usize
        ensures { result ≡ first_ill self.now.bytes.now r.now.free r.now.records.now r.now.stride r.now.count r.now.last r.now.len }
    {
        let mut at = 0;
        for i in 0..r.len {
            let o = if i < r.count {
                wire::u32_at(r.records, at) as usize
            } else {
                r.last
            };
            if !self.passes(r.free, o) {
                return i;
            }
            at = at.saturating_add(r.stride).min(r.records.len());
        }
        r.len
    }
}

// The number of the first of the references that does not pass, or how many they are, with room for N marks, each of 256 bytes.
fn search_in<const N: usize>(t: &[u8], from: usize, r: &References) -> usize
    requires { N ≤ 65536 }
    ensures { result ≡ first_ill t.now r.now.free r.now.records.now r.now.stride r.now.count r.now.last r.now.len }
{
    let mut marks = [0u8; N];
    mark_all(t, from, &mut marks);
    MarkedTable {
        bytes: t,
        from,
        marks: &marks,
    }
    .search(r)
}

// The same with room for the marks of all of a table of 16 MB. The table t is read once, and of each string no more than a
// block, however many refer into it. References below a place are right too, but may cost the whole table
// each.
pub fn first_ill(t: &[u8], from: usize, r: &References) -> usize
    ensures { result ≡ first_ill t.now r.now.free r.now.records.now r.now.stride r.now.count r.now.last r.now.len }
{
    if t.len() <= 4096 {
        return search_in::<16>(t, from, r);
    }
    if t.len() <= 262144 {
        return search_in::<1024>(t, from, r);
    }
    search_in::<65536>(t, from, r)
}

// ---- one reference
// A string at a good reference: how many bytes and how many code points it has.
#[derive(Clone, Copy)]
pub struct StringRead {
    pub len: usize,
    pub points: usize,
}

// How far bytes below 0x80 other than zero go from one place on, at most up to another.
fn letters_end(t: &[u8], from: usize, to: usize) -> usize
    requires { (from ≤ to) × (to ≤ length t.now) }
    ensures { (from ≤ result) × (result ≤ to) × Letters t.now from result }
{
    for i in from..to {
        if t[i] == 0 || 127 < t[i] {
            return i;
        }
    }
    to
}

// Whether a reference is good, by the machine, where the zero byte that ends its string stands at a place.
fn ends_well(t: &[u8], o: usize, to: usize) -> bool
    requires { (o ≤ to) × (to < length t.now) × (get_or t.now to 0 ≡ 0) }
    ensures { result ≡ string_good t.now o }
{
    run(t, o, to + 1, 6) == 54
}

// A string of any length and letters: each walk over it looks at many bytes at once, but that of the machine.
fn read_any(t: &[u8], o: usize) -> Option<StringRead>
    requires { o < length t.now }
    ensures { result ≡ read_of t.now o }
{
    let len = strings::len_at(t, o);
    let to = o + len;
    if t.len() <= to {
        return None;
    }
    let s = &t[o..to];
    if plain_from(s, 0) {
        return Some(StringRead { len, points: len });
    }
    if ends_well(t, o, to) {
        return Some(StringRead {
            len,
            points: code_points(s),
        });
    }
    None
}

// The string at a reference, whatever the others are, where the reference is good. Most are short and have letters below 0x80 alone: one walk tells
// where such a string ends, that it is well formed and how many code points it has.
pub fn read_string(t: &[u8], o: usize) -> Option<StringRead>
    ensures { result ≡ read_of t.now o }
{
    if t.len() <= o {
        return None;
    }
    let near = if t.len() - o < 256 { t.len() } else { o + 256 };
    let i = letters_end(t, o, near);
    if i < t.len() && t[i] == 0 {
        let len = i - o;
        return Some(StringRead { len, points: len });
    }
    read_any(t, o)
}

// Whether one reference is good.
pub fn is_good(t: &[u8], o: usize) -> bool
    ensures { result ≡ string_good t.now o }
{
    read_string(t, o).is_some()
}
