// The walk over PSV0 data: the verdict of a reading, and where each section lies.
#![tactic(auto)]

ghost use Rattle.std.specs.Prelude.{◌≡◌, ◌&&◌, not, ℕ, ◌+◌, ◌*◌, ◌≤◌, ◌<◌, min, ltb, eqb, length, get_or, take};
ghost use Rattle.wire.specs.Number.{u32_at};
ghost use Rattle.wire.specs.Verdict.{◌then◌, check, from, under};
ghost use Rattle.psv0_layout.specs.Field.{words, words_if, element_total, mask_words_of, sum, mask_bytes_of};
ghost use Rattle.psv0_layout.specs.Judged.{fields_judged, elements_judged, entry_judged, judged_at};
ghost use Rattle.psv0_layout.specs.Layout.{Body, rows, sections, seen};
ghost use Rattle.psv0_layout.specs.Position.{next_counted, UpToLastZero, Decided, reference_at, reference_total, Judging};
ghost use Rattle.psv0_layout.specs.Reference.{string_good, index_total};
ghost use Rattle.psv0_layout.specs.Given.{sections_judged};
ghost use Rattle.psv0_sections.specs.Places.{places_of, located_of, BodyPlaced};
ghost use Rattle.psv0_sections.specs.Steps.{reach, step_to, SmallStep, table_at, head_of, rest_of, RuntimeRead, HeadRead, BodyAsked};

use utf8::References;
use wire::Refusal;

// A position in PSV0 data. It is taken and handed back past each field, table and mask section.
// Stays: the data beside the cursor, and not in it, is no less plain: a step hands back a position alone, which clauses compare with a number.
#[derive(Clone, Copy)]
pub struct Cursor {
    pub at: usize,
}

// Where the sections lie, for a reading at an edition: the edition read, the runtime record's size S (the record starts at 4), and of
// each later section the position after its counts and sizes, its count and its record size. A section that is unset has zeros.
#[derive(Clone, Copy, Default)]
pub struct Places {
    pub edition: usize,
    pub size: usize,
    pub resources: usize,
    pub resource_count: usize,
    pub resource_size: usize,
    pub strings: usize,
    pub string_bytes: usize,
    pub indices: usize,
    pub index_count: usize,
    pub elements: usize,
    pub element_count: usize,
    pub element_size: usize,
    pub masks: usize,
    pub mask_bytes: usize,
}

// Records that were stepped over: the position of the first, their size and the position past the last.
#[derive(Clone, Copy)]
struct Table {
    first: usize,
    stride: usize,
    next: Cursor,
}

// ---- the cursor
impl Cursor {
    // Past some bytes, where the data reach so far.
    fn past(self, d: &[u8], bytes: usize) -> Option<Cursor>
        ensures { result ≡ reach d.now (self.at + bytes) }
    {
        if d.len() < self.at || d.len() - self.at < bytes {
            return None;
        }
        Some(Cursor {
            at: self.at + bytes,
        })
    }

    // Past a field of four bytes, with its number.
    fn field(self, d: &[u8]) -> Option<(usize, Cursor)>
        ensures { (result ≡ step_to d.now (u32_at d.now self.at) (self.at + 4)) × SmallStep result }
    {
        let next = self.past(d, 4)?;
        Some((wire::u32_at(d, self.at) as usize, next))
    }

    // Past a section that is a count and then some bytes for each, with the count.
    fn counted(self, d: &[u8], unit: usize) -> Option<(usize, Cursor)>
        requires { unit ≤ 4 }
        ensures { result ≡ step_to d.now (u32_at d.now self.at) (next_counted unit d.now self.at) }
    {
        let (count, c) = self.field(d)?;
        let next = c.past(d, count * unit)?;
        Some((count, next))
    }

    // Past n records, with their size before them where there are any.
    fn records(self, d: &[u8], n: usize) -> Option<Table>
        requires { n < 4294967296 }
        ensures { result ≡ table_at n d.now self.at }
    {
        if n == 0 {
            return Some(Table {
                first: self.at,
                stride: 0,
                next: self,
            });
        }
        let (stride, c) = self.field(d)?;
        if stride % 4 != 0 || stride < 16 {
            return None;
        }
        let next = c.past(d, n * stride)?;
        Some(Table {
            first: c.at,
            stride,
            next,
        })
    }
}

// ---- sections 1 and 2
// Section 2, once section 1 is passed: 14.
fn read_resources(d: &[u8], size: usize, c: Cursor) -> Result<(Places, Cursor), Refusal>
    requires { RuntimeRead d.now size c }
    ensures { result ≡ head_of d.now }
{
    let Some((count, records)) = c.field(d) else {
        return wire::refused(14, 0);
    };
    let Some(table) = records.records(d, count) else {
        return wire::refused(14, 0);
    };
    let places = Places {
        size,
        resources: table.first,
        resource_count: count,
        resource_size: table.stride,
        ..Places::default()
    };
    Ok((places, table.next))
}

// 12 and 13, then section 2.
fn read_head(d: &[u8]) -> Result<(Places, Cursor), Refusal>
    ensures { result ≡ head_of d.now }
{
    let start = Cursor { at: 0 };
    let Some((size, _)) = start.field(d) else {
        return wire::refused(12, 0);
    };
    if size % 4 != 0 || size < 24 {
        return wire::refused(12, 0);
    }
    let Some((_, next)) = start.counted(d, 1) else {
        return wire::refused(13, 0);
    };
    read_resources(d, size, next)
}

// ---- the runtime record, or the 36 bytes of edition 1
fn byte(r: &[u8], at: usize) -> usize
    ensures { (result ≡ get_or r.now at 0) × (result < 256) }
{
    wire::byte_at(r, at) as usize
}

// E, the sum of the three element counts.
pub fn element_total(r: &[u8]) -> usize
    ensures { (result ≡ element_total r.now) × (result ≤ 765) }
{
    byte(r, 28) + byte(r, 29) + byte(r, 30)
}

// 15 to 17.
fn judge_fields(r: &[u8]) -> Result<(), Refusal>
    ensures { result ≡ under (fields_judged r.now) tt }
{
    let stage = byte(r, 24);
    if 15 < stage {
        return wire::refused(15, 0);
    }
    if 1 < byte(r, 25) {
        return wire::refused(16, 0);
    }
    if stage != 2 && byte(r, 33) + byte(r, 34) + byte(r, 35) != 0 {
        return wire::refused(17, 0);
    }
    Ok(())
}

// w(v)
fn words(v: usize) -> usize
    requires { v < 256 }
    ensures { (result ≡ words v) × (result ≤ 32) }
{
    (v + 7) / 8
}

// Masks 0 to 4, which are there when UsesViewID is 1.
fn view_words(r: &[u8], m: usize) -> usize
    requires { m < 5 }
    ensures { result ≡ get_or (mask_words_of r.now) m 0 }
{
    if byte(r, 25) != 1 {
        return 0;
    }
    if m < 4 {
        return words(byte(r, 32 + m));
    }
    let stage = byte(r, 24);
    if stage == 3 || stage == 13 {
        return words(byte(r, 26));
    }
    0
}

// A map with a mask of v output vectors for each component of n input vectors.
fn map_words(v: usize, n: usize) -> usize
    requires { (v < 256) × (n < 256) }
    ensures { result ≡ words v * n * 4 }
{
    words(v) * n * 4
}

// A map that one stage alone has. Its output and input vectors are bytes of the record.
fn stage_map_words(r: &[u8], stage: usize, outputs: usize, inputs: usize) -> usize
    ensures { result ≡ words_if (eqb (get_or r.now 24 0) stage) (words (get_or r.now outputs 0) * get_or r.now inputs 0 * 4) }
{
    if byte(r, 24) != stage {
        return 0;
    }
    map_words(byte(r, outputs), byte(r, inputs))
}

// The words of mask m of a runtime record; above 10 there are none.
pub fn mask_words(r: &[u8], m: usize) -> usize
    ensures { result ≡ get_or (mask_words_of r.now) m 0 }
{
    if m < 5 {
        return view_words(r, m);
    }
    if m < 9 {
        return map_words(byte(r, 27 + m), byte(r, 31));
    }
    if m == 9 {
        return stage_map_words(r, 3, 26, 31);
    }
    if m == 10 {
        return stage_map_words(r, 4, 32, 26);
    }
    0
}

// The words of the masks before mask m.
pub fn words_before(r: &[u8], m: usize) -> usize
    ensures { result ≡ sum (take m (mask_words_of r.now)) }
{
    let mut total = 0;
    for i in 0..m.min(11) {
        total += mask_words(r, i);
    }
    total
}

pub fn mask_bytes(r: &[u8]) -> usize
    ensures { result ≡ mask_bytes_of r.now }
{
    words_before(r, 11) * 4
}

// ---- sections 3 to 6
// 18 to 21.
fn read_body(
    d: &[u8],
    edition: usize,
    head: Places,
    c: Cursor,
    count: usize,
    bytes: usize,
) -> Result<Places, Refusal>
    requires { BodyAsked edition d.now head c count bytes }
    ensures { result ≡ rest_of edition d.now }
{
    let Some((string_bytes, indices)) = c.counted(d, 1) else {
        return wire::refused(18, 0);
    };
    if string_bytes % 4 != 0 {
        return wire::refused(18, 0);
    }
    let Some((index_count, records)) = indices.counted(d, 4) else {
        return wire::refused(19, 0);
    };
    let Some(elements) = records.records(d, count) else {
        return wire::refused(20, 0);
    };
    let Some(_) = elements.next.past(d, bytes) else {
        return wire::refused(21, 0);
    };
    Ok(Places {
        edition,
        strings: c.at + 4,
        string_bytes,
        indices: indices.at + 4,
        index_count,
        elements: elements.first,
        element_count: count,
        element_size: elements.stride,
        masks: elements.next.at,
        mask_bytes: bytes,
        ..head
    })
}

// ---- references
// What references are judged by, at an edition read of 1 or more: the string table, how many numbers the index table has, the elements' records and the
// entry name's reference.
#[derive(Clone, Copy)]
struct Tables<'a> {
    edition: usize,
    strings: &'a [u8],
    indices: usize,
    elements: &'a [u8],
    stride: usize,
    count: usize,
    entry: usize,
    ghost inside: { count * stride ≤ length elements.now },
    ghost known: { 1 ≤ count → 16 ≤ stride },
}

impl<'a> Tables<'a> {
    // How many string references the elements and, from edition 3 on, the entry name have.
    fn reference_total(&self) -> usize
        ensures { result ≡ reference_total self.now.edition self.now.count }
    {
        if self.edition < 3 {
            return self.count;
        }
        self.count + 1
    }

    // The number of the first of n references that isn't good. Where every byte is below 0x80, as in nearly every table, the end of the last string
    // decides alone.
    fn first_ill(&self, n: usize) -> usize
        ensures { (m : ℕ) → UpToLastZero self.now.strings.now m → Decided self.now.strings.now (reference_at self.now.elements.now self.now.stride self.now.count self.now.entry) n m result }
    {
        if utf8::plain_from(self.strings, 0) {
            return n;
        }
        utf8::first_ill(
            self.strings,
            0,
            &References {
                records: self.elements,
                stride: self.stride,
                count: self.count,
                last: self.entry,
                len: n,
                free: false,
            },
        )
    }

    // 22 and 23, element by element. Where the last string ends and the first name that isn't good, numbered ill, decide the names; of the index table
    // its count of numbers decides.
    fn judge_elements(&self, end: usize, ill: usize) -> Result<(), Refusal>
        ensures { (b : Body) → Judging b end ill self.now.indices (rows 16 self.now.count self.now.stride self.now.elements.now) → result ≡ under (elements_judged b) tt }
    {
        for i in 0..self.count {
            let at = i * self.stride;
            let r = &self.elements[at..at + 16];
            if end <= wire::u32_at(r, 0) as usize || i == ill {
                return wire::refused(22, i);
            }
            if self.indices < wire::u32_at(r, 4) as usize + wire::byte_at(r, 8) as usize {
                return wire::refused(23, i);
            }
        }
        Ok(())
    }

    // 24, decided the same way: the entry name's reference comes after those of all elements.
    fn judge_entry(&self, end: usize, ill: usize) -> Result<(), Refusal>
        ensures { result ≡ under (from 3 self.now.edition (check (ltb self.now.entry end && not (eqb self.now.count ill)) 24 0)) tt }
    {
        if self.edition < 3 {
            return Ok(());
        }
        if end <= self.entry || self.count == ill {
            return wire::refused(24, 0);
        }
        Ok(())
    }

    // 22 to 24. The string table is read once.
    fn judge(&self) -> Result<(), Refusal>
        ensures { (b : Body) → b.strings ≡ self.now.strings.now → index_total b.indices ≡ self.now.indices → b.elements ≡ rows 16 self.now.count self.now.stride self.now.elements.now → result ≡ under (elements_judged b then from 3 self.now.edition (check (string_good self.now.strings.now self.now.entry) 24 0)) tt }
    {
        let end = strings::end_of(self.strings);
        let ill = self.first_ill(self.reference_total());
        self.judge_elements(end, ill)?;
        self.judge_entry(end, ill)
    }
}

// 22 to 24 of PSV0 data. The entry name's reference stands 48 bytes into the runtime record.
fn judge_references(d: &[u8], p: Places) -> Result<(), Refusal>
    requires { (BodyPlaced d.now p) × (3 ≤ p.edition → 52 ≤ u32_at d.now 0) }
    ensures { result ≡ under (elements_judged (seen 1 (sections d.now)).body then from 3 p.edition (entry_judged (seen 3 (sections d.now)))) tt }
{
    Tables {
        edition: p.edition,
        strings: &d[p.strings..p.strings + p.string_bytes],
        indices: p.index_count,
        elements: &d[p.elements..p.elements + p.element_count * p.element_size],
        stride: p.element_size,
        count: p.element_count,
        entry: wire::u32_at(d, 52) as usize,
    }
    .judge()
}

// 15 to 17 and 22 to 24 of sections that are given one by one, for an edition read: the runtime record r, the strings t, the indices x
// and the elements e, 16 bytes each.
pub fn judge_given(edition: usize, r: &[u8], t: &[u8], x: &[u8], e: &[u8]) -> Result<(), Refusal>
    ensures { result ≡ under (sections_judged edition r.now t.now x.now e.now) tt }
{
    if edition == 0 {
        return Ok(());
    }
    judge_fields(r)?;
    Tables {
        edition,
        strings: t,
        indices: x.len() / 4,
        elements: e,
        stride: 16,
        count: e.len() / 16,
        entry: wire::u32_at(r, 48) as usize,
    }
    .judge()
}

// ---- the opening
// 15 to 24, at an edition read of 1 or more.
fn locate_body(d: &[u8], edition: usize, head: Places, next: Cursor) -> Result<Places, Refusal>
    requires { HeadRead edition d.now head next }
    ensures { result ≡ under (judged_at edition d.now) (places_of edition d.now) }
{
    let r = &d[4..40];
    judge_fields(r)?;
    let places = read_body(d, edition, head, next, element_total(r), mask_bytes(r))?;
    judge_references(d, places)?;
    Ok(places)
}

// What a reader of an edition finds in PSV0 data: refusals 25, 2 and 12 to 24 in this order, and the places where there is none.
pub fn locate(d: &[u8], edition: usize) -> Result<Places, Refusal>
    ensures { result ≡ located_of edition d.now }
{
    if 3 < edition {
        return wire::refused(25, 0);
    }
    if 16777216 < d.len() {
        return wire::refused(2, 0);
    }
    let (places, next) = read_head(d)?;
    let read = edition.min(constants::edition_of(places.size));
    if read == 0 {
        return Ok(places);
    }
    locate_body(d, read, places, next)
}
