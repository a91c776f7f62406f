// The PSV0 writer: from an edition and the bytes of each section to PSV0 data in the caller's output.
// Every check is made before the first byte is written.
#![tactic(auto)]

ghost use Rattle.std.specs.Prelude.{◌≡◌, [], ◌++◌, ◌+◌, ◌≤◌, eqb, length};
ghost use Rattle.wire.specs.Number.{le32};
ghost use Rattle.psv0_writer_layout.specs.Stretch.{size_field, size_field_length, head_bytes, body_bytes, head_length, body_length, written_bytes, written_length};
ghost use Rattle.psv0_writer_layout.specs.Written.{resource_size_of, lengths_right};
ghost use Rattle.psv0_writer_layout.specs.Answer.{given, answer, Wrote, capped};
ghost use Rattle.psv0_writer.specs.Sections.{given_by};

use wire::Refusal;

// A sum of lengths, counted no further than one past the limit: no sum can wrap.
fn plus(a: usize, b: usize) -> usize
    ensures { result ≡ capped (a + b) }
{
    a.saturating_add(b).min(16777217)
}

// The record size before some records' bytes: it isn't there where they are none.
fn field_length(bytes: &[u8]) -> usize
    ensures { result ≡ size_field_length bytes.now }
{
    if bytes.is_empty() { 0 } else { 4 }
}

// The size of a resource record in an edition.
pub fn resource_size(edition: usize) -> usize
    ensures { result ≡ resource_size_of edition }
{
    if edition < 2 { 16 } else { 24 }
}

// ---- each section in its own stretch of the output

// A number and then bytes: the runtime record with its size, the strings and the indices with their count, records with their size.
fn write_counted(out: &mut [u8], number: u32, bytes: &[u8])
    requires { length out.old ≡ 4 + length bytes.now }
    ensures { out.new ≡ le32 number ++ bytes.now }
{
    wire::put_u32(out, 0, number);
    wire::copy(&mut out[4..], bytes);
}

// Records with their size before them, and nothing where they are none.
fn write_records(out: &mut [u8], size: u32, records: &[u8])
    requires { length out.old ≡ size_field_length records.now + length records.now }
    ensures { out.new ≡ size_field size records.now ++ records.now }
{
    if !records.is_empty() {
        write_counted(out, size, records);
    }
}

// The resources: their count, then the records.
fn write_resources(out: &mut [u8], count: u32, size: u32, records: &[u8])
    requires { length out.old ≡ 4 + size_field_length records.now + length records.now }
    ensures { out.new ≡ le32 count ++ (size_field size records.now ++ records.now) }
{
    wire::put_u32(out, 0, count);
    write_records(&mut out[4..], size, records);
}

// ---- what is given

// The runtime record, and the records and bytes of each section.
#[derive(Clone, Copy)]
pub struct Sections<'a> {
    pub runtime: &'a [u8],
    pub resources: &'a [u8],
    pub strings: &'a [u8],
    pub indices: &'a [u8],
    pub elements: &'a [u8],
    pub masks: &'a [u8],
}

impl<'a> Sections<'a> {
    // ---- how long it is written, counted no further than one past the limit

    // Sections 1 and 2.
    fn head_length(&self) -> usize
        ensures { result ≡ capped (head_length (given_by self.now)) }
    {
        let front = plus(8, self.runtime.len());
        plus(
            plus(front, field_length(self.resources)),
            self.resources.len(),
        )
    }

    // Sections 3 to 6.
    fn body_length(&self) -> usize
        ensures { result ≡ capped (body_length (given_by self.now)) }
    {
        let tables = plus(plus(8, self.strings.len()), self.indices.len());
        let elements = plus(tables, field_length(self.elements));
        plus(plus(elements, self.elements.len()), self.masks.len())
    }

    fn written_length(&self, edition: usize) -> usize
        ensures { result ≡ capped (written_length edition (given_by self.now)) }
    {
        let head = self.head_length();
        if edition == 0 {
            return head;
        }
        plus(head, self.body_length())
    }

    // ---- checks

    // Whether sections 3 to 6 have no bytes.
    fn body_empty(&self) -> bool
        ensures { result ≡ eqb (length self.now.strings.now + length self.now.indices.now + length self.now.elements.now + length self.now.masks.now) 0 }
    {
        self.strings.is_empty()
            && self.indices.is_empty()
            && self.elements.is_empty()
            && self.masks.is_empty()
    }

    // Whether each section has the length that it should: refusal 27.
    #[tactic(auto, unfolding(psv0_writer_layout::specs::Written::lengths_right))]
    fn lengths_right(&self, edition: usize) -> bool
        ensures { result ≡ lengths_right edition (given_by self.now) }
    {
        self.runtime.len() == constants::edition_size(edition)
            && self.resources.len() % resource_size(edition) == 0
            && self.strings.len() % 4 == 0
            && self.indices.len() % 4 == 0
            && self.elements.len() == psv0_sections::element_total(self.runtime) * 16
            && self.masks.len() == psv0_sections::mask_bytes(self.runtime)
            && (edition != 0 || self.body_empty())
    }

    // Every check, in order: 25, 27, 2, 15 to 24, 28.
    fn judge(&self, edition: usize, room: usize) -> Result<usize, Refusal>
        ensures { result ≡ answer edition (given_by self.now) room }
    {
        if 3 < edition {
            return wire::refused(25, 0);
        }
        if !self.lengths_right(edition) {
            return wire::refused(27, 0);
        }
        let len = self.written_length(edition);
        if 16777216 < len {
            return wire::refused(2, 0);
        }
        psv0_sections::judge_given(
            edition,
            self.runtime,
            self.strings,
            self.indices,
            self.elements,
        )?;
        if room < len {
            return wire::refused(28, 0);
        }
        Ok(len)
    }

    // ---- the sections, each in its own stretch of the output

    // Sections 1 and 2.
    fn write_head(&self, edition: usize, out: &mut [u8])
        requires { (length out.old ≡ head_length (given_by self.now)) × (length out.old ≤ 16777216) }
        ensures { out.new ≡ head_bytes edition (given_by self.now) [] }
    {
        let size = resource_size(edition);
        let past = 4 + self.runtime.len();
        write_counted(&mut out[..past], self.runtime.len() as u32, self.runtime);
        let count = self.resources.len() / size;
        write_resources(&mut out[past..], count as u32, size as u32, self.resources);
    }

    // Sections 3 to 6.
    fn write_body(&self, out: &mut [u8])
        requires { (length out.old ≡ body_length (given_by self.now)) × (length out.old ≤ 16777216) }
        ensures { out.new ≡ body_bytes (given_by self.now) }
    {
        let strings_end = 4 + self.strings.len();
        let indices_end = strings_end + 4 + self.indices.len();
        let elements_end = indices_end + field_length(self.elements) + self.elements.len();
        write_counted(
            &mut out[..strings_end],
            self.strings.len() as u32,
            self.strings,
        );
        write_counted(
            &mut out[strings_end..indices_end],
            self.indices.len() as u32 / 4,
            self.indices,
        );
        write_records(&mut out[indices_end..elements_end], 16, self.elements);
        wire::copy(&mut out[elements_end..], self.masks);
    }

    // All that is written.
    fn write_sections(&self, edition: usize, out: &mut [u8])
        requires { (length out.old ≡ written_length edition (given_by self.now)) × (length out.old ≤ 16777216) }
        ensures { out.new ≡ written_bytes edition (given_by self.now) }
    {
        let head = self.head_length();
        self.write_head(edition, &mut out[..head]);
        if edition != 0 {
            self.write_body(&mut out[head..]);
        }
    }

    // Writes PSV0 data of an edition into the output: the runtime record of exactly that edition's size, and the records and bytes of
    // each section. Answers their length, or a refusal, in order: 25, 27, 2, 15 to 24, 28. A refusal leaves every byte of the output,
    // and bytes past the result keep their contents.
    pub fn write(&self, edition: usize, out: &mut [u8]) -> Result<usize, Refusal>
        ensures { Wrote edition (given_by self.now) out.old result out.new }
    {
        let written = self.judge(edition, out.len())?;
        self.write_sections(edition, &mut out[..written]);
        Ok(written)
    }
}

// The same, each section in a parameter of its own.
// Stays: (a) docs/ARCHITECTURE.md names this call, and C's qollqamir_write_psv0 has these parameters.
pub fn write(
    edition: usize,
    runtime: &[u8],
    resources: &[u8],
    strings: &[u8],
    indices: &[u8],
    elements: &[u8],
    masks: &[u8],
    out: &mut [u8],
) -> Result<usize, Refusal>
    ensures { Wrote edition (given runtime.now resources.now strings.now indices.now elements.now masks.now) out.old result out.new }
{
    let sections = Sections {
        runtime,
        resources,
        strings,
        indices,
        elements,
        masks,
    };
    sections.write(edition, out)
}
