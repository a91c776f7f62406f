// The reports on a signature part of a container, ISG1, OSG1 or PSG1, above the opening and the reader of such data through their promises: what
// opening gives, 26, then 43 to 45 and 52; the elements and their names; and the first element whose name differs from PSV0's.
#![tactic(auto)]

ghost use Rattle.std.specs.Prelude.{◌≡◌, [], ℕ, ◌+◌, ◌*◌, ◌/◌, ◌≤◌, ◌<◌, length};
ghost use Rattle.wire.specs.Verdict.{Accepted};
ghost use Rattle.container_layout.specs.Container.{container_part};
ghost use Rattle.signature_layout.specs.Signature.{start_of, signature_judged, view_of};
ghost use Rattle.signature_report_layout.specs.Listed.{count_in, listed, list_of};
ghost use Rattle.signature_report_layout.specs.Placed.{needed_by, names_by, difference_by};
ghost use Rattle.signature_report_layout.specs.Reported.{part_name, signature_report_of, moved, element_report_of, list_size, list_before, differs_at, first_difference, difference_if, difference_of};

use part_table_layout::Part;
use places_layout::SectionPlaces;
use psv0_layout::{RuntimeInfo, Section, Span};
use signature_layout::{NameSpan, SignatureAnswer};
use signature_report_layout::{SignaturePart, SignatureReport};
use wire::Refusal;

// The part by its name.
// Stays: a match, since the three parts are data that a caller names; bytes, edition and part go one by one, as in the public calls below (a).
fn part_of(b: &[u8], edition: usize, part: SignaturePart) -> Result<Part, Refusal>
    ensures { result ≡ container_part edition b.now (part_name part) }
{
    match part {
        SignaturePart::Input => container::part(b, edition, b"ISG1"),
        SignaturePart::Output => container::part(b, edition, b"OSG1"),
        SignaturePart::Patch => container::part(b, edition, b"PSG1"),
    }
}

// The report at an edition: the element count, and the part's data as a stretch of the container.
pub fn report(b: &[u8], edition: usize, part: SignaturePart) -> Result<SignatureReport, Refusal>
    ensures { result ≡ signature_report_of part edition b.now }
{
    let p = part_of(b, edition, part)?;
    let start = p.offset + 8;
    let count = signature::read(&b[start..start + p.size])?;
    Ok(SignatureReport {
        count,
        start,
        len: p.size,
    })
}

// An element of the part's data, which start at a place, as one of the container.
fn moved_by(a: SignatureAnswer, by: usize) -> SignatureAnswer
    requires { (x : NameSpan) → a.name ≡ Some x → by + x.start ≤ 16777216 }
    ensures { result ≡ moved by a }
{
    let Some(x) = a.name else {
        return a;
    };
    SignatureAnswer {
        element: a.element,
        name: Some(NameSpan {
            start: by + x.start,
            len: x.len,
            points: x.points,
        }),
    }
}

// Element i of the part; its name is a stretch of the container.
pub fn element(
    b: &[u8],
    edition: usize,
    part: SignaturePart,
    i: usize,
) -> Result<SignatureAnswer, Refusal>
    ensures { result ≡ element_report_of part edition b.now i }
{
    let p = part_of(b, edition, part)?;
    let start = p.offset + 8;
    let a = signature::element(&b[start..start + p.size], i)?;
    Ok(moved_by(a, start))
}

// The name of element i as a view of the container, with its code points: 26 where it has none.
pub fn name(b: &[u8], edition: usize, part: SignaturePart, i: usize) -> Result<Span, Refusal>
    ensures { result ≡ view_of (element_report_of part edition b.now i) }
{
    signature::view_of(element(b, edition, part, i))
}

// ---- the second report

fn count_in(f: Option<u32>) -> usize
    ensures { (result ≡ count_in f) × (result < 4294967296) }
{
    f.unwrap_or(0) as usize
}

fn list_size(part: SignaturePart, input: usize, output: usize, patch: usize) -> usize
    ensures { result ≡ list_size part input output patch }
{
    match part {
        SignaturePart::Input => input,
        SignaturePart::Output => output,
        SignaturePart::Patch => patch,
    }
}

fn list_before(part: SignaturePart, input: usize, output: usize) -> usize
    requires { input + output ≤ 8589934592 }
    ensures { result ≡ list_before part input output }
{
    match part {
        SignaturePart::Input => 0,
        SignaturePart::Output => input,
        SignaturePart::Patch => input + output,
    }
}

// How far apart n records are that fill a stretch.
fn apart(len: usize, n: usize) -> usize
    ensures { result ≡ len / n }
{
    len.checked_div(n).unwrap_or(0)
}

// Whether element i is named and differs from the PSV0 element of the list, whose records in e are w bytes apart.
fn differs(d: &[u8], i: usize, t: &[u8], e: &[u8], before: usize, size: usize, w: usize) -> bool
    requires { (start_of d.now i + 32 ≤ length d.now) × ((before + size) * w ≤ length e.now) × (before + size ≤ 12884901888) }
    ensures { result ≡ differs_at d.now (listed t.now e.now before size w) i }
{
    let at = wire::u32_at(d, 4) as usize + 32 * i;
    let o = wire::u32_at(&d[at..at + 32], 4) as usize;
    if o == 0 {
        return false;
    }
    if size <= i {
        return true;
    }
    !strings::same(d, o, t, wire::u32_at(e, (before + i) * w) as usize)
}

// The first element of the accepted data d that differs.
fn search(d: &[u8], t: &[u8], e: &[u8], before: usize, size: usize, w: usize) -> Option<usize>
    requires { (signature_judged d.now ≡ Accepted) × ((before + size) * w ≤ length e.now) × (before + size ≤ 12884901888) }
    ensures { result ≡ first_difference d.now (listed t.now e.now before size w) }
{
    for i in 0..wire::u32_at(d, 0) as usize {
        if differs(d, i, t, e, before, size, w) {
            return Some(i);
        }
    }
    None
}

// The first element of the accepted data d that differs from its list in PSV0, by the counts of the runtime record, the string table t and the records e.
fn compare(d: &[u8], t: &[u8], e: &[u8], info: RuntimeInfo, part: SignaturePart) -> Option<usize>
    requires { signature_judged d.now ≡ Accepted }
    ensures { result ≡ first_difference d.now (list_of part (count_in info.input_elements) (count_in info.output_elements) (count_in info.patch_elements) t.now e.now) }
{
    let input = count_in(info.input_elements);
    let output = count_in(info.output_elements);
    let patch = count_in(info.patch_elements);
    let before = list_before(part, input, output);
    let size = list_size(part, input, output, patch);
    let w = apart(e.len(), input + output + patch);
    search(d, t, e, before, size, w)
}

// The second report on accepted data d by places: 29, or the first element that differs. The string table and the records are taken once.
fn difference_in(
    d: &[u8],
    b: &[u8],
    p: SectionPlaces,
    part: SignaturePart,
) -> Result<Option<usize>, Refusal>
    requires { signature_judged d.now ≡ Accepted }
    ensures { result ≡ difference_if (needed_by p b.now) d.now (names_by p b.now part) }
{
    let info = places::runtime_info(b, p)?;
    let t = places::section_span(b, p, Section::StringTable)?;
    let e = places::section_span(b, p, Section::ElementRecords)?;
    Ok(compare(
        d,
        &b[t.start..t.start + t.len],
        &b[e.start..e.start + e.len],
        info,
        part,
    ))
}

// The second report on the data d of a part, by the places of an opening of the container b, any places and any bytes: 43 to 45 and 52 of the data,
// then 29, and the number of the first named element whose name differs from that of the PSV0 element of the same list and number, or is missing there.
pub fn difference_by(
    d: &[u8],
    b: &[u8],
    p: SectionPlaces,
    part: SignaturePart,
) -> Result<Option<usize>, Refusal>
    ensures { result ≡ difference_by p b.now part d.now }
{
    signature::read(d)?;
    difference_in(d, b, p, part)
}

// The same at an edition.
pub fn first_difference(
    b: &[u8],
    edition: usize,
    part: SignaturePart,
) -> Result<Option<usize>, Refusal>
    ensures { result ≡ difference_of part edition b.now }
{
    let q = part_of(b, edition, part)?;
    let o = container::open_places(b, edition)?;
    let start = q.offset + 8;
    difference_by(&b[start..start + q.size], b, o.places, part)
}
