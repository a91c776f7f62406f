// The reader of the data of a part ISG1, OSG1 or PSG1 alone: refusals 43 to 45 and 52, the elements and their names as parts of the caller's slice.
#![tactic(auto)]

ghost use Rattle.std.specs.Prelude.{◌≡◌, true, ◌+◌, ◌≤◌, length};
ghost use Rattle.wire.specs.Verdict.{under};
ghost use Rattle.psv0_layout.specs.Position.{UpToLastZero};
ghost use Rattle.signature_layout.specs.Named.{NamesFrom, NamesDecided};
ghost use Rattle.signature_layout.specs.Signature.{count_of, start_of, element_at, fields_of, name_offset_of, name_good, name_judged, signature_of, name_of, element_shown, element_of, alone_of, view_of, bytes_of};

use psv0_layout::Span;
use signature_layout::{NameSpan, SignatureAnswer, SignatureElement};
use utf8::References;
use wire::Refusal;

// ---- the bytes of an element, which lie inside
fn element_at<'a>(d: &'a [u8], i: usize) -> &'a [u8]
    requires { start_of d.now i + 32 ≤ length d.now }
    ensures { result.now ≡ element_at d.now i }
{
    let at = wire::u32_at(d, 4) as usize + 32 * i;
    &d[at..at + 32]
}

fn name_offset(d: &[u8], i: usize) -> usize
    requires { start_of d.now i + 32 ≤ length d.now }
    ensures { result ≡ name_offset_of d.now i }
{
    wire::u32_at(element_at(d, i), 4) as usize
}

// ---- the names of all elements
// A place from which on all names lie: the least of their offsets, or the end of the data.
fn least_name(d: &[u8]) -> usize
    requires { start_of d.now (count_of d.now) ≤ length d.now }
    ensures { NamesFrom d.now result (count_of d.now) }
{
    let mut least = d.len();
    for i in 0..wire::u32_at(d, 0) as usize {
        let o = name_offset(d, i);
        if o != 0 {
            least = least.min(o);
        }
    }
    least
}

// The number of the first element whose name is not good, or the count where every name that ends is. Most parts have only bytes below 0x80 from
// their first name on, which settles all at once; else the names are searched together, since many may refer into one long string.
fn ill_name(d: &[u8], end: usize) -> usize
    requires { (start_of d.now (count_of d.now) ≤ length d.now) × UpToLastZero d.now end }
    ensures { NamesDecided d.now result }
{
    let count = wire::u32_at(d, 0) as usize;
    let least = least_name(d);
    if count == 0 || utf8::plain_from(d, least) {
        return count;
    }
    let first = wire::u32_at(d, 4) as usize;
    utf8::first_ill(
        d,
        least,
        &References {
            records: &d[first + 4..first + 32 * count],
            stride: 32,
            count,
            last: 0,
            len: count,
            free: true,
        },
    )
}

// The element count, or 43 to 45 and 52: the last zero byte decides which names end.
pub fn read(d: &[u8]) -> Result<usize, Refusal>
    ensures { result ≡ signature_of d.now }
{
    let len = d.len();
    if len < 8 {
        return wire::refused(43, 0);
    }
    let count = wire::u32_at(d, 0) as usize;
    if len < wire::u32_at(d, 4) as usize + 32 * count {
        return wire::refused(44, 0);
    }
    let end = strings::end_of(d);
    let ill = ill_name(d, end);
    for i in 0..count {
        let o = name_offset(d, i);
        if o != 0 && end <= o {
            return wire::refused(45, i);
        }
        if i == ill {
            return wire::refused(52, i);
        }
    }
    Ok(count)
}

// ---- one element

fn fields(e: &[u8]) -> SignatureElement
    ensures { result ≡ fields_of e.now }
{
    SignatureElement {
        stream: wire::u32_at(e, 0),
        name_offset: wire::u32_at(e, 4),
        index: wire::u32_at(e, 8),
        system_value: wire::u32_at(e, 12),
        component_type: wire::u32_at(e, 16),
        register_number: wire::u32_at(e, 20),
        mask: wire::byte_at(e, 24) as u32,
        exclusive_mask: wire::byte_at(e, 25) as u32,
        precision: wire::u32_at(e, 28),
    }
}

// The name at an offset that was judged, with its code points.
fn name_at(d: &[u8], o: usize) -> Option<NameSpan>
    requires { name_good d.now o ≡ true }
    ensures { result ≡ name_of d.now o }
{
    if o == 0 {
        return None;
    }
    let len = strings::len_at(d, o);
    Some(NameSpan {
        start: o,
        len,
        points: utf8::code_points(&d[o..o + len]),
    })
}

// Element i, whose 32 bytes lie inside and whose name was judged.
fn answer_at(d: &[u8], i: usize) -> SignatureAnswer
    requires { (start_of d.now i + 32 ≤ length d.now) × (name_good d.now (name_offset_of d.now i) ≡ true) }
    ensures { result ≡ element_shown d.now i }
{
    let element = fields(element_at(d, i));
    SignatureAnswer {
        element,
        name: name_at(d, element.name_offset as usize),
    }
}

// Element i: 43 to 45 and 52, then 26.
pub fn element(d: &[u8], i: usize) -> Result<SignatureAnswer, Refusal>
    ensures { result ≡ element_of d.now i }
{
    if read(d)? <= i {
        return wire::refused(26, 0);
    }
    Ok(answer_at(d, i))
}

// 45 and 52 of the name of element i, whose 32 bytes lie inside.
fn judge_name(d: &[u8], i: usize) -> Result<(), Refusal>
    requires { start_of d.now i + 32 ≤ length d.now }
    ensures { result ≡ under (name_judged d.now i) tt }
{
    let o = name_offset(d, i);
    if o == 0 || utf8::is_good(d, o) {
        return Ok(());
    }
    let len = d.len();
    if len <= o || len - o <= strings::len_at(d, o) {
        return wire::refused(45, i);
    }
    wire::refused(52, i)
}

// Element i by itself, whatever the others are: 43, 26, 44 of its own bytes, 45 and 52 of its own name.
pub fn element_alone(d: &[u8], i: usize) -> Result<SignatureAnswer, Refusal>
    ensures { result ≡ alone_of d.now i }
{
    let len = d.len();
    if len < 8 {
        return wire::refused(43, 0);
    }
    if wire::u32_at(d, 0) as usize <= i {
        return wire::refused(26, 0);
    }
    if len < wire::u32_at(d, 4) as usize + 32 * i + 32 {
        return wire::refused(44, 0);
    }
    judge_name(d, i)?;
    Ok(answer_at(d, i))
}

// ---- names as views

// The name of an answer as a view, with its code points: 26 where it has none.
pub fn view_of(a: Result<SignatureAnswer, Refusal>) -> Result<Span, Refusal>
    ensures { result ≡ view_of a }
{
    match a {
        Ok(SignatureAnswer { name: Some(x), .. }) => Ok(Span {
            start: x.start,
            points: Some(x.points),
            len: x.len,
        }),
        Ok(SignatureAnswer { name: None, .. }) => wire::refused(26, 0),
        Err(r) => Err(r),
    }
}

// The name of element i as a view: 43 to 45 and 52, then 26.
pub fn name(d: &[u8], i: usize) -> Result<Span, Refusal>
    ensures { result ≡ view_of (element_of d.now i) }
{
    view_of(element(d, i))
}

// The bytes of a name, a part of the caller's slice: none where it is unset or does not lie inside.
pub fn name_bytes<'a>(d: &'a [u8], name: Option<NameSpan>) -> &'a [u8]
    ensures { result.now ≡ bytes_of d.now name }
{
    match name {
        Some(x) if x.start <= d.len() && x.len <= d.len() - x.start => {
            &d[x.start..x.start + x.len]
        }
        _ => &d[0..0],
    }
}
