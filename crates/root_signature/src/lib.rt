// The reader of the data of a part RTS0 alone: refusals 46 to 51, the header, the items and the ranges of tables.
#![tactic(auto)]

ghost use Rattle.std.specs.Prelude.{◌≡◌, ◌+◌, ◌*◌, ◌≤◌, ◌<◌, eqb};
ghost use Rattle.std.specs.Float.{binary32};
ghost use Rattle.std.specs.Float.Ieee.{of_bits};
ghost use Rattle.wire.specs.Choice.{choose};
ghost use Rattle.wire.specs.Verdict.{each, under};
ghost use Rattle.root_signature_layout.specs.Root.{items_of, in11, range_size, data_size, header_judged, parameter_judged, item_judged, root_judged, single_of, parameter_of, sampler_of, item_at, range_of, header_of, root_of, range_shown, item_there, range_there, item_queried, item_alone, item_of, item_alone_of, range_answer_of, range_alone_of};

use root_signature_layout::{DescriptorRange, Item, RootHeader, Single};
use wire::Refusal;

// ---- what the version decides: 1 is 1.0, 2 is 1.1

// The first number in 1.0, the second in 1.1.
fn by_version(version: u32, of10: usize, of11: usize) -> usize
    ensures value { result ≡ choose (eqb version 1) of10 of11 }
    ensures upper_bound { result ≤ of10 + of11 }
{
    if version == 1 {
        return of10;
    }
    of11
}

fn data_size(version: u32, kind: u32) -> usize
    ensures value { result ≡ data_size version kind }
    ensures upper_bound { result ≤ 20 }
{
    if kind == 0 {
        return 8;
    }
    if kind == 1 {
        return 12;
    }
    by_version(version, 8, 12)
}

// Where range j starts, the first being at a place; with their number for j, where they end.
fn range_place(version: u32, first: usize, j: usize) -> usize
    requires { (first < 4294967296) × (j < 4294967296) }
    ensures value { result ≡ first + range_size version * j }
    ensures upper_bound { result < 1099511627776 }
{
    first + by_version(version, 20, 24) * j
}

// A field that 1.0 lacks.
fn field_in_11(version: u32, n: u32) -> Option<u32>
    ensures { result ≡ in11 version n }
{
    (version != 1).then_some(n)
}

// ---- refusals

// 46 and 47.
fn judge_header(d: &[u8]) -> Result<(), Refusal>
    ensures { result ≡ under (header_judged d.now) tt }
{
    if d.len() < 24 {
        return wire::refused(46, 0);
    }
    let version = wire::u32_at(d, 0);
    if version != 1 && version != 2 {
        return wire::refused(47, 0);
    }
    Ok(())
}

// 48 to 51 of parameter i.
// Stays: a parameter's record is read in place here, below and of a range: as a struct that one function reads, judging took three times as long.
#[inline(always)]
fn judge_parameter(d: &[u8], i: usize) -> Result<(), Refusal>
    requires { i < 4294967296 }
    ensures { result ≡ under (parameter_judged d.now i) tt }
{
    let len = d.len();
    let at = wire::u32_at(d, 8) as usize + 12 * i;
    if len < at + 12 {
        return wire::refused(48, i);
    }
    let kind = wire::u32_at(d, at);
    if 4 < kind {
        return wire::refused(49, i);
    }
    let version = wire::u32_at(d, 0);
    let data = wire::u32_at(d, at + 8) as usize;
    if len < data + data_size(version, kind) {
        return wire::refused(50, i);
    }
    if kind != 0 {
        return Ok(());
    }
    let n = wire::u32_at(d, data) as usize;
    let first = wire::u32_at(d, data + 4) as usize;
    if len < range_place(version, first, n) {
        return wire::refused(51, i);
    }
    Ok(())
}

// 48 to 51 of item i. In the loop over the items, so that what is the same for all is read once.
#[inline(always)]
fn judge_item(d: &[u8], i: usize) -> Result<(), Refusal>
    requires { i < 8589934592 }
    ensures { result ≡ under (item_judged d.now i) tt }
{
    let parameters = wire::u32_at(d, 4) as usize;
    if i < parameters {
        return judge_parameter(d, i);
    }
    let at = wire::u32_at(d, 16) as usize + 52 * (i - parameters);
    if d.len() < at + 52 {
        return wire::refused(48, i);
    }
    Ok(())
}

// Refusals 46 to 51: of the header, then of the first bad item.
fn judge(d: &[u8]) -> Result<(), Refusal>
    ensures { result ≡ under (root_judged d.now) tt }
{
    judge_header(d)?;
    let n = wire::u32_at(d, 4) as usize + wire::u32_at(d, 12) as usize;
    for i in 0..n {
        judge_item(d, i)?;
    }
    Ok(())
}

// 26, where there is no item i.
fn judge_there(d: &[u8], i: usize) -> Result<(), Refusal>
    ensures { result ≡ under (item_there d.now i) tt }
{
    if wire::u32_at(d, 4) as usize + wire::u32_at(d, 12) as usize <= i {
        return wire::refused(26, 0);
    }
    Ok(())
}

// A query for item i: 46 to 51, then 26.
fn judge_query(d: &[u8], i: usize) -> Result<(), Refusal>
    ensures { result ≡ under (item_queried d.now i) tt }
{
    judge(d)?;
    judge_there(d, i)
}

// Item i by itself, whatever the others are: 46, 47, 26, then 48 to 51 of its own. In its callers: as a function of its own it puts its answer
// together in other cuts than it reads it.
#[inline(always)]
fn judge_alone(d: &[u8], i: usize) -> Result<(), Refusal>
    ensures { result ≡ under (item_alone d.now i) tt }
{
    judge_header(d)?;
    judge_there(d, i)?;
    judge_item(d, i)
}

// ---- the header

// The header, or 46 to 51.
pub fn read(d: &[u8]) -> Result<RootHeader, Refusal>
    ensures { result ≡ root_of d.now }
{
    judge(d)?;
    Ok(header(d))
}

fn header(d: &[u8]) -> RootHeader
    ensures { result ≡ header_of d.now }
{
    RootHeader {
        version: wire::u32_at(d, 0),
        parameters: wire::u32_at(d, 4),
        samplers: wire::u32_at(d, 12),
        flags: wire::u32_at(d, 20),
    }
}

// ---- items

// The float of a pattern, for every pattern: a NaN's is the one NaN there is.
fn float_of(bits: u32) -> f32
    ensures { result ≡ of_bits binary32 bits }
{
    if 2139095040 < bits % 2147483648 {
        return 0.0 / 0.0;
    }
    f32::from_bits(bits)
}

fn single_of(bits: u32) -> Single
    ensures { result ≡ single_of bits }
{
    Single {
        bits,
        value: float_of(bits),
    }
}

fn parameter(d: &[u8], i: usize) -> Item
    requires { i < 4294967296 }
    ensures { result ≡ parameter_of d.now i }
{
    let at = wire::u32_at(d, 8) as usize + 12 * i;
    let kind = wire::u32_at(d, at);
    let visibility = wire::u32_at(d, at + 4);
    let data = wire::u32_at(d, at + 8) as usize;
    let first = wire::u32_at(d, data);
    let second = wire::u32_at(d, data + 4);
    if kind == 0 {
        return Item::Table {
            visibility,
            ranges: first,
            offset: second,
        };
    }
    let third = wire::u32_at(d, data + 8);
    if kind == 1 {
        return Item::Constants {
            visibility,
            register_number: first,
            space: second,
            count: third,
        };
    }
    Item::Descriptor {
        parameter_type: kind,
        visibility,
        register_number: first,
        space: second,
        flags: field_in_11(wire::u32_at(d, 0), third),
    }
}

// The static sampler at a place.
fn sampler(d: &[u8], at: usize) -> Item
    requires { at < 4294967296000 }
    ensures { result ≡ sampler_of d.now at }
{
    Item::Sampler {
        filter: wire::u32_at(d, at),
        address_u: wire::u32_at(d, at + 4),
        address_v: wire::u32_at(d, at + 8),
        address_w: wire::u32_at(d, at + 12),
        lod_bias: single_of(wire::u32_at(d, at + 16)),
        anisotropy: wire::u32_at(d, at + 20),
        comparison: wire::u32_at(d, at + 24),
        border: wire::u32_at(d, at + 28),
        least_lod: single_of(wire::u32_at(d, at + 32)),
        greatest_lod: single_of(wire::u32_at(d, at + 36)),
        register_number: wire::u32_at(d, at + 40),
        space: wire::u32_at(d, at + 44),
        visibility: wire::u32_at(d, at + 48),
    }
}

fn item_at(d: &[u8], i: usize) -> Item
    requires { i < 8589934592 }
    ensures { result ≡ item_at d.now i }
{
    let parameters = wire::u32_at(d, 4) as usize;
    if i < parameters {
        return parameter(d, i);
    }
    sampler(d, wire::u32_at(d, 16) as usize + 52 * (i - parameters))
}

// Item i: 46 to 51, then 26.
pub fn item(d: &[u8], i: usize) -> Result<Item, Refusal>
    ensures { result ≡ item_of d.now i }
{
    judge_query(d, i)?;
    Ok(item_at(d, i))
}

// Item i by itself, whatever the others are: 46, 47, 26, then 48 to 51 of its own.
pub fn item_alone(d: &[u8], i: usize) -> Result<Item, Refusal>
    ensures { result ≡ item_alone_of d.now i }
{
    judge_alone(d, i)?;
    Ok(item_at(d, i))
}

// ---- ranges

// The range at a place, of a version: the offset from the table's start is last, in 1.1 after the flags.
fn range_of(version: u32, d: &[u8], at: usize) -> DescriptorRange
    requires { at < 1099511627776 }
    ensures { result ≡ range_of version d.now at }
{
    DescriptorRange {
        range_type: wire::u32_at(d, at),
        descriptors: wire::u32_at(d, at + 4),
        base_register: wire::u32_at(d, at + 8),
        space: wire::u32_at(d, at + 12),
        flags: field_in_11(version, wire::u32_at(d, at + 16)),
        offset: wire::u32_at(d, at + by_version(version, 16, 20)),
    }
}

// Range j of item i: 26 where it is no table or has no such range.
// Stays: an item's and a range's number go beside the data, as in the public calls `range` and `range_alone` (a).
fn range_in(d: &[u8], i: usize, j: usize) -> Result<DescriptorRange, Refusal>
    ensures { result ≡ under (range_there d.now i j) (range_shown d.now i j) }
{
    if wire::u32_at(d, 4) as usize <= i {
        return wire::refused(26, 0);
    }
    let at = wire::u32_at(d, 8) as usize + 12 * i;
    let data = wire::u32_at(d, at + 8) as usize;
    if wire::u32_at(d, at) != 0 || wire::u32_at(d, data) as usize <= j {
        return wire::refused(26, 0);
    }
    let version = wire::u32_at(d, 0);
    let first = wire::u32_at(d, data + 4) as usize;
    Ok(range_of(version, d, range_place(version, first, j)))
}

// Range j of item i: 46 to 51, then 26.
pub fn range(d: &[u8], i: usize, j: usize) -> Result<DescriptorRange, Refusal>
    ensures { result ≡ range_answer_of d.now i j }
{
    judge_query(d, i)?;
    range_in(d, i, j)
}

// Range j of item i by itself, whatever the other items are: what the item by itself gives, then 26.
pub fn range_alone(d: &[u8], i: usize, j: usize) -> Result<DescriptorRange, Refusal>
    ensures { result ≡ range_alone_of d.now i j }
{
    judge_alone(d, i)?;
    range_in(d, i, j)
}
