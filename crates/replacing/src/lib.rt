// The replacing of a container's PSV0 part: the container with other PSV0 data, in the caller's output (document 02, Ask 11).
// Every check is made before the first byte is written.
#![tactic(auto)]

ghost use Rattle.std.specs.Prelude.{◌≡◌, ◌++◌, suc, ◌+◌, ◌-◌, ◌*◌, ◌≤◌, ◌<◌, length};
ghost use Rattle.wire.specs.Number.{le32, placed};
ghost use Rattle.wire.specs.Verdict.{under};
ghost use Rattle.part_table_layout.specs.Table.{count_of};
ghost use Rattle.container_layout.specs.Container.{psv0, container_part};
ghost use Rattle.replacing_layout.specs.Replaced.{moved_from, replaced_at, replaced};
ghost use Rattle.replacing_layout.specs.Judged.{sized_as, plain_by, new_judged, replacing_judged};
ghost use Rattle.replacing_layout.specs.Answer.{Replacing, Replaceable};

use part_table_layout::Part;
use places_layout::SectionPlaces;
use replacing_layout::Replacement;
use wire::Refusal;

// ---- checks

// Whether n records, where there are any, are of a size.
fn sized_as(n: u32, stride: u32, size: usize) -> bool
    ensures { result ≡ sized_as n stride size }
{
    n == 0 || stride as usize == size
}

// Plain form by the record of PSV0 data of len bytes that state the size of their runtime record.
#[tactic(auto, unfolding(replacing_layout::specs::Judged::plain_by))]
fn plain_by(p: SectionPlaces, size: usize, len: usize) -> bool
    ensures { result ≡ plain_by p size len }
{
    let edition = p.edition as usize;
    size == constants::edition_size(edition)
        && sized_as(
            p.resource_count,
            p.resource_size,
            psv0_writer::resource_size(edition),
        )
        && if edition == 0 {
            len == places::resources_end(p)
        } else {
            sized_as(p.element_count, p.element_size, 16) && len == places::masks_end(p)
        }
}

// The new data: reader 3's refusals, and 27 where they aren't plain.
fn judge_new(new: &[u8]) -> Result<(), Refusal>
    ensures { result ≡ under (new_judged new.now) tt }
{
    let read = psv0::open_places(new, 3)?;
    if plain_by(read.places, wire::u32_at(new, 0) as usize, new.len()) {
        return Ok(());
    }
    wire::refused(27, 0)
}

// The checks after the opening of the container, in order, given its PSV0 part: those of the new data, 2, 28. Answers the length of the result.
fn judge(b: &[u8], edition: usize, part: Part, new: &[u8], room: usize) -> Result<usize, Refusal>
    requires { container_part edition b.now psv0 ≡ Ok part }
    ensures { result ≡ under (replacing_judged edition b.now new.now room) (length (replaced b.now new.now)) }
{
    judge_new(new)?;
    let len = b.len() - part.size + new.len();
    if 16777216 < len {
        return wire::refused(2, 0);
    }
    if room < len {
        return wire::refused(28, 0);
    }
    Ok(len)
}

// ---- the result, each stretch in its own part of the output

// The bytes up to the offsets that change: as they were, but the file size.
fn write_head(out: &mut [u8], head: &[u8], len: u32)
    requires { length out.old ≡ length head.now }
    ensures { out.new ≡ placed head.now 24 (le32 len) }
{
    wire::copy(out, head);
    wire::put_u32(out, 24, len);
}

// The offsets of the parts after a part, whose data get len bytes.
// Stays: (d) the assembler's offsets follow from the end of the part before, these from what stands in b: one function for both would share a call of put_u32.
fn write_offsets(out: &mut [u8], b: &[u8], part: Part, len: usize)
    requires { (Replaceable b.now part.number part.offset part.size len) × (length out.old ≡ 4 * (count_of b.now - suc part.number)) }
    ensures { out.new ≡ moved_from b.now part.number len (suc part.number) (count_of b.now - suc part.number) }
{
    let first = 36 + 4 * part.number;
    for j in 0..out.len() / 4 {
        let offset = wire::u32_at(b, first + 4 * j) as usize;
        wire::put_u32(out, 4 * j, (offset + len - part.size) as u32);
    }
}

// The bytes up to the part's name, which are kept, then the size of its data, and the data.
fn write_part(out: &mut [u8], kept: &[u8], data: &[u8])
    requires { (length out.old ≡ length kept.now + 4 + length «data».now) × (length «data».now ≤ 16777216) }
    ensures { out.new ≡ kept.now ++ (le32 (length «data».now) ++ «data».now) }
{
    let named = kept.len();
    let head = named + 4;
    wire::copy(&mut out[0..named], kept);
    wire::put_u32(out, named, data.len() as u32);
    wire::copy(&mut out[head..], data);
}

// The container b with the data new in a part.
fn write(out: &mut [u8], b: &[u8], part: Part, new: &[u8])
    requires { (Replaceable b.now part.number part.offset part.size (length new.now)) × (length out.old ≡ length b.now + length new.now - part.size) }
    ensures { out.new ≡ replaced_at b.now part.number new.now }
{
    let head = 36 + 4 * part.number;
    let table = 32 + 4 * wire::u32_at(b, 28) as usize;
    let named = part.offset + 4;
    let end = part.offset + 8 + part.size;
    let after = part.offset + 8 + new.len();
    let len = out.len();
    write_head(&mut out[0..head], &b[0..head], len as u32);
    write_offsets(&mut out[head..table], b, part, new.len());
    write_part(&mut out[table..after], &b[table..named], new);
    wire::copy(&mut out[after..], &b[end..]);
}

// Writes the container b with the PSV0 data new into the output, and answers with its length and the record of its section places, as an
// opening at that edition hands it back. Refusals, in order: those of opening b, reader 3's for the new data, 27 where they aren't plain, 2, 28. A
// refusal leaves every byte of the output, and bytes past the result keep their contents.
pub fn replace_psv0(
    b: &[u8],
    edition: usize,
    new: &[u8],
    out: &mut [u8],
) -> Result<Replacement, Refusal>
    ensures { Replacing edition b.now new.now out.old result out.new }
{
    let part = container::part(b, edition, b"PSV0")?;
    let len = judge(b, edition, part, new, out.len())?;
    let alone = psv0::open_places(new, edition)?;
    write(&mut out[0..len], b, part, new);
    Ok(Replacement {
        len,
        places: places::moved(alone.places, (part.offset + 8) as u32),
    })
}
