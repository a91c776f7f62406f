// The reader of the data of a DXIL part alone: the program header, refusals 40 to 42, and the bitcode as a part of the caller's slice.
#![tactic(auto)]

ghost use Rattle.std.specs.Prelude.{◌≡◌};
ghost use Rattle.wire.specs.Verdict.{under};
ghost use Rattle.dxil_layout.specs.Program.{header_of, program_judged, program_of, bitcode_of};

use dxil_layout::{Program, ProgramHeader};
use wire::Refusal;

// Refusals 40 to 42.
fn judge(d: &[u8]) -> Result<(), Refusal>
    ensures { result ≡ under (program_judged d.now) tt }
{
    let len = d.len();
    if len < 24 {
        return wire::refused(40, 0);
    }
    if wire::u32_at(d, 8) != wire::u32_at(b"DXIL", 0) {
        return wire::refused(41, 0);
    }
    if len < 8 + wire::u32_at(d, 16) as usize + wire::u32_at(d, 20) as usize {
        return wire::refused(42, 0);
    }
    Ok(())
}

fn header(d: &[u8]) -> ProgramHeader
    ensures { result ≡ header_of d.now }
{
    let version = wire::byte_at(d, 0) as u32;
    ProgramHeader {
        version_major: version / 16,
        version_minor: version % 16,
        stage: wire::u16_at(d, 2),
        words: wire::u32_at(d, 4),
        bitcode_major: wire::byte_at(d, 13) as u32,
        bitcode_minor: wire::byte_at(d, 12) as u32,
        bitcode_offset: wire::u32_at(d, 16),
        bitcode_size: wire::u32_at(d, 20),
    }
}

// The header's fields and the bitcode as a stretch of the data, or the refusal.
pub fn read(d: &[u8]) -> Result<Program, Refusal>
    ensures { result ≡ program_of d.now }
{
    judge(d)?;
    let header = header(d);
    Ok(Program {
        header,
        start: 8 + header.bitcode_offset as usize,
        len: header.bitcode_size as usize,
    })
}

// The bitcode, a part of the caller's slice: no bytes where the reader refuses.
pub fn bitcode<'a>(d: &'a [u8]) -> &'a [u8]
    ensures { result.now ≡ bitcode_of d.now }
{
    match read(d) {
        Ok(p) => &d[p.start..p.start + p.len],
        Err(_) => &d[0..0],
    }
}
