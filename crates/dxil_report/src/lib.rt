// The report on the DXIL part of a container, above the opening and the reader of DXIL data through their promises: what opening gives, then
// 40 to 42; the program header, the bitcode, and the stage that PSV0 shows beside the header's.
#![tactic(auto)]

ghost use Rattle.std.specs.Prelude.{◌≡◌};
ghost use Rattle.dxil_report_layout.specs.Reported.{stages_of, program_report_of, bitcode_reported};

use dxil_report_layout::{ProgramReport, Stages};
use wire::Refusal;

// The header's stage beside PSV0's, compared as numbers.
pub fn compared(stage: u32, other: Option<u32>) -> Stages
    ensures { result ≡ stages_of stage other }
{
    match other {
        None => Stages::Unset,
        Some(n) if stage == n => Stages::Equal,
        Some(_) => Stages::Different,
    }
}

// The report at an edition.
pub fn report(b: &[u8], edition: usize) -> Result<ProgramReport, Refusal>
    ensures { result ≡ program_report_of edition b.now }
{
    let part = container::part(b, edition, b"DXIL")?;
    let start = part.offset + 8;
    let p = dxil::read(&b[start..start + part.size])?;
    let psv0_stage = container::runtime_info(b, edition)?.stage;
    Ok(ProgramReport {
        header: p.header,
        start: start + p.start,
        len: p.len,
        psv0_stage,
        stages: compared(p.header.stage, psv0_stage),
    })
}

// The bitcode, a part of the caller's slice: no bytes where the report refuses.
pub fn bitcode<'a>(b: &'a [u8], edition: usize) -> &'a [u8]
    ensures { result.now ≡ bitcode_reported edition b.now }
{
    dxil::bitcode(container::part_bytes(b, edition, b"DXIL"))
}
