// The report on the root signature of a container, above the opening and the reader of such data through their promises: what opening gives, 26,
// then 46 to 51; the header, the items and the ranges of tables.
#![tactic(auto)]

ghost use Rattle.std.specs.Prelude.{◌≡◌};
ghost use Rattle.root_signature_report_layout.specs.Reported.{root_report_of, item_report_of, range_report_of};

use root_signature_layout::{DescriptorRange, Item};
use root_signature_report_layout::RootReport;
use wire::Refusal;

// The report at an edition: the header, and the part's data as a stretch of the container.
pub fn report(b: &[u8], edition: usize) -> Result<RootReport, Refusal>
    ensures { result ≡ root_report_of edition b.now }
{
    let p = container::part(b, edition, b"RTS0")?;
    let start = p.offset + 8;
    let header = root_signature::read(&b[start..start + p.size])?;
    Ok(RootReport {
        header,
        start,
        len: p.size,
    })
}

// Item i: those of the report, then 26.
pub fn item(b: &[u8], edition: usize, i: usize) -> Result<Item, Refusal>
    ensures { result ≡ item_report_of edition b.now i }
{
    let p = container::part(b, edition, b"RTS0")?;
    let start = p.offset + 8;
    root_signature::item(&b[start..start + p.size], i)
}

// Range j of item i: those of the report, then 26.
pub fn range(b: &[u8], edition: usize, i: usize, j: usize) -> Result<DescriptorRange, Refusal>
    ensures { result ≡ range_report_of edition b.now i j }
{
    let p = container::part(b, edition, b"RTS0")?;
    let start = p.offset + 8;
    root_signature::range(&b[start..start + p.size], i, j)
}
