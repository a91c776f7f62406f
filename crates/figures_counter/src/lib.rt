// The night's figures: started at an edition, one container more, two figures joined. Figures that someone made up get an answer too, and no
// count wraps: it stays at its greatest number.
#![tactic(auto)]

ghost use Rattle.std.specs.Prelude.{◌≡◌, ◌<◌, min, leb};
ghost use Rattle.psv0_layout.specs.Answers.{field_of};
ghost use Rattle.psv0_layout.specs.Shown.{number, set_if};
ghost use Rattle.figures_layout.specs.Kinds.{answer_of};
ghost use Rattle.figures_layout.specs.Figures.{sums, summed, joined, started, added};
ghost use Rattle.figures_counter.specs.Steps.{InRange, one_refused, one_accepted};

use figures_layout::{Addition, Figures, Full, JoinError, Told};
use wire::Refusal;

// No container, at an edition.
pub fn start(edition: usize) -> Figures
    ensures { result ≡ started edition }
{
    Figures {
        edition,
        bytes: 0,
        opened: 0,
        accepted: 0,
        refused: 0,
        refusals: [0; 28],
        editions: [0; 4],
        stages: [0; 16],
        unset: 0,
    }
}

// ---- one container more

// The stage that a reading at an edition shows of a file.
fn stage_shown(stage: u8, edition: usize, file_edition: usize) -> Option<u32>
    ensures { result ≡ field_of (set_if (leb 1 (min edition file_edition)) (number stage)) }
{
    (1 <= edition.min(file_edition)).then_some(u32::from(stage))
}

// What opening a container tells. Asking for its PSV0 part is one opening, and says where S and the stage are.
fn told(b: &[u8], edition: usize) -> Result<Told, Refusal>
    ensures { result ≡ (answer_of edition b.now).opening }
{
    let p = container::part(b, edition, b"PSV0")?;
    let file_edition = constants::edition_of(wire::u32_at(b, p.offset + 8) as usize);
    let stage = stage_shown(wire::byte_at(b, p.offset + 36), edition, file_edition);
    Ok(Told {
        file_edition,
        stage,
    })
}

fn count_refused(mut f: Figures, n: u8) -> Figures
    requires { n < 28 }
    ensures { result ≡ one_refused f n }
{
    let i = usize::from(n);
    f.opened = f.opened.saturating_add(1);
    f.refused = f.refused.saturating_add(1);
    f.refusals[i] = f.refusals[i].saturating_add(1);
    f
}

fn count_accepted(mut f: Figures, t: Told, len: usize) -> Figures
    requires { InRange t }
    ensures { result ≡ one_accepted f t len }
{
    f.bytes = f.bytes.saturating_add(len as u64);
    f.opened = f.opened.saturating_add(1);
    f.accepted = f.accepted.saturating_add(1);
    f.editions[t.file_edition] = f.editions[t.file_edition].saturating_add(1);
    match t.stage {
        Some(n) => {
            let i = n as usize;
            f.stages[i] = f.stages[i].saturating_add(1);
        }
        None => f.unset = f.unset.saturating_add(1),
    }
    f
}

// One container more, opened at the figures' edition. With 65,535 opened the figures are full.
pub fn add(f: Figures, b: &[u8]) -> Result<Addition, Full>
    ensures { result ≡ added f b.now }
{
    if 65535 <= f.opened {
        return Err(Full);
    }
    match told(b, f.edition) {
        Ok(t) => Ok(Addition {
            opening: Ok(()),
            figures: count_accepted(f, t, b.len()),
        }),
        Err(r) => Ok(Addition {
            opening: Err(r),
            figures: count_refused(f, r.number),
        }),
    }
}

// ---- two figures joined

// Two lists of counts in one, count by count.
fn sum_counts<const N: usize>(mut a: [u16; N], b: [u16; N]) -> [u16; N]
    ensures { result ≡ sums a.entry b.entry }
{
    for i in 0..N {
        a[i] = a[i].saturating_add(b[i]);
    }
    a
}

fn sum_all(f: Figures, g: Figures) -> Figures
    ensures { result ≡ summed f g }
{
    Figures {
        edition: f.edition,
        bytes: f.bytes.saturating_add(g.bytes),
        opened: f.opened.saturating_add(g.opened),
        accepted: f.accepted.saturating_add(g.accepted),
        refused: f.refused.saturating_add(g.refused),
        refusals: sum_counts(f.refusals, g.refusals),
        editions: sum_counts(f.editions, g.editions),
        stages: sum_counts(f.stages, g.stages),
        unset: f.unset.saturating_add(g.unset),
    }
}

// The figures of one list of files after the other, where they are of one edition and there is room.
pub fn join(f: Figures, g: Figures) -> Result<Figures, JoinError>
    ensures { result ≡ joined f g }
{
    if f.edition != g.edition {
        return Err(JoinError::OtherEdition);
    }
    if 65535 < u32::from(f.opened) + u32::from(g.opened) {
        return Err(JoinError::Full);
    }
    Ok(sum_all(f, g))
}
