// What the programs that try the writers print, and the stretches of slices that they look at.
#![tactic(auto)]

ghost use Rattle.std.specs.Prelude.{◌≡◌, [], ◌+◌, ◌≤◌, ◌<◌, length, take, drop};

use wire::Refusal;

// A number, after a space.
pub fn number(n: usize) {
    printing::text(b" ");
    printing::number(n);
}

pub fn refused(r: Refusal) {
    printing::text(b" refused");
    number(r.number as usize);
    number(r.place);
}

pub fn either(ok: bool, yes: &[u8], no: &[u8]) {
    printing::text(if ok { yes } else { no });
}

// So many bytes of a slice from a place on; none where they are not all there.
pub fn stretch(s: &[u8], from: usize, len: usize) -> &[u8]
    ensures inside { from + len ≤ length s.now → result.now ≡ take len (drop from s.now) }
    ensures outside { length s.now < from + len → result.now ≡ [] }
{
    s.get(from..)
        .and_then(|rest| rest.get(..len))
        .unwrap_or_default()
}
