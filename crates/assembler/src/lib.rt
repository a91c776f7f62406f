// The container assembler: from names, sizes, data end to end and a digest to a container in the caller's output.
// Every check is made before the first byte is written.
#![tactic(auto)]

ghost use Rattle.std.specs.Prelude.{◌≡◌, ◌++◌, ◌+◌, ◌*◌, ◌≤◌, ◌<◌, eqb, get_or, length, replicate};
ghost use Rattle.wire.specs.Number.{u32_at, le32};
ghost use Rattle.wire.specs.Verdict.{each, under};
ghost use Rattle.part_table_layout.specs.Table.{may_stand, name_judged};
ghost use Rattle.assembler_layout.specs.Assembled.{total, round_up, file_length, offsets_from, assembled, parts_right};
ghost use Rattle.assembler_layout.specs.Answer.{given, answer, output, sized, Passed, header_bytes, front_bytes};
ghost use Rattle.assembler.specs.Parts.{parts_of};

use wire::Refusal;

// ---- checks

// Whether the sizes sum to a number. They are taken from it one by one, so that no sum can wrap.
fn sums_to(sizes: &[u32], sum: usize) -> bool
    ensures { result ≡ eqb (total sizes.now) sum }
{
    let mut left = sum;
    for size in sizes {
        let Some(less) = left.checked_sub(*size as usize) else {
            return false;
        };
        left = less;
    }
    left == 0
}

// Whether a part with this name may stand after the first n, whose names were seen. The search ends at the first that is the same, so that names
// that repeat cost no more than others.
fn may_stand(seen: &[u32; 96], n: usize, name: u32) -> bool
    requires { n ≤ 96 }
    ensures { result ≡ may_stand (λ k. get_or seen.now k 0) name n }
{
    match part_table::find_name(seen, n, name) {
        Some(_) => part_table::may_repeat(name),
        None => true,
    }
}

// No name that may not repeat stands twice among the n names: refusal 9.
fn judge_names(names: &[u8], n: usize) -> Result<(), Refusal>
    requires { n ≤ 96 }
    ensures { result ≡ under (each (name_judged (λ k. u32_at names.now (4 * k))) n) tt }
{
    let mut seen = [0u32; 96];
    for i in 0..n {
        let name = wire::u32_at(names, 4 * i);
        if !may_stand(&seen, i, name) {
            return wire::refused(9, i);
        }
        seen[i] = name;
    }
    Ok(())
}

// The first multiple of 4 that is not less.
fn round_up(n: usize) -> usize
    requires { n < 9223372036854775808 }
    ensures { result ≡ round_up n }
{
    (n + 3) / 4 * 4
}

// The length of the container with parts of these sizes.
fn file_length(sizes: &[u32]) -> usize
    requires { length sizes.now ≤ 96 }
    ensures { result ≡ file_length (sized sizes.now) }
{
    let mut end = 32 + 4 * sizes.len();
    for size in sizes {
        end = round_up(end) + 8 + *size as usize;
    }
    end
}

// ---- the sections, each in its own stretch of the output

// The 32 bytes of the header.
fn write_header(out: &mut [u8], digest: &[u8], len: u32, n: u32)
    requires { (length out.old ≡ 32) × (length digest.now ≡ 16) }
    ensures { out.new ≡ header_bytes digest.now len n }
{
    wire::copy(&mut out[0..4], b"DXBC");
    wire::copy(&mut out[4..20], digest);
    wire::put_u16(out, 20, 1);
    wire::put_u16(out, 22, 0);
    wire::put_u32(out, 24, len);
    wire::put_u32(out, 28, n);
}

// The offsets of the parts, 4 bytes a part.
fn write_offsets(out: &mut [u8], sizes: &[u32])
    requires { (length out.old ≡ 4 * length sizes.now) × (file_length (sized sizes.now) ≤ 16777216) }
    ensures { out.new ≡ offsets_from (sized sizes.now) 0 (length sizes.now) }
{
    let mut end = 32 + 4 * sizes.len();
    for (i, size) in sizes.iter().enumerate() {
        let start = round_up(end);
        wire::put_u32(out, 4 * i, start as u32);
        end = start + 8 + *size as usize;
    }
}

// The header and the offsets: what stands before the first part.
fn write_front(out: &mut [u8], sizes: &[u32], digest: &[u8], len: u32)
    requires { (length out.old ≡ 32 + 4 * length sizes.now) × ((length digest.now ≡ 16) × (file_length (sized sizes.now) ≤ 16777216)) }
    ensures { out.new ≡ front_bytes digest.now len sizes.now }
{
    let end = out.len();
    write_header(&mut out[0..32], digest, len, sizes.len() as u32);
    write_offsets(&mut out[32..end], sizes);
}

// One part: as many zero bytes as fill the space before it, its name, its size and its data.
fn write_part(out: &mut [u8], filler: usize, name: &[u8], size: u32, data: &[u8])
    requires { (length out.old ≡ filler + 8 + length «data».now) × (length name.now ≡ 4) }
    ensures { out.new ≡ replicate filler 0 ++ (name.now ++ (le32 size ++ «data».now)) }
{
    let named = filler + 4;
    let head = filler + 8;
    let end = out.len();
    out[0..filler].fill(0);
    wire::copy(&mut out[filler..named], name);
    wire::put_u32(out, named, size);
    wire::copy(&mut out[head..end], data);
}

// ---- what is given

// The names, four bytes a part, the sizes, the parts' data end to end, and the digest. The number of parts is the number of sizes.
#[derive(Clone, Copy)]
pub struct Parts<'a> {
    pub names: &'a [u8],
    pub sizes: &'a [u32],
    pub data: &'a [u8],
    pub digest: &'a [u8],
}

impl<'a> Parts<'a> {
    // Whether names, sizes, data and digest have the lengths that they should: refusal 27.
    #[tactic(auto, unfolding(assembler_layout::specs::Assembled::parts_right))]
    fn lengths_right(&self) -> bool
        ensures { result ≡ parts_right (parts_of self.now) }
    {
        self.names.len() % 4 == 0
            && self.names.len() / 4 == self.sizes.len()
            && self.digest.len() == 16
            && sums_to(self.sizes, self.data.len())
    }

    // Every check, in order: 27, 6, 9, 2, 28.
    fn judge(&self, room: usize) -> Result<usize, Refusal>
        ensures { result ≡ answer (parts_of self.now) room }
    {
        let n = self.sizes.len();
        if !self.lengths_right() {
            return wire::refused(27, 0);
        }
        if 96 < n {
            return wire::refused(6, 0);
        }
        judge_names(self.names, n)?;
        let len = file_length(self.sizes);
        if 16777216 < len {
            return wire::refused(2, 0);
        }
        if room < len {
            return wire::refused(28, 0);
        }
        Ok(len)
    }

    // The whole container, in an output that is exactly as long.
    fn write(&self, out: &mut [u8])
        requires { Passed (parts_of self.now) (length out.old) }
        ensures { out.new ≡ assembled (parts_of self.now) }
    {
        let len = out.len();
        let mut end = 32 + 4 * self.sizes.len();
        write_front(&mut out[0..end], self.sizes, self.digest, len as u32);
        let mut from = 0;
        for (i, size) in self.sizes.iter().enumerate() {
            let start = round_up(end);
            let next = start + 8 + *size as usize;
            let to = from + *size as usize;
            let name = 4 * i;
            write_part(
                &mut out[end..next],
                start - end,
                &self.names[name..name + 4],
                *size,
                &self.data[from..to],
            );
            end = next;
            from = to;
        }
    }
    // Assembles a container at the start of the output, and answers its length; or answers a refusal, 27, 6, 9, 2 or 28, with the
    // output as it was.
    pub fn assemble(&self, out: &mut [u8]) -> Result<usize, Refusal>
        ensures value { result ≡ answer (parts_of self.now) (length out.old) }
        ensures out_after { out.new ≡ output (parts_of self.now) out.old }
    {
        let len = self.judge(out.len())?;
        self.write(&mut out[0..len]);
        Ok(len)
    }
}

// The same, with what is given in parameters of their own.
// Stays: (a) docs/ARCHITECTURE.md names this call, and C's qollqamir_assemble has these parameters.
pub fn assemble(
    names: &[u8],
    sizes: &[u32],
    data: &[u8],
    digest: &[u8],
    out: &mut [u8],
) -> Result<usize, Refusal>
    ensures value { result ≡ answer (given names.now sizes.now «data».now digest.now) (length out.old) }
    ensures out_after { out.new ≡ output (given names.now sizes.now «data».now digest.now) out.old }
{
    let parts = Parts {
        names,
        sizes,
        data,
        digest,
    };
    parts.assemble(out)
}
