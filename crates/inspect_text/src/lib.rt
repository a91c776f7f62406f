// What the small program prints, as one text.
#![tactic(auto)]

ghost use Rattle.std.specs.Prelude.{◌≡◌, ◌+◌, ◌≤◌, ◌++◌, List, ℕ, length, take};
ghost use Rattle.io.specs.Counts.{IsPrefixLen};
ghost use Rattle.wire.specs.Verdict.{Accepted};
ghost use Rattle.part_table_layout.specs.Table.{count_of, table_judged};
ghost use Rattle.inspect_text.specs.Inspected.{part_lines, inspected, output_of};

// The bytes of a text, zeros after them, and its length. A line has at most 64 bytes, and there are at most 97.
#[derive(Clone, Copy)]
pub struct Output {
    pub bytes: [u8; 6208],
    pub len: usize,
}

// Puts a line after a text that has room for it.
fn put(text: &mut Output, s: &[u8])
    requires { text.old.len + length s.now ≤ 6208 }
    ensures text_after { (t : List ℕ) → text.old ≡ output_of t → text.new ≡ output_of (t ++ s.now) }
    ensures len_after { text.new.len ≡ text.old.len + length s.now }
{
    wire::put(&mut text.bytes, text.len, s);
    text.len += s.len();
}

// Puts the lines of the parts.
fn put_parts(text: &mut Output, b: &[u8])
    requires len_bound { text.old.len ≤ 64 }
    requires b_value { table_judged b.now ≡ Accepted }
    ensures { (t : List ℕ) → text.old ≡ output_of t → text.new ≡ output_of (t ++ part_lines b.now (count_of b.now)) }
{
    let t = part_table::read(b);
    for i in 0..t.count {
        let line = lines::part(t.names[i], t.offsets[i], t.sizes[i]);
        put(text, &line.bytes[..line.len]);
    }
}

// What the small program prints of the bytes on standard input. Of a longer input 65,537 bytes are enough.
pub fn text(b: &[u8]) -> Output
    ensures value { result ≡ output_of (inspected b.now) }
    ensures prefix_len { IsPrefixLen result.len result.bytes }
    ensures shown { take result.len result.bytes ≡ inspected b.now }
{
    let bytes = [0; 6208];
    let mut text = Output { bytes, len: 0 };
    if 65536 < b.len() {
        put(&mut text, b"too long\n");
        return text;
    }
    match container::open(b, 1) {
        Ok(o) => {
            let line = lines::accepted(o.file_edition, o.parts);
            put(&mut text, &line.bytes[..line.len]);
            put_parts(&mut text, b);
        }
        Err(r) => {
            let line = lines::refused(r);
            put(&mut text, &line.bytes[..line.len]);
        }
    }
    text
}
