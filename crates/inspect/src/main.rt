// Reads a container of at most 65,536 bytes from standard input and prints its part table, or its refusal.
#![tactic(auto)]

fn main() {
    // One byte more than is read of a container tells a longer input.
    let mut buffer = [0; 65537];
    let n = io::read_full(0, &mut buffer);
    let text = inspect_text::text(&buffer[..n]);
    printing::text(&text.bytes[..text.len]);
}
