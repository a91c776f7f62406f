// The words that programs are started with.
#![tactic(auto)]

ghost use Rattle.std.specs.Prelude.{◌≡◌};
ghost use Rattle.words.specs.Word.{named_of};

// Why a word names no number below 4,294,967,296.
#[derive(Clone, Copy, Debug, PartialEq, Eq)]
pub enum WordError {
    Greater,
    NoNumber,
}

// The number that a word names: decimal digits alone, one at least. One of 4,294,967,296 or more is only told as greater.
pub fn number_of(s: &[u8]) -> Result<u32, WordError>
    ensures { result ≡ named_of s.now }
{
    if s.is_empty() {
        return Err(WordError::NoNumber);
    }
    let mut n: u64 = 0;
    for c in s {
        if !c.is_ascii_digit() {
            return Err(WordError::NoNumber);
        }
        n = (10 * n + u64::from(c - b'0')).min(1 << 32);
    }
    u32::try_from(n).or(Err(WordError::Greater))
}
