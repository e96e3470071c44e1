ghost use Rattle.std.specs.Prelude.{◌≡◌};
ghost use Rattle.script.specs.Words.{number_of};

// The number that a word writes: 1 to 20 digits, below 2^64.
pub fn number(text: &[u8]) -> Option<u64>
    ensures { result ≡ number_of text.now }
{
    if text.is_empty() || text.len() > 20 {
        return None;
    }
    let mut n: u64 = 0;
    for b in text {
        if !b.is_ascii_digit() {
            return None;
        }
        let digit = (*b - b'0') as u64;
        n = n.checked_mul(10)?.checked_add(digit)?;
    }
    Some(n)
}
