ghost use Rattle.std.specs.Prelude.{◌≡◌, ℕ, ◌+◌, ◌<◌, ◌≤◌, List, [], ◌∷◌, length, MatchOption, ◌≢◌, slice_index, take};
ghost use Rattle.script.specs.Lines.{lines_left};

// The bytes before the first b, or all where there is none.
pub(crate) fn before(bytes: &[u8], b: u8) -> &[u8]
    ensures front { result.now ≡ take (length result.now) bytes.now }
    ensures lacks { (k : ℕ) → k < length result.now → slice_index result.now k ≢ b }
    ensures stops { length result.now < length bytes.now → slice_index bytes.now (length result.now) ≡ b }
{
    match bytes.iter().position(|x| *x == b) {
        Some(n) => &bytes[..n],
        None => bytes,
    }
}

// Stands over a script, and counts its lines from 1: `line` is the number of the line read last.
#[derive(Drop)]
pub struct Reader<'a> {
    bytes: &'a [u8],
    at: usize,
    line: usize,
    ghost inside: { («at» ≤ length bytes.now) × (line ≤ «at» + 1) },
}

impl<'a> Reader<'a> {
    // A reader at the script's start.
    pub fn new(bytes: &'a [u8]) -> Reader<'a>
        ensures { (result.bytes.now ≡ bytes.now) × ((result.at ≡ 0) × (result.line ≡ 0)) }
    {
        Reader {
            bytes,
            at: 0,
            line: 0,
        }
    }

    // The number of the line read last.
    pub fn line(&self) -> usize
        ensures { result ≡ self.now.line }
    {
        self.line
    }

    // The next line, if there is one.
    pub fn next_line(&mut self) -> Option<&'a [u8]>
        ensures same { self.new.bytes.now ≡ self.old.bytes.now }
        ensures lines { MatchOption result (lines_left self.old.bytes.now self.old.at self.old.line ≡ []) (λ l. lines_left self.old.bytes.now self.old.at self.old.line ≡ l.now ∷ lines_left self.new.bytes.now self.new.at self.new.line) }
        ensures counted { MatchOption result (self.new.line ≡ self.old.line) (λ _. self.new.line ≡ self.old.line + 1) }
    {
        if self.at >= self.bytes.len() && self.line > 0 {
            return None;
        }
        let rest = &self.bytes[self.at..];
        let line = before(rest, b'\n');
        self.line += 1;
        self.at = (self.at + line.len() + 1).min(self.bytes.len());
        Some(line)
    }
}
