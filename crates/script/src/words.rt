ghost use Rattle.std.specs.Prelude.{◌≡◌, ℕ, ◌+◌, ◌≤◌, length};
ghost use Rattle.script.specs.Commands.{ended};
ghost use Rattle.script.specs.Words.{words_left, first, rest, over, bad, judged};
ghost use Rattle.script.specs.Spans.{part};

use crate::fault::{BadWord, ScriptFault};
use crate::number::number;
use crate::reader::before;

// A word of a line, and the place of its first byte in it.
#[derive(Clone, Copy)]
pub struct Word<'a> {
    pub text: &'a [u8],
    pub place: usize,
}

impl Word<'_> {
    // This word, told as a bad one.
    pub fn bad(&self) -> BadWord
        ensures { result ≡ bad (part self.now) }
    {
        BadWord { place: self.place }
    }
}

// The words of a line, one after the other; behind the last word, `at` stands one past the line's end.
#[derive(Drop)]
pub struct Words<'a> {
    line: &'a [u8],
    at: usize,
    ghost inside: { «at» ≤ length line.now + 1 },
}

impl<'a> Words<'a> {
    // The words of a line, from its first.
    pub fn new(line: &'a [u8]) -> Words<'a>
        ensures { (result.line.now ≡ line.now) × (result.at ≡ 0) }
    {
        Words { line, at: 0 }
    }

    // The next word; where none is left, an empty one at the line's end.
    pub fn next_word(&mut self) -> Word<'a>
        ensures same { self.new.line.now ≡ self.old.line.now }
        ensures word { part result ≡ first (length self.old.line.now) (words_left self.old.line.now self.old.at) }
        ensures left { words_left self.new.line.now self.new.at ≡ rest (words_left self.old.line.now self.old.at) }
    {
        let place = self.at;
        let Some(rest) = self.line.get(place..) else {
            return Word {
                text: &[],
                place: self.line.len(),
            };
        };
        let text = before(rest, b' ');
        self.at = place + text.len() + 1;
        Word { text, place }
    }

    // The place of the next word, if one is left.
    pub fn extra(&self) -> Option<usize>
        ensures { result ≡ over (words_left self.now.line.now self.now.at) }
    {
        if self.at <= self.line.len() {
            Some(self.at)
        } else {
            None
        }
    }

    // What a line's words gave, unless one of them is bad; a word that is left over is bad too, after all others.
    pub fn end<X: Copy>(&self, given: Result<X, BadWord>, line: usize) -> Result<X, ScriptFault>
        ensures { result ≡ ended line given (words_left self.now.line.now self.now.at) }
    {
        let x = given.map_err(|word| ScriptFault::bad_word(word, line))?;
        match self.extra() {
            Some(place) => Err(ScriptFault::bad_word(BadWord { place }, line)),
            None => Ok(x),
        }
    }
}

// The number of a word, if it is one and at most `most`.
pub fn judge(word: Word, most: u64) -> Result<u64, BadWord>
    ensures { result ≡ judged most (part word.entry) }
{
    number(word.text).filter(|n| *n <= most).ok_or(word.bad())
}
