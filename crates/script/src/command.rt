ghost use Rattle.std.specs.Prelude.{◌≡◌, length};
ghost use Rattle.script.specs.Commands.{command_of, call_of_words, letter_of_word, line_command, line_call};
ghost use Rattle.script.specs.Kinds.{Terms, top};
ghost use Rattle.script.specs.Spans.{part};
ghost use Rattle.script.specs.Parts.{tell, Commanded};
ghost use Rattle.script.specs.Words.{words_left, judged};

use crate::fault::{BadWord, ScriptFault};
use crate::kinds::ScriptKind;
use crate::words::{Word, Words, judge};
use history::call::Call;

// The largest time, number of a writer or fields value.
const TOP: u64 = u32::MAX as u64;

// A command of a script, with its words as they stand in the line.
#[derive(Clone, Copy)]
pub enum Command<'a> {
    Open,
    Read {
        time: Word<'a>,
        record: Word<'a>,
    },
    Close {
        time: Word<'a>,
    },
    Begin,
    Look {
        writer: Word<'a>,
        record: Word<'a>,
    },
    Change {
        writer: Word<'a>,
        record: Word<'a>,
        attribute: Word<'a>,
        value: Word<'a>,
    },
    Commit {
        writer: Word<'a>,
    },
    Abandon {
        writer: Word<'a>,
    },
    Kept {
        record: Word<'a>,
    },
}

// The command of a letter, its words taken off; none for an unknown letter.
pub fn pick<'a>(letter: u8, words: &mut Words<'a>) -> Option<Command<'a>>
    ensures same { words.new.line.now ≡ words.old.line.now }
    ensures taken { Commanded (command_of (length words.old.line.now) letter (words_left words.old.line.now words.old.at)) result (words_left words.new.line.now words.new.at) }
{
    match char::from(letter) {
        'o' => Some(Command::Open),
        'r' => Some(Command::Read {
            time: words.next_word(),
            record: words.next_word(),
        }),
        'c' => Some(Command::Close {
            time: words.next_word(),
        }),
        'b' => Some(Command::Begin),
        'g' => Some(Command::Look {
            writer: words.next_word(),
            record: words.next_word(),
        }),
        'e' => Some(Command::Change {
            writer: words.next_word(),
            record: words.next_word(),
            attribute: words.next_word(),
            value: words.next_word(),
        }),
        'm' => Some(Command::Commit {
            writer: words.next_word(),
        }),
        'a' => Some(Command::Abandon {
            writer: words.next_word(),
        }),
        'v' => Some(Command::Kept {
            record: words.next_word(),
        }),
        _ => None,
    }
}

// A time or a writer's number.
fn judge_time(word: Word) -> Result<u32, BadWord>
    ensures { result ≡ judged top (part word.entry) }
{
    let n = judge(word, TOP)?;
    Ok(n as u32)
}

// The call that a command makes, its words judged from left to right; else the first bad one.
pub fn call_of<K: ScriptKind>(command: Command) -> Result<Call<K::Edit>, BadWord>
    ensures { result ≡ call_of_words K.terms (tell command.entry) }
{
    match command {
        Command::Open => Ok(Call::Open),
        Command::Read { time, record } => {
            Ok(Call::Read(judge_time(time)?, judge(record, u64::MAX)?))
        }
        Command::Close { time } => Ok(Call::Close(judge_time(time)?)),
        Command::Begin => Ok(Call::Begin),
        Command::Look { writer, record } => {
            Ok(Call::Look(judge_time(writer)?, judge(record, u64::MAX)?))
        }
        Command::Change {
            writer,
            record,
            attribute,
            value,
        } => {
            let w = judge_time(writer)?;
            let i = judge(record, u64::MAX)?;
            let a = judge(attribute, K::LAST_ATTRIBUTE)?;
            let v = judge(value, K::MOST)?;
            Ok(Call::Change(w, i, K::set(a, v)))
        }
        Command::Commit { writer } => Ok(Call::Commit(judge_time(writer)?)),
        Command::Abandon { writer } => Ok(Call::Abandon(judge_time(writer)?)),
        Command::Kept { record } => Ok(Call::Kept(judge(record, u64::MAX)?)),
    }
}

// A word of one byte.
pub(crate) fn letter_of(text: &[u8]) -> Option<u8>
    ensures { result ≡ letter_of_word text.now }
{
    match text {
        [letter] => Some(*letter),
        _ => None,
    }
}

// The command of a line, from its first word on; none where that is no known letter.
pub fn read_command<'a>(words: &mut Words<'a>) -> Option<Command<'a>>
    ensures same { words.new.line.now ≡ words.old.line.now }
    ensures taken { Commanded (line_command (length words.old.line.now) (words_left words.old.line.now words.old.at)) result (words_left words.new.line.now words.new.at) }
{
    let word = words.next_word();
    pick(letter_of(word.text)?, words)
}

// The call that a line makes, or its refusal.
pub fn read_call<K: ScriptKind>(line: &[u8], number: usize) -> Result<Call<K::Edit>, ScriptFault>
    ensures { result ≡ line_call K.terms number line.now }
{
    let mut words = Words::new(line);
    let Some(command) = read_command(&mut words) else {
        return Err(ScriptFault::unknown_letter(number));
    };
    words.end(call_of::<K>(command), number)
}
