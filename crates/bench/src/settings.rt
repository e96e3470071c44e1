// What the command line asks for.
use crate::plan::Phase;
use std::alloc::Global;
use std::{env, io};
use store::sizes::Sizes;

const MOST_ROUNDS: u64 = 1_000_000;

#[derive(Drop)]
pub(crate) struct Settings {
    pub(crate) sizes: Sizes,
    pub(crate) records: u64,
    pub(crate) rounds: u64,
    pub(crate) seed: u64,
    pub(crate) phases: Vec<Phase>,
    pub(crate) time: bool,
}

// A number of the command line.
fn number(word: Option<String>) -> Option<u64> {
    word?.as_str().parse::<u64>().ok()
}

// The phases behind the numbers, and whether times are asked for; none where a word is no phase.
fn phases(heap: Global, words: &mut env::Args) -> io::Result<Option<(Vec<Phase>, bool)>> {
    let mut phases = Vec::new(heap);
    let mut time = false;
    for word in words {
        match word.as_str().parse::<Phase>() {
            Ok(phase) if !time => phases.push(phase)?,
            Err(_) if !time && word.as_str() == "time" => time = true,
            _ => return Ok(None),
        }
    }
    if phases.is_empty() {
        return Ok(None);
    }
    Ok(Some((phases, time)))
}

// The settings; none where the words are others than they should be.
pub(crate) fn read_settings(rt: &HostRuntime) -> io::Result<Option<Settings>> {
    let mut words = env::args(rt)?;
    let _program = words.next();
    let (Some(records), Some(versions)) = (number(words.next()), number(words.next())) else {
        return Ok(None);
    };
    let (Some(rounds), Some(seed)) = (number(words.next()), number(words.next())) else {
        return Ok(None);
    };
    let Some((phases, time)) = phases(rt.alloc(), &mut words)? else {
        return Ok(None);
    };
    match Sizes::check(records, versions, 0) {
        Ok(sizes) if rounds <= MOST_ROUNDS => Ok(Some(Settings {
            sizes,
            records,
            rounds,
            seed,
            phases,
            time,
        })),
        _ => Ok(None),
    }
}
