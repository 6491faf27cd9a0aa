// What the words of the command line ask for.
use std::{env, io};

/// How a question is to be answered.
#[derive(Clone, Copy)]
pub struct Wanted {
    pub budget: u64,
    pub log: bool,
}

/// The clauses of a file; of standard input, where no word names a file.
#[derive(Drop)]
pub struct Question {
    pub file: Option<String>,
    pub wanted: Wanted,
}

/// The word that names standard input.
pub const STANDARD_INPUT: &str = "-";

/// Without a word, so many clauses may be derived.
const BUDGET: u64 = 1_000_000;

const MOST: u64 = 1 << 30;

/// What one word is.
#[derive(Clone, Copy)]
enum Word {
    Budget(u64),
    Log,
    File,
    Wrong,
}

fn read_word(word: &str) -> Word {
    if word == "--log" {
        return Word::Log;
    }
    match word.parse::<u64>() {
        Ok(budget) if budget >= 1 && budget <= MOST => Word::Budget(budget),
        Ok(_) => Word::Wrong,
        Err(_) if word.starts_with("-") && word != STANDARD_INPUT => Word::Wrong,
        Err(_) => Word::File,
    }
}

/// What is asked, in the order of the words; nothing where one of them is wrong.
pub fn read_words(rt: &HostRuntime) -> io::Result<Option<Vec<Question>>> {
    let mut wanted = Wanted {
        budget: BUDGET,
        log: false,
    };
    let mut questions = Vec::new(rt.alloc());
    for word in env::args(rt)?.skip(1) {
        match read_word(word.as_str()) {
            Word::Budget(budget) => wanted.budget = budget,
            Word::Log => wanted.log = true,
            Word::File => questions.push(Question {
                file: Some(word),
                wanted,
            })?,
            Word::Wrong => return Ok(None),
        }
    }
    if questions.is_empty() {
        questions.push(Question { file: None, wanted })?;
    }
    Ok(Some(questions))
}
