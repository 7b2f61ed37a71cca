ghost use Rattle.std.specs.Prelude.{⊤};

use crate::rows::{Failure, Row, check};
use dd_concept::NoMemory;
use dd_words::{Command, WordsErr, read_words};
use std::alloc::Global;

/// Words, with a space between each two, and the command that they give with its numbers, in the order of its fields.
struct Asked {
    words: &'static str,
    command: &'static str,
    numbers: [u32; 5],
}

impl Row for Asked {
    ghost answers = { λ row yes. ⊤ };

    fn is_right(&self, alloc: Global) -> Result<bool, NoMemory> {
        let words = words_of(alloc, self.words)?;
        let read = read_words(alloc, words.as_slice());
        drop(words);
        Ok(name(&read) == self.command && numbers(&read) == self.numbers)
    }
}

fn words_of(alloc: Global, text: &str) -> Result<Vec<String>, NoMemory> {
    let mut words = Vec::new(alloc);
    for word in text.split_whitespace() {
        words.push(String::from_str(alloc, word)?)?;
    }
    Ok(words)
}

fn name(read: &Result<Command, WordsErr>) -> &'static str {
    match read {
        Ok(Command::Serve(_)) => "serve",
        Ok(Command::Alone(_)) => "alone",
        Ok(Command::Make(_)) => "make",
        Ok(Command::Drill(_)) => "drill",
        Err(WordsErr::Words) => "none",
        Err(WordsErr::NoMemory) => "no memory",
    }
}

fn numbers(read: &Result<Command, WordsErr>) -> [u32; 5] {
    match read {
        Ok(Command::Serve(o)) | Ok(Command::Alone(o)) => {
            [o.workers, o.window, o.expansions, o.verdicts, o.cache]
        }
        Ok(Command::Make(g)) | Ok(Command::Drill(g)) => [g.seed, g.peers, g.size, 0, 0],
        Err(_) => [0, 0, 0, 0, 0],
    }
}

const ASKED: &[Asked] = &[
    Asked {
        words: "",
        command: "none",
        numbers: [0, 0, 0, 0, 0],
    },
    Asked {
        words: "server",
        command: "none",
        numbers: [0, 0, 0, 0, 0],
    },
    Asked {
        words: "--window 3",
        command: "none",
        numbers: [0, 0, 0, 0, 0],
    },
    Asked {
        words: "serve",
        command: "serve",
        numbers: [4, 16, 20000, 10000, 64],
    },
    Asked {
        words: "alone",
        command: "alone",
        numbers: [4, 16, 20000, 10000, 64],
    },
    Asked {
        words: "serve --workers 16 --window=64 --expansions=200000 --verdicts 20000 --cache=1024",
        command: "serve",
        numbers: [16, 64, 200000, 20000, 1024],
    },
    Asked {
        words: "alone --window=8",
        command: "alone",
        numbers: [4, 8, 20000, 10000, 64],
    },
    Asked {
        words: "alone --window 8",
        command: "alone",
        numbers: [4, 8, 20000, 10000, 64],
    },
    Asked {
        words: "alone --window=+3",
        command: "alone",
        numbers: [4, 3, 20000, 10000, 64],
    },
    Asked {
        words: "alone --window 003",
        command: "alone",
        numbers: [4, 3, 20000, 10000, 64],
    },
    Asked {
        words: "alone --",
        command: "alone",
        numbers: [4, 16, 20000, 10000, 64],
    },
    Asked {
        words: "alone --workers 2",
        command: "none",
        numbers: [0, 0, 0, 0, 0],
    },
    Asked {
        words: "alone --wind 3",
        command: "none",
        numbers: [0, 0, 0, 0, 0],
    },
    Asked {
        words: "alone 3",
        command: "none",
        numbers: [0, 0, 0, 0, 0],
    },
    Asked {
        words: "alone --window",
        command: "none",
        numbers: [0, 0, 0, 0, 0],
    },
    Asked {
        words: "alone --window=",
        command: "none",
        numbers: [0, 0, 0, 0, 0],
    },
    Asked {
        words: "alone --window --cache 3",
        command: "none",
        numbers: [0, 0, 0, 0, 0],
    },
    Asked {
        words: "alone --window=0",
        command: "none",
        numbers: [0, 0, 0, 0, 0],
    },
    Asked {
        words: "alone --window=65",
        command: "none",
        numbers: [0, 0, 0, 0, 0],
    },
    Asked {
        words: "alone --window=-3",
        command: "none",
        numbers: [0, 0, 0, 0, 0],
    },
    Asked {
        words: "alone --window=3 --window=3",
        command: "none",
        numbers: [0, 0, 0, 0, 0],
    },
    Asked {
        words: "alone --help",
        command: "none",
        numbers: [0, 0, 0, 0, 0],
    },
    Asked {
        words: "alone -h",
        command: "none",
        numbers: [0, 0, 0, 0, 0],
    },
    Asked {
        words: "alone --version",
        command: "none",
        numbers: [0, 0, 0, 0, 0],
    },
    Asked {
        words: "make --seed 19 --peers 8 --size=100",
        command: "make",
        numbers: [19, 8, 100, 0, 0],
    },
    Asked {
        words: "drill --seed=4294967295 --peers=64 --size=1000",
        command: "drill",
        numbers: [4294967295, 64, 1000, 0, 0],
    },
    Asked {
        words: "make --seed=-0 --peers=2 --size=1",
        command: "none",
        numbers: [0, 0, 0, 0, 0],
    },
    Asked {
        words: "make --seed 1",
        command: "none",
        numbers: [0, 0, 0, 0, 0],
    },
    Asked {
        words: "make --seed 1 --peers 65 --size 1",
        command: "none",
        numbers: [0, 0, 0, 0, 0],
    },
    Asked {
        words: "drill --seed 1 --peers 1 --size 1",
        command: "none",
        numbers: [0, 0, 0, 0, 0],
    },
    Asked {
        words: "drill --seed=4294967296 --peers=2 --size=1",
        command: "none",
        numbers: [0, 0, 0, 0, 0],
    },
];

#[test]
fn words_are_commands(rt: HostRuntime) -> Result<(), Failure> {
    check(rt.alloc(), ASKED)
}
