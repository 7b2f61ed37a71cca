//! Made requests, sessions over them that are summed up, and words that are no command.

use super::transcript::Failure;
use super::{NEVER, REQUESTS, is_wanted, sink_of, source_of, told};
use std::alloc::{AllocError, Global};

/// Words, how many bytes a write takes, the write that fails, counted from 0, and what is told.
struct Made {
    words: &'static [&'static str],
    piece: usize,
    fails: u64,
    told: &'static str,
}

const MADE: &[Made] = &[
    Made {
        words: &["make", "--seed", "0", "--peers", "2", "--size", "1"],
        piece: 4096,
        fails: NEVER,
        told: r#"{"names":["p0","p1"],"op":"peers"}
{"axioms":["(implies A0 (or A1 C1))"],"into":[{"from":"p1","source":"A1","target":"A1"}],"onto":[{"from":"p1","source":"A0","target":"A0"}],"op":"put","peer":"p0"}
{"axioms":["(implies B0 B1)"],"into":[{"from":"p0","source":"A1","target":"A1"},{"from":"p0","source":"C1","target":"C1"}],"onto":[{"from":"p0","source":"A0","target":"A0"}],"op":"put","peer":"p1"}
{"left":"A0","op":"ask","peer":"p0","right":"(or A1 C1)"}
{"left":"A0","op":"ask","peer":"p1","right":"(or A1 C1)"}
{"left":"A1","op":"ask","peer":"p0","right":"A0"}
{"left":"A1","op":"ask","peer":"p1","right":"A0"}
0"#,
    },
    // The second write fails, or the third.
    Made {
        words: &["make", "--seed=0", "--peers=2", "--size=1"],
        piece: 16,
        fails: 1,
        told: r#"{"names":["p0","4"#,
    },
    Made {
        words: &["make", "--seed=0", "--peers=2", "--size=1"],
        piece: 4096,
        fails: 2,
        told: "{\"names\":[\"p0\",\"p1\"],\"op\":\"peers\"}\n4",
    },
    Made {
        words: &["drill", "--seed", "0", "--peers", "2", "--size", "1"],
        piece: 4096,
        fails: NEVER,
        told: "{\"asks\":4,\"errors\":0,\"memory\":0,\"no\":2,\"spent\":0,\"yes\":2}\n0",
    },
    Made {
        words: &["drill", "--seed=19", "--peers=8", "--size=20"],
        piece: 4096,
        fails: NEVER,
        told: "{\"asks\":16,\"errors\":0,\"memory\":0,\"no\":9,\"spent\":0,\"yes\":7}\n0",
    },
    Made {
        words: &["drill", "--seed=100", "--peers=16", "--size=100"],
        piece: 4096,
        fails: NEVER,
        told: "{\"asks\":32,\"errors\":0,\"memory\":0,\"no\":30,\"spent\":0,\"yes\":2}\n0",
    },
    Made {
        words: &["drill", "--seed=0", "--peers=2", "--size=1"],
        piece: 4,
        fails: 1,
        told: r#"{"as4"#,
    },
    // What is no command.
    Made {
        words: &["alone", "--window=0"],
        piece: 4096,
        fails: NEVER,
        told: "2",
    },
    Made {
        words: &["make", "--seed", "1"],
        piece: 4096,
        fails: NEVER,
        told: "2",
    },
    Made {
        words: &["make", "--seed", "1", "--peers", "65", "--size", "1"],
        piece: 4096,
        fails: NEVER,
        told: "2",
    },
    Made {
        words: &[
            "make", "--seed", "1", "--seed", "1", "--peers", "2", "--size", "1",
        ],
        piece: 4096,
        fails: NEVER,
        told: "2",
    },
    Made {
        words: &["drill", "--seed", "-0", "--peers", "2", "--size", "1"],
        piece: 4096,
        fails: NEVER,
        told: "2",
    },
    Made {
        words: &["alone", "--help"],
        piece: 4096,
        fails: NEVER,
        told: "2",
    },
    Made {
        words: &["alone", "--workers", "2"],
        piece: 4096,
        fails: NEVER,
        told: "2",
    },
    Made {
        words: &["serve", "--window=8"],
        piece: 4096,
        fails: NEVER,
        told: "2",
    },
];

fn made_are_told(alloc: Global) -> Result<(), Failure> {
    for row in 0..MADE.len() {
        made_is_told(alloc, row)?;
    }
    Ok(())
}

fn made_is_told(alloc: Global, row: usize) -> Result<(), Failure> {
    if let Some(made) = MADE.get(row) {
        let told = told_of(alloc, made)?;
        return is_wanted(row, told.as_slice(), Some(&[]), made.told);
    }
    Ok(())
}

fn told_of(alloc: Global, made: &Made) -> Result<Vec<u8>, AllocError> {
    let source = source_of(alloc, REQUESTS.as_bytes(), 4096, NEVER)?;
    let sink = sink_of(alloc, 4096, made.piece.max(1), made.fails)?;
    told(alloc, &[made.words], source, sink)
}

#[test]
fn requests_are_made_and_drilled(rt: HostRuntime) -> Result<(), Failure> {
    made_are_told(rt.alloc())
}
