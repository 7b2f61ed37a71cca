ghost use Rattle.std.specs.Prelude.{⊤};

use crate::rows::{Failure, Row, check};
use dd_concept::NoMemory;
use dd_gen::make;
use std::alloc::Global;

/// What requests are made from, how many there are, and the first of them, each with a line feed.
struct Made {
    seed: u32,
    peers: u32,
    size: u32,
    count: usize,
    first: &'static [u8],
}

impl Row for Made {
    ghost answers = { λ row yes. ⊤ };

    fn is_right(&self, alloc: Global) -> Result<bool, NoMemory> {
        if self.peers < 2 || self.peers > 64 || self.size < 1 || self.size > 1_000 {
            return Ok(false);
        }
        let lines = make(alloc, self.seed, self.peers, self.size)?;
        let is_made = begins(alloc, lines.as_slice(), self.first);
        let count = lines.len();
        drop(lines);
        Ok(is_made? && count == self.count)
    }
}

fn begins(alloc: Global, lines: &[Vec<u8>], first: &[u8]) -> Result<bool, NoMemory> {
    let text = joined(alloc, lines)?;
    let begins = text.as_slice().starts_with(first);
    drop(text);
    Ok(begins)
}

fn joined(alloc: Global, lines: &[Vec<u8>]) -> Result<Vec<u8>, NoMemory> {
    let mut text = Vec::new(alloc);
    for line in lines {
        text.extend_from_slice(line.as_slice())?;
        text.extend_from_slice(b"\n")?;
    }
    Ok(text)
}

const MADE: &[Made] = &[
    Made {
        seed: 0,
        peers: 2,
        size: 1,
        count: 7,
        first: b"{\"names\":[\"p0\",\"p1\"],\"op\":\"peers\"}\n{\"axioms\":[\"(implies A0 (or A1 C1))\"],\"into\":[{\"from\":\"p1\",\"source\":\"A1\",\"target\":\"A1\"}],\"onto\":[{\"from\":\"p1\",\"source\":\"A0\",\"target\":\"A0\"}],\"op\":\"put\",\"peer\":\"p0\"}\n{\"axioms\":[\"(implies B0 B1)\"],\"into\":[{\"from\":\"p0\",\"source\":\"A1\",\"target\":\"A1\"},{\"from\":\"p0\",\"source\":\"C1\",\"target\":\"C1\"}],\"onto\":[{\"from\":\"p0\",\"source\":\"A0\",\"target\":\"A0\"}],\"op\":\"put\",\"peer\":\"p1\"}\n{\"left\":\"A0\",\"op\":\"ask\",\"peer\":\"p0\",\"right\":\"(or A1 C1)\"}\n{\"left\":\"A0\",\"op\":\"ask\",\"peer\":\"p1\",\"right\":\"(or A1 C1)\"}\n{\"left\":\"A1\",\"op\":\"ask\",\"peer\":\"p0\",\"right\":\"A0\"}\n{\"left\":\"A1\",\"op\":\"ask\",\"peer\":\"p1\",\"right\":\"A0\"}\n",
    },
    Made {
        seed: 19,
        peers: 8,
        size: 20,
        count: 25,
        first: b"{\"names\":[\"p0\",\"p1\",\"p2\",\"p3\",\"p4\",\"p5\",\"p6\",\"p7\"],\"op\":\"peers\"}\n{\"axioms\":[\"(implies B0 B1)\",\"(implies B1 B2)\",\"(implies B2 B3)\",\"(implies B3 B4)\",\"(implies B4 B5)\",\"(implies B5 B6)\",\"(implies B6 B7)\",\"(implies B7 B8)\",\"(implies B8 B9)\",\"(implies B9 B10)\",\"(implies B10 B11)\",\"(implies B11 B12)\",\"(implies B12 B13)\",\"(implies B13 B14)\",\"(implies B14 B15)\",\"(implies B15 B16)\",\"(implies B16 B17)\",\"(implies B17 B18)\",\"(implies B18 B19)\",\"(implies B19 B20)\"],\"into\":[{\"from\":\"p7\",\"source\":\"A20\",\"target\":\"A20\"},{\"from\":\"p7\",\"source\":\"C20\",\"target\":\"C20\"}],\"onto\":[{\"from\":\"p7\",\"source\":\"A0\",\"target\":\"A0\"}],\"op\":\"put\",\"peer\":\"p0\"}\n",
    },
    Made {
        seed: 7,
        peers: 3,
        size: 2,
        count: 10,
        first: b"{\"names\":[\"p0\",\"p1\",\"p2\"],\"op\":\"peers\"}\n{\"axioms\":[\"(implies B0 B1)\",\"(implies B1 B2)\"],\"into\":[{\"from\":\"p2\",\"source\":\"A2\",\"target\":\"A2\"},{\"from\":\"p2\",\"source\":\"C2\",\"target\":\"C2\"}],\"onto\":[{\"from\":\"p2\",\"source\":\"A0\",\"target\":\"A0\"}],\"op\":\"put\",\"peer\":\"p0\"}\n{\"axioms\":[\"(implies A0 A1)\",\"(implies A1 (or A2 C2))\"],\"into\":[{\"from\":\"p0\",\"source\":\"A2\",\"target\":\"A2\"},{\"from\":\"p0\",\"source\":\"C2\",\"target\":\"C2\"}],\"onto\":[{\"from\":\"p0\",\"source\":\"A0\",\"target\":\"A0\"}],\"op\":\"put\",\"peer\":\"p1\"}\n{\"axioms\":[\"(implies B0 B1)\",\"(implies B1 B2)\"],\"into\":[{\"from\":\"p1\",\"source\":\"A2\",\"target\":\"A2\"}],\"onto\":[{\"from\":\"p1\",\"source\":\"A0\",\"target\":\"A0\"}],\"op\":\"put\",\"peer\":\"p2\"}\n{\"left\":\"A0\",\"op\":\"ask\",\"peer\":\"p0\",\"right\":\"(or A2 C2)\"}\n{\"left\":\"A0\",\"op\":\"ask\",\"peer\":\"p1\",\"right\":\"(or A2 C2)\"}\n{\"left\":\"A0\",\"op\":\"ask\",\"peer\":\"p2\",\"right\":\"(or A2 C2)\"}\n{\"left\":\"A2\",\"op\":\"ask\",\"peer\":\"p0\",\"right\":\"A0\"}\n{\"left\":\"A2\",\"op\":\"ask\",\"peer\":\"p1\",\"right\":\"A0\"}\n{\"left\":\"A2\",\"op\":\"ask\",\"peer\":\"p2\",\"right\":\"A0\"}\n",
    },
];

#[test]
fn requests_are_made_as_stated(rt: HostRuntime) -> Result<(), Failure> {
    check(rt.alloc(), MADE)
}
