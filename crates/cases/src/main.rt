// Calls of the slave and of the master's half as lines: each line of the input asks for some, and a line of the output says what
// they answered and left. docs/CASES.md has the format.
#![tactic(auto)]

mod answer;
mod ask;
mod begun;
mod fields;
mod lent;
mod output;
mod series;

use ask::Room;
use begun::Begun;
use output::Output;
use std::io;
use std::io::{Read, Write};

// The characters of a block of input.
const BLOCK_ROOM: usize = 65536;

// A failed read or write ends the program without a word.
fn main(rt: HostRuntime) {
    let _ = run(&rt);
}

// Answers the lines of the input, a block at a time. A proved loop has to end, and nothing says that the input does: no run has as
// many blocks as are counted.
fn run(rt: &HostRuntime) -> io::Result<()> {
    let mut stdin = rt.stdin();
    let mut output = Output::new(rt.stdout());
    let mut line = Begun::new();
    let mut room = Room::new();
    let mut block = [0u8; BLOCK_ROOM];
    for _ in 0..u64::MAX {
        let n = stdin.read(&mut block)?;
        if n == 0 {
            break;
        }
        answer_block(&block[..n], &mut line, &mut room, &mut output)?;
        output.flush()?;
    }
    if !line.is_empty() {
        answer::answer(line.text(), &mut room, &mut output)?;
    }
    output.flush()
}

// Answers the lines that end in a block, and begins the next.
fn answer_block(
    block: &[u8],
    line: &mut Begun,
    room: &mut Room,
    output: &mut Output,
) -> io::Result<()> {
    let mut rest = block;
    while let Some(next) = line.take(rest) {
        answer::answer(line.text(), room, output)?;
        line.clear();
        rest = next;
    }
    Ok(())
}
