// The bench program: answers each line of its input, a frame in hex, as station 20 would.
#![tactic(auto)]

mod answer;

ghost use Rattle.std.specs.Prelude.{◌≤◌, ◌<◌, length, IfOk, IfSome};
ghost use Rattle.lines.specs.Hex.{longest_line};
ghost use Rattle.bench.specs.Bench.{longest_answer};
ghost use Rattle.bench.specs.Blocks.{BlockPassed};

use std::io::{self, Read, Stdin, Stdout, Write};

// The characters of a block of input, and of the answers to some of its lines.
const BLOCK_ROOM: usize = 65536;

// One more than the longest line that says a frame, so that a longer one is seen to be longer.
const LINE_ROOM: usize = lines::LONGEST_LINE + 1;

// Answers the lines of a block, writes the answers, and tells how many characters of the next line are held.
fn answer_block(
    stdout: &mut Stdout,
    block: &[u8],
    line: &mut [u8],
    mut held: usize,
    image: &mut [u16],
    text: &mut [u8],
) -> io::Result<usize>
    requires longest_line_in_bounds { longest_line < length line.old }
    requires held_in_bounds { held ≤ length line.old }
    requires longest_answer_in_bounds { longest_answer ≤ length text.old }
    ensures held_within { IfOk result (λ n. n ≤ length line.old) }
    ensures block_passed { IfOk result (BlockPassed block.now line.old held image.old line.new image.new) }
{
    let mut from = 0;
    while from < block.len() {
        let done = answer::answer_lines(&block[from..], line, held, image, text);
        stdout.write_all(&text[..done.written])?;
        from += done.used;
        held = done.held;
    }
    Ok(held)
}

// Reads a block and answers its lines, and tells how many characters of the next line are held: None where the input has ended. There a
// last line is answered; a line that a failure cuts off is not.
fn read_block(
    stdin: &mut Stdin,
    stdout: &mut Stdout,
    input: &mut [u8],
    line: &mut [u8],
    held: usize,
    image: &mut [u16],
    text: &mut [u8],
) -> io::Result<Option<usize>>
    requires longest_line_in_bounds { longest_line < length line.old }
    requires held_in_bounds { held ≤ length line.old }
    requires longest_answer_in_bounds { longest_answer ≤ length text.old }
    ensures { IfOk result (λ held_after. IfSome held_after (λ n. n ≤ length line.old)) }
{
    let n = stdin.read(input)?;
    if n == 0 {
        let written = answer::answer_last(&line[..held], image, text);
        stdout.write_all(&text[..written])?;
        return Ok(None);
    }
    let held = answer_block(stdout, &input[..n], line, held, image, text)?;
    Ok(Some(held))
}

// Goes on block by block, and ends without a word where a read or a write fails. A proved loop has to end, so there is a number of
// blocks, one that no input uses up.
fn run(
    stdin: &mut Stdin,
    stdout: &mut Stdout,
    input: &mut [u8],
    line: &mut [u8],
    image: &mut [u16],
    text: &mut [u8],
)
    requires longest_line_in_bounds { longest_line < length line.old }
    requires longest_answer_in_bounds { longest_answer ≤ length text.old }
{
    let mut held = 0;
    for _ in 0..u64::MAX {
        let Ok(Some(n)) = read_block(stdin, stdout, input, line, held, image, text) else {
            return;
        };
        held = n;
    }
}

fn main(rt: HostRuntime) {
    let mut stdin = rt.stdin();
    let mut stdout = rt.stdout();
    let mut image = answer::registers_at_first();
    let mut line = [0u8; LINE_ROOM];
    let mut input = [0u8; BLOCK_ROOM];
    let mut text = [0u8; BLOCK_ROOM];
    run(
        &mut stdin,
        &mut stdout,
        &mut input,
        &mut line,
        &mut image,
        &mut text,
    );
}
