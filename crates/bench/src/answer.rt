// What station 20 answers to lines of text.
ghost use Rattle.std.specs.Prelude.{◌≡◌, ◌≤◌, ◌<◌, length};
ghost use Rattle.slave.specs.Examples.{areas as Examples·areas};
ghost use Rattle.lines.specs.Hex.{longest_line};
ghost use Rattle.bench.specs.Input.{LastAnswered};
ghost use Rattle.bench.specs.Blocks.{Progressed, Moves};
ghost use Rattle.bench.specs.Bench.{registers_at_first, FrameAnswered, Answered, longest_answer, Stands};

use areas::{Access, Area};
use slave::{Counting, State, Station};

// The most characters of an answer.
const LONGEST_ANSWER: usize = 501;

// How far a block is answered: so many of its bytes are used up, so many characters of the next line are held, and so many
// characters of the text are written.
#[derive(Clone, Copy, Debug, PartialEq, Eq)]
pub(crate) struct Progress {
    pub used: usize,
    pub held: usize,
    pub written: usize,
}

// The registers before the first line.
pub(crate) fn registers_at_first() -> [u16; 16]
    ensures { result ≡ registers_at_first }
{
    let mut words = [0u16; 16];
    words[1] = 1000;
    words[2] = 500;
    words
}

// Words 0 to 7 read-write, 8 to 15 read-only.
fn two_areas() -> [Area; 2]
    ensures { result ≡ Examples·areas }
{
    [
        Area {
            first: 0,
            count: 8,
            access: Access::ReadWrite,
        },
        Area {
            first: 8,
            count: 8,
            access: Access::ReadOnly,
        },
    ]
}

// Answers a frame of the bench station, as a line of text.
fn answer_frame(frame: &[u8], image: &mut [u16], text: &mut [u8]) -> usize
    requires { longest_answer ≤ length text.old }
    ensures { Stands (FrameAnswered frame.now image.old image.new) text.old result text.new }
{
    let station = Station {
        own: 20,
        counting: Counting::ModBus,
        state: State::Ready,
    };
    let mut reply = [0u8; slave::LEAST_ROOM];
    let outcome = slave::respond(station, &two_areas(), frame, image, &mut reply);
    lines::write_outcome(outcome, &reply, text).unwrap()
}

// Answers a line, and tells how long the answer in the start of the text is.
pub(crate) fn answer(line: &[u8], image: &mut [u16], text: &mut [u8]) -> usize
    requires { longest_answer ≤ length text.old }
    ensures { Stands (Answered line.now image.old image.new) text.old result text.new }
{
    let mut frame = [0u8; lines::MOST_BYTES];
    match lines::read_frame(line, &mut frame) {
        Some(n) => answer_frame(&frame[..n], image, text),
        None => lines::write_bad_line(text).unwrap(),
    }
}

// Answers a last line, which no line feed ends, unless it is empty.
pub(crate) fn answer_last(line: &[u8], image: &mut [u16], text: &mut [u8]) -> usize
    requires { longest_answer ≤ length text.old }
    ensures { Stands (LastAnswered line.now image.old image.new) text.old result text.new }
{
    if line.len() == 0 {
        return 0;
    }
    answer(line, image, text)
}

// Takes the next line out of a block, or as much of it as there is, and answers it if it is whole.
fn answer_next(
    block: &[u8],
    line: &mut [u8],
    held: usize,
    image: &mut [u16],
    text: &mut [u8],
) -> Progress
    requires longest_line_in_bounds { longest_line < length line.old }
    requires held_in_bounds { held ≤ length line.old }
    requires longest_answer_in_bounds { longest_answer ≤ length text.old }
    ensures progressed { Progressed block.now line.old held image.old text.old result line.new image.new text.new }
    ensures moves { Moves block.now result }
{
    let taken = lines::take_line(block, line, held);
    if !taken.whole {
        return Progress {
            used: taken.used,
            held: taken.held,
            written: 0,
        };
    }
    let written = answer(&line[..taken.held], image, text);
    Progress {
        used: taken.used,
        held: 0,
        written,
    }
}

// Answers the lines of a block one after the other, as long as the text has room for another answer.
pub(crate) fn answer_lines(
    block: &[u8],
    line: &mut [u8],
    mut held: usize,
    image: &mut [u16],
    text: &mut [u8],
) -> Progress
    requires longest_line_in_bounds { longest_line < length line.old }
    requires held_in_bounds { held ≤ length line.old }
    requires longest_answer_in_bounds { longest_answer ≤ length text.old }
    ensures progressed { Progressed block.now line.old held image.old text.old result line.new image.new text.new }
    ensures moves { Moves block.now result }
{
    let mut used = 0;
    let mut written = 0;
    while used < block.len() && LONGEST_ANSWER <= text.len() - written {
        let done = answer_next(&block[used..], line, held, image, &mut text[written..]);
        used += done.used;
        held = done.held;
        written += done.written;
    }
    Progress {
        used,
        held,
        written,
    }
}
