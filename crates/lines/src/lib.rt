// Frames and outcomes as lines of text: the next line out of blocks of input, the frame that a line says, the line that an
// outcome gives. No public function has a `requires`. The contracts cite specs/.
#![tactic(auto)]

mod hex;
mod place;

ghost use Rattle.lines.specs.Hex.{spaced, ReadFrame};
ghost use Rattle.lines.specs.Lines.{TakeLine};
ghost use Rattle.lines.specs.Outcomes.{bad_line, outcome_text, as_line, Written};

use place::LINE_FEED;
use slave::Outcome;

// The most bytes of a line's frame, and the most characters of such a line.
pub const MOST_BYTES: usize = 300;

pub const LONGEST_LINE: usize = 899;

// What was taken out of a block: so many of its bytes are used up; so many characters of the line are held, and it is whole or
// not.
#[derive(Clone, Copy, Debug, PartialEq, Eq)]
pub struct Taken {
    pub used: usize,
    pub held: usize,
    pub whole: bool,
}

// Takes the next line out of a block of input, or as much of it as the block has. It stands in the start of `line`, behind the
// first `held` characters, which came with earlier blocks; what `line` has no room for is dropped.
pub fn take_line(block: &[u8], line: &mut [u8], held: usize) -> Taken
    ensures { TakeLine block.now line.old held result line.new }
{
    match block.iter().position(|c| *c == LINE_FEED) {
        Some(end) => Taken {
            used: end + 1,
            held: place::hold(line, held, &block[..end]),
            whole: true,
        },
        None => Taken {
            used: block.len(),
            held: place::hold(line, held, block),
            whole: false,
        },
    }
}

// Reads the frame that a line says into the start of the buffer, and answers its length. A line that says none is bad: None, and
// then nothing has changed.
pub fn read_frame(line: &[u8], frame: &mut [u8; MOST_BYTES]) -> Option<usize>
    ensures { ReadFrame line.now frame.old result frame.new }
{
    if line.len() == 0 {
        return Some(0);
    }
    if LONGEST_LINE < line.len() {
        return None;
    }
    if line.len() % 3 != 2 {
        return None;
    }
    let n = (line.len() + 1) / 3;
    let mut read = *frame;
    for k in 0..n {
        read[k] = hex::byte_at(line, k)?;
    }
    *frame = read;
    Some(n)
}

// Writes each byte as a blank and two digits into the start of the text, and answers how many characters these are: None where
// there is no room for them, and then nothing has changed.
pub fn write_bytes(bytes: &[u8], text: &mut [u8]) -> Option<usize>
    ensures { Written (spaced bytes.now) text.old result text.new }
{
    if text.len() / 3 < bytes.len() {
        return None;
    }
    for (k, &byte) in bytes.iter().enumerate() {
        text[3 * k..3 * k + 3].copy_from_slice(&hex::spaced(byte));
    }
    Some(3 * bytes.len())
}

// Writes an outcome as a line into the start of the text, and answers as write_bytes does. `reply` is the call's reply buffer; where it
// is shorter than the outcome tells, what is there is written.
pub fn write_outcome(outcome: Outcome, reply: &[u8], text: &mut [u8]) -> Option<usize>
    ensures { Written (as_line (outcome_text outcome reply.now)) text.old result text.new }
{
    match outcome {
        Outcome::Refused(why) => place::write_number(b"refused", u8::from(why), text),
        Outcome::Silent(why) => place::write_number(b"silent", u8::from(why), text),
        Outcome::Exception(_) => place::write_reply(reply, frames::EXCEPTION_LENGTH, text),
        Outcome::Reply(n) => place::write_reply(reply, n, text),
    }
}

// Writes what stands for a bad line into the start of the text, and answers as write_bytes does.
pub fn write_bad_line(text: &mut [u8]) -> Option<usize>
    ensures { Written (as_line bad_line) text.old result text.new }
{
    place::write_two(b"bad line", b"\n", text)
}
