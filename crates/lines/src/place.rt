// Parts of a line put into its buffer, and the lines of outcomes put into a text.
ghost use Rattle.std.specs.Prelude.{◌≡◌, ◌++◌, min, length, take};
ghost use Rattle.slave.specs.Answer.{over};
ghost use Rattle.lines.specs.Hex.{spaced};
ghost use Rattle.lines.specs.Lines.{up_to_feed};
ghost use Rattle.lines.specs.Outcomes.{reply_word, decimal, as_line, Written};

use super::hex::BLANK;

pub(crate) const LINE_FEED: u8 = b'\n';

// The characters of `reply`.
const REPLY_WORD: usize = 5;

// Puts a part behind the first `held` characters of the line, as far as there is room, and answers how many are held then.
pub(crate) fn hold(line: &mut [u8], held: usize, part: &[u8]) -> usize
    ensures value { result ≡ length (take (length line.old) (take held line.old ++ part.now)) }
    ensures line_after { line.new ≡ over (take (length line.old) (take held line.old ++ part.now)) line.old }
{
    let from = held.min(line.len());
    let n = part.len().min(line.len() - from);
    line[from..from + n].copy_from_slice(&part[..n]);
    from + n
}

// Writes two pieces, one behind the other.
pub(crate) fn write_two(first: &[u8], second: &[u8], text: &mut [u8]) -> Option<usize>
    ensures { Written (first.now ++ second.now) text.old result text.new }
{
    let end = first.len() + second.len();
    if text.len() < end {
        return None;
    }
    text[..first.len()].copy_from_slice(first);
    text[first.len()..end].copy_from_slice(second);
    Some(end)
}

// Writes a word and a number as a line. The number gets one digit or two: those of outcomes are below 100.
pub(crate) fn write_number(word: &[u8], number: u8, text: &mut [u8]) -> Option<usize>
    ensures { Written (as_line (word.now ++ decimal number)) text.old result text.new }
{
    if number < 10 {
        let end = [BLANK, b'0' + number, LINE_FEED];
        return write_two(word, &end, text);
    }
    let end = [BLANK, b'0' + number / 10, b'0' + number % 10, LINE_FEED];
    write_two(word, &end, text)
}

// Writes the first n bytes of the reply buffer as a line.
pub(crate) fn write_reply(reply: &[u8], n: usize, text: &mut [u8]) -> Option<usize>
    ensures { Written (as_line (reply_word ++ spaced (take n reply.now))) text.old result text.new }
{
    let shown = &reply[..n.min(reply.len())];
    if text.len() <= REPLY_WORD {
        return None;
    }
    // One character is kept for the line feed.
    let room = text.len() - 1;
    let end = REPLY_WORD + super::write_bytes(shown, &mut text[REPLY_WORD..room])?;
    text[..REPLY_WORD].copy_from_slice(b"reply");
    text[end] = LINE_FEED;
    Some(end + 1)
}
