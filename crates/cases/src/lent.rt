// A lent buffer, and its background, which it was filled with.
ghost use Rattle.std.specs.Prelude.{◌≤◌, length};
ghost use Rattle.cases.specs.declared.lent.TheConstants.{MOST_ROOM};

use crate::output::Output;
use crate::series::Series;
use std::io;
use std::io::Write;

// The most bytes of a lent buffer.
pub(crate) const MOST_ROOM: usize = 512;

// A blank and two digits for each byte of a lent buffer.
const TEXT_ROOM: usize = 3 * MOST_ROOM;

// What is lent to the master's half in an exchange.
pub(crate) const IN_EXCHANGE: Series = Series {
    count: master::LEAST_ROOM,
    start: 0xaa,
    step: 0,
};

#[derive(Drop)]
pub(crate) struct Lent<'a> {
    pub(crate) bytes: &'a mut [u8],
    background: Series,
    ghost within: { length bytes.now ≤ MOST_ROOM },
}

impl<'a> Lent<'a> {
    // Reads the series of a background. None if the room has not as many bytes.
    pub(crate) fn read(text: &str, room: &'a mut [u8; MOST_ROOM]) -> Option<Self> {
        let background = Series::read(text)?;
        let bytes = room.get_mut(..background.count)?;
        Some(Lent::filled(bytes, background))
    }

    pub(crate) fn filled(bytes: &'a mut [u8], background: Series) -> Self
        requires { length bytes.old ≤ MOST_ROOM }
    {
        background.fill(bytes);
        Lent { bytes, background }
    }

    // Puts the first bytes, which were written, and whether those beyond have their background still. Gives the bytes.
    pub(crate) fn put(&self, written: usize, output: &mut Output) -> io::Result<&[u8]>
        requires { written ≤ length self.now.bytes.now }
    {
        let bytes = &self.bytes[..written];
        let mut text = [0; TEXT_ROOM];
        let n = lines::write_bytes(bytes, &mut text).unwrap();
        // The first byte has no blank before it.
        let hex = &text[n.min(1)..n];
        let mut background = [0; MOST_ROOM];
        let background = &mut background[..self.bytes.len()];
        self.background.fill(background);
        let kept = self.bytes[written..] == background[written..];
        output.write_all(b"|")?;
        output.write_all(hex)?;
        output.write_all(if kept { b"|kept" } else { b"|spilt" })?;
        Ok(bytes)
    }
}
