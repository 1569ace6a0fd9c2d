// Numbers that ascend by steps: the background of a lent buffer, and the words of an image.
use crate::fields;

// As many numbers as `count` says: the first is `start`, and each is `step` more than the one before.
#[derive(Clone, Copy)]
pub(crate) struct Series {
    pub(crate) count: usize,
    pub(crate) start: u16,
    pub(crate) step: u16,
}

impl Series {
    // Reads a count, a start and a step.
    pub(crate) fn read(text: &str) -> Option<Self> {
        let (count, start, step) = fields::three(text)?;
        Some(Series {
            count: fields::number(count)?,
            start: fields::number(start)?,
            step: fields::number(step)?,
        })
    }

    // Number i, modulo 65,536.
    pub(crate) fn word(self, i: usize) -> u16 {
        let i = (i % 65536) as u16;
        self.start.wrapping_add(self.step.wrapping_mul(i))
    }

    // Fills bytes with the numbers, modulo 256.
    pub(crate) fn fill(self, bytes: &mut [u8]) {
        for (i, byte) in bytes.iter_mut().enumerate() {
            *byte = (self.word(i) % 256) as u8;
        }
    }
}
