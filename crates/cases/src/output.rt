// Output by way of a buffer: what is written waits in its start until it goes out together.
ghost use Rattle.std.specs.Prelude.{◌≤◌};
ghost use Rattle.cases.specs.declared.output.TheConstants.{ROOM};

use std::io;
use std::io::{Stdout, Write};

// The characters that wait, at most.
const ROOM: usize = 65536;

#[derive(Drop)]
pub(crate) struct Output {
    stdout: Stdout,
    text: [u8; ROOM],
    waiting: usize,
    ghost within: { waiting ≤ ROOM },
}

impl Output {
    pub(crate) fn new(stdout: Stdout) -> Self {
        Output {
            stdout,
            text: [0; ROOM],
            waiting: 0,
        }
    }
}

impl Write for Output {
    fn write(&mut self, bytes: &[u8]) -> io::Result<usize> {
        if ROOM - self.waiting < bytes.len() {
            self.flush()?;
        }
        if ROOM - self.waiting < bytes.len() {
            return self.stdout.write(bytes);
        }
        let end = self.waiting + bytes.len();
        self.text[self.waiting..end].copy_from_slice(bytes);
        self.waiting = end;
        Ok(bytes.len())
    }

    fn flush(&mut self) -> io::Result<()> {
        self.stdout.write_all(&self.text[..self.waiting])?;
        self.waiting = 0;
        Ok(())
    }
}
