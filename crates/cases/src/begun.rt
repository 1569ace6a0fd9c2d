// The line that is read, of which blocks of input bring part after part.
ghost use Rattle.std.specs.Prelude.{◌≤◌, ◌<◌, length, IfSome};
ghost use Rattle.cases.specs.declared.begun.TheConstants.{LINE_ROOM};

use crate::ask::LONGEST_LINE;

// One more than the longest line has, so that a longer one is seen to be longer.
const LINE_ROOM: usize = LONGEST_LINE + 1;

// The first `held` characters are there.
#[derive(Drop)]
pub(crate) struct Begun {
    characters: [u8; LINE_ROOM],
    held: usize,
    ghost within: { held ≤ LINE_ROOM },
}

impl Begun {
    pub(crate) fn new() -> Self {
        Begun {
            characters: [0; LINE_ROOM],
            held: 0,
        }
    }

    pub(crate) fn is_empty(&self) -> bool {
        self.held == 0
    }

    pub(crate) fn clear(&mut self) {
        self.held = 0;
    }

    pub(crate) fn text(&self) -> &[u8] {
        &self.characters[..self.held]
    }

    // Takes the line out of a block, and gives what follows it there. None if the line goes on behind the block.
    pub(crate) fn take<'a>(&mut self, block: &'a [u8]) -> Option<&'a [u8]>
        ensures { IfSome result (λ rest. length rest.now < length block.now) }
    {
        let taken = lines::take_line(block, &mut self.characters, self.held);
        self.held = taken.held;
        if taken.whole {
            Some(&block[taken.used..])
        } else {
            None
        }
    }
}
