// The check word of a run of bytes; whether a frame ends in its check word; a check word put behind a body.
// No public function has a `requires`. The contracts cite specs/CheckWord.antt and specs/Frame.antt.
#![tactic(auto)]

mod table;

ghost use Rattle.std.specs.Prelude.{◌≡◌};
ghost use Rattle.std.specs.Result.{is_ok};
ghost use Rattle.promise.specs.Promise.{Decides};
ghost use Rattle.check_word.specs.CheckWord.{add_byte, check_word};
ghost use Rattle.check_word.specs.Frame.{Right, Put};

const START: u32 = 0xffff;

// The check word so far, with one more byte: the table puts the low byte through its eight steps at once.
fn add_byte(word: u32, byte: u8) -> u32
    ensures { result ≡ add_byte word byte }
{
    let mixed = (word % 256) ^ (byte as u32);
    (table::entry(mixed) as u32) ^ (word / 256)
}

// The check word of the bytes. Until it is returned it stands in 32 bits, for speed; the upper sixteen are 0.
pub fn check_word(bytes: &[u8]) -> u16
    ensures { result ≡ check_word bytes.now }
{
    let mut word = START;
    for byte in bytes {
        word = add_byte(word, *byte);
    }
    (word % 65536) as u16
}

// Whether the frame's last two bytes, low byte first, are the check word of the rest. Under two bytes: no.
pub fn is_right(frame: &[u8]) -> bool
    ensures { Decides (Right frame.now) result }
{
    let [body @ .., low, high] = frame else {
        return false;
    };
    check_word(body) == u16::from_le_bytes([*low, *high])
}

// There is no room for a check word.
#[derive(Clone, Copy, Debug, PartialEq, Eq)]
pub struct NoRoom;

// Puts the check word of the buffer's first n bytes behind them, low byte first.
// Every other byte keeps its content; without room all do.
#[tactic(auto, unfolding(promise::specs::Promise::Attempt))]
pub fn put_check_word(buffer: &mut [u8], n: usize) -> Result<(), NoRoom>
    ensures { Put n buffer.old (is_ok result) buffer.new }
{
    if buffer.len().saturating_sub(n) < 2 {
        return Err(NoRoom);
    }
    let word = check_word(&buffer[..n]).to_le_bytes();
    buffer[n..n + 2].copy_from_slice(&word);
    Ok(())
}
