// A request that is not refused, written over the start of the lent buffer.
ghost use Rattle.std.specs.Prelude.{◌≡◌, ◌++◌, true, ◌+◌, ◌≤◌, ◌<◌, length, drop};
ghost use Rattle.check_word.specs.Frame.{Put};
ghost use Rattle.registers.specs.Packing.{Filled};
ghost use Rattle.frames.specs.Limits.{bytes_for};
ghost use Rattle.master.specs.Requests.{request_head, data_size};
ghost use Rattle.master.specs.Refusals.{least_room, OutOfLimits};
ghost use Rattle.master.specs.Building.{over, PackedAgain, RequestPut};
ghost use Rattle.master.specs.Putting.{RunPut};

use crate::{Request, spare};
use frames::{Act, BYTE_COUNT_AT, DATA_AT, ECHOED, Width};

impl Request {
    // Writes the request with its data, and tells its length.
    pub(crate) fn put(self, carried: &[u8], frame: &mut [u8]) -> usize
        requires { (OutOfLimits self → ⊥) × (length carried.now ≡ data_size self) × (least_room ≤ length frame.old) }
        ensures { RequestPut self carried.now frame.old result frame.new }
    {
        self.put_head(frame);
        match self.function.act() {
            Act::Read | Act::WriteOne => put_end(ECHOED, frame),
            Act::WriteRun => {
                let width = self.function.width();
                put_run(width, self.operand, carried, frame);
                put_end(DATA_AT + carried.len(), frame)
            }
        }
    }

    // Station, function, start, and quantity or value.
    fn put_head(self, frame: &mut [u8])
        requires { 6 ≤ length frame.old }
        ensures { frame.new ≡ request_head self ++ drop 6 frame.old }
    {
        let [start_high, start_low] = self.start.to_be_bytes();
        let [operand_high, operand_low] = self.operand.to_be_bytes();
        let head = [
            self.station,
            u8::from(self.function),
            start_high,
            start_low,
            operand_high,
            operand_low,
        ];
        frame[..ECHOED].copy_from_slice(&head);
    }
}

// Byte count and data, spare bits as 0.
fn put_run(width: Width, count: u16, carried: &[u8], frame: &mut [u8])
    requires { (1 ≤ count) × (length carried.now ≡ bytes_for width count) × (length carried.now < 256)
        × (7 + length carried.now ≤ length frame.old) }
    ensures { RunPut width count carried.now frame.old frame.new }
{
    frame[BYTE_COUNT_AT] = carried.len() as u8;
    put_data(width, count, carried, &mut frame[DATA_AT..]);
}

// The data, packed again: the spare bits of a last byte are turned off.
fn put_data(width: Width, count: u16, carried: &[u8], buffer: &mut [u8])
    requires { (1 ≤ count) × (length carried.now ≡ bytes_for width count) × (length carried.now ≤ length buffer.old) }
    ensures { Filled (length carried.now) (PackedAgain width count carried.now)
        buffer.old buffer.new }
{
    copy(carried, buffer);
    if let Width::Bit = width {
        let last = carried.len() - 1;
        buffer[last] = spare::without_spare_bits(count, carried[last]);
    }
}

// Copies bytes over the start of a buffer, one by one: the slice's own call would need a symbol of a C library.
pub(crate) fn copy(bytes: &[u8], buffer: &mut [u8])
    requires { length bytes.now ≤ length buffer.old }
    ensures { buffer.new ≡ over bytes.now buffer.old }
{
    for (i, &byte) in bytes.iter().enumerate() {
        buffer[i] = byte;
    }
}

// The check word behind the first n bytes. Tells how many bytes there are then.
#[tactic(auto, unfolding(promise::specs::Promise::Attempt))]
fn put_end(n: usize, frame: &mut [u8]) -> usize
    requires { n + 2 ≤ length frame.old }
    ensures { (result ≡ n + 2) × Put n frame.old true frame.new }
{
    check_word::put_check_word(frame, n).unwrap();
    n + 2
}
