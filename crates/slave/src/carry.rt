// What was decided is carried out: the image is written, and the reply. Nothing can fail any more, by the `requires` here.
ghost use Rattle.std.specs.Prelude.{◌≡◌, ◌∷◌, ℕ, ◌+◌, ◌≤◌, length, drop};
ghost use Rattle.check_word.specs.Frame.{framed};
ghost use Rattle.registers.specs.Packing.{Filled};
ghost use Rattle.frames.specs.Fields.{function_field, up_to_quantity};
ghost use Rattle.frames.specs.Limits.{bytes_for};
ghost use Rattle.frames.specs.Exceptions.{code_number, exception_frame};
ghost use Rattle.slave.specs.Numbers.{exception};
ghost use Rattle.slave.specs.Conditions.{least_room};
ghost use Rattle.slave.specs.Answer.{Shown, StoredOne, StoredRun, over, Done};
ghost use Rattle.slave.specs.Deciding.{kind_decided};
ghost use Rattle.slave.specs.Carrying.{Inside, ReadWritten, Possible, CanBeDone, CarriedOut};

use crate::decide::{Decision, Request};
use crate::{Outcome, Station};
use frames::{Act, Code, ECHOED, HEAD, Width};

// Does what was decided, and tells it.
pub(crate) fn carry_out(
    decision: Decision,
    station: Station,
    frame: &[u8],
    image: &mut [u16],
    reply: &mut [u8],
) -> Outcome
    requires { CanBeDone station frame.now (length image.old) (length reply.old) decision
        × ((n : ℕ) → kind_decided decision ≡ exception n → 2 ≤ length frame.now) }
    ensures { CarriedOut station frame.now image.old reply.old decision result image.new reply.new }
{
    match decision {
        Decision::Refused(why) => Outcome::Refused(why),
        Decision::Silent(why) => Outcome::Silent(why),
        Decision::Exception(code) => {
            except(station.own, frame, code, reply);
            Outcome::Exception(code)
        }
        Decision::Accepted(request) => {
            Outcome::Reply(request.carry_out(station.own, frame, image, reply))
        }
    }
}

// Writes an exception: own address, function with its top bit set, code, check word.
#[tactic(auto, unfolding(promise::specs::Promise::Attempt))]
fn except(own: u8, frame: &[u8], code: Code, reply: &mut [u8])
    requires { (2 ≤ length frame.now) × (least_room ≤ length reply.old) }
    ensures { reply.new ≡ over (exception_frame own (function_field frame.now) (code_number code)) reply.old }
{
    let function = frame[frames::FUNCTION_AT];
    reply[..HEAD].copy_from_slice(&[own, frames::top_bit_set(function), u8::from(code)]);
    check_word::put_check_word(reply, HEAD).unwrap();
}

impl Request {
    // A write stores first; then the reply is written, and its length told.
    fn carry_out(self, own: u8, frame: &[u8], image: &mut [u16], reply: &mut [u8]) -> usize
        requires { Possible frame.now (length image.old) (length reply.old) self }
        ensures { Done own self.first frame.now image.old reply.old self.act self.width result image.new reply.new }
    {
        match self.act {
            Act::Read => self.read(own, frame, image, reply),
            Act::WriteOne => {
                self.store_one(frames::number_at(frame, frames::VALUE_AT), image);
                echo_whole(frame, reply);
            }
            Act::WriteRun => {
                // All but the check word.
                let end = frame.len() - 2;
                self.store_run(&frame[frames::DATA_AT..end], image);
                echo(frame, reply);
            }
        }
        frames::reply_length(self.act, self.width, self.count as u16)
    }

    // The reply to a read: three bytes, and behind them the addressed bits or words.
    #[tactic(auto, unfolding(promise::specs::Promise::Attempt))]
    fn read(self, own: u8, frame: &[u8], image: &[u16], reply: &mut [u8])
        requires { Inside self.width (length image.now) self.first self.count × (5 + bytes_for self.width self.count ≤ least_room) × (least_room ≤ length reply.old) × (2 ≤ length frame.now) }
        ensures { ReadWritten own (function_field frame.now) self.width self.first self.count image.now reply.old reply.new }
    {
        let bytes = frames::bytes_for(self.width, self.count as u16);
        reply[..HEAD].copy_from_slice(&[own, frame[frames::FUNCTION_AT], bytes as u8]);
        self.pack(image, &mut reply[HEAD..]);
        check_word::put_check_word(reply, HEAD + bytes).unwrap();
    }

    // Packs the bits or words into the start of the buffer.
    #[tactic(auto, unfolding(promise::specs::Promise::Attempt))]
    fn pack(self, image: &[u16], buffer: &mut [u8])
        requires { Inside self.width (length image.now) self.first self.count × (bytes_for self.width self.count ≤ length buffer.old) }
        ensures { Filled (bytes_for self.width self.count) (Shown self.width self.first self.count image.now) buffer.old buffer.new }
    {
        match self.width {
            Width::Bit => registers::pack_bits(image, self.first, self.count, buffer).unwrap(),
            Width::Word => registers::pack_words(image, self.first, self.count, buffer).unwrap(),
        }
    }

    // Stores one bit, on or off, or one word.
    #[tactic(auto, unfolding(promise::specs::Promise::Attempt))]
    fn store_one(self, value: u16, image: &mut [u16])
        requires { Inside self.width (length image.old) self.first 1 }
        ensures { StoredOne self.width self.first value image.old image.new }
    {
        match self.width {
            Width::Bit => registers::store_bit(image, self.first, value == frames::ON).unwrap(),
            Width::Word => registers::store_word(image, self.first, value).unwrap(),
        }
    }

    // Stores the bits or words from packed bytes.
    #[tactic(auto, unfolding(promise::specs::Promise::Attempt))]
    fn store_run(self, bytes: &[u8], image: &mut [u16])
        requires { Inside self.width (length image.old) self.first self.count × (bytes_for self.width self.count ≤ length bytes.now) }
        ensures { StoredRun self.width self.first self.count bytes.now image.old image.new }
    {
        match self.width {
            Width::Bit => registers::store_bits(image, self.first, self.count, bytes).unwrap(),
            Width::Word => registers::store_words(image, self.first, self.count, bytes).unwrap(),
        }
    }
}

// The reply to a write of one: the request, with the check word that it came with.
fn echo_whole(frame: &[u8], reply: &mut [u8])
    requires { (length frame.now ≡ 8) × (8 ≤ length reply.old) }
    ensures { reply.new ≡ over frame.now reply.old }
{
    reply[..8].copy_from_slice(&frame[..8]);
}

// The reply to a write of a run: the first six bytes of the request, with their own check word.
#[tactic(auto, unfolding(promise::specs::Promise::Attempt))]
fn echo(frame: &[u8], reply: &mut [u8])
    requires { (6 ≤ length frame.now) × (8 ≤ length reply.old) }
    ensures { reply.new ≡ over (framed (up_to_quantity frame.now)) reply.old }
{
    reply[..ECHOED].copy_from_slice(&frame[..ECHOED]);
    check_word::put_check_word(reply, ECHOED).unwrap();
}
