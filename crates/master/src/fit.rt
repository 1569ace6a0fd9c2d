// Whether a reply with a right check word fits its request, and what is read from it then.
ghost use Rattle.std.specs.Prelude.{◌≡◌, ◌≢◌, ◌≤◌, length, Ok};
ghost use Rattle.promise.specs.Promise.{Decides};
ghost use Rattle.frames.specs.declared.Act.TheVariants as Act;
ghost use Rattle.frames.specs.Limits.{bytes_for};
ghost use Rattle.frames.specs.Exceptions.{top_bit_set};
ghost use Rattle.master.specs.Requests.{function_number, act};
ghost use Rattle.master.specs.Refusals.{OutOfLimits};
ghost use Rattle.master.specs.Reading.{SpareBits0, Left};
ghost use Rattle.master.specs.Fitting.{FitFound, HeadIs, Takeable};

use crate::{Reading, Refusal, Request, put, spare};
use frames::{Act, Code, HEAD, Width};

// The fewest bytes of a reply.
pub(crate) const SHORTEST_REPLY: usize = 5;

// Where the byte count of a read's reply stands, and the code of an exception.
const COUNT_AT: usize = 2;

const CODE_AT: usize = 2;

impl Request {
    // What is read from the reply, or that it does not fit.
    pub(crate) fn fit(self, reply: &[u8]) -> Result<Reading, Refusal>
        requires { OutOfLimits self → ⊥ }
        ensures { FitFound self reply.now result }
    {
        let number = u8::from(self.function);
        let answered = frames::byte_at(reply, frames::FUNCTION_AT);
        if frames::byte_at(reply, frames::STATION_AT) != self.station {
            return Err(Refusal::Reply);
        }
        if answered == frames::top_bit_set(number) {
            return self.fit_exception(reply);
        }
        if answered != number {
            return Err(Refusal::Reply);
        }
        match self.function.act() {
            Act::Read => self.fit_read(reply),
            Act::WriteOne | Act::WriteRun => self.fit_write(reply),
        }
    }

    // Of a reply from this station, with this function's top bit set.
    #[tactic(auto, using(crate::proofs::Fitting::no_exception))]
    fn fit_exception(self, reply: &[u8]) -> Result<Reading, Refusal>
        requires { HeadIs self.station (top_bit_set (function_number self.function)) reply.now }
        ensures { FitFound self reply.now result }
    {
        if reply.len() != frames::EXCEPTION_LENGTH {
            return Err(Refusal::Reply);
        }
        match Code::try_from(reply[CODE_AT]) {
            Ok(code) => Ok(Reading::Exception(code)),
            Err(_) => Err(Refusal::Reply),
        }
    }

    // Of a reply from this station to this function, which writes: it echoes the request's fields.
    #[tactic(auto, using(crate::proofs::Fitting::no_write))]
    fn fit_write(self, reply: &[u8]) -> Result<Reading, Refusal>
        requires { HeadIs self.station (function_number self.function) reply.now × (act self ≢ Act.Read) }
        ensures { FitFound self reply.now result }
    {
        let function = self.function;
        let long = frames::reply_length(function.act(), function.width(), self.operand);
        if reply.len() != long
            || frames::number_at(reply, frames::START_AT) != self.start
            || frames::number_at(reply, frames::QUANTITY_AT) != self.operand
        {
            return Err(Refusal::Reply);
        }
        Ok(Reading::Written)
    }

    // Of a reply from this station to this function, which reads: it has the bytes of the quantity.
    #[tactic(auto, using(crate::proofs::Fitting::no_read))]
    fn fit_read(self, reply: &[u8]) -> Result<Reading, Refusal>
        requires { HeadIs self.station (function_number self.function) reply.now × (act self ≡ Act.Read)
            × (OutOfLimits self → ⊥) }
        ensures { FitFound self reply.now result }
    {
        let width = self.function.width();
        let bytes = frames::bytes_for(width, self.operand);
        if reply.len() != frames::reply_length(Act::Read, width, self.operand)
            || reply[COUNT_AT] as usize != bytes
            || !are_spare_bits_0(width, self.operand, &reply[HEAD..HEAD + bytes])
        {
            return Err(Refusal::Reply);
        }
        Ok(Reading::Data(bytes))
    }
}

// Whether the spare bits of packed bits are all 0.
fn are_spare_bits_0(width: Width, count: u16, packed: &[u8]) -> bool
    requires { (1 ≤ count) × (length packed.now ≡ bytes_for width count) }
    ensures { Decides (SpareBits0 width count packed.now) result }
{
    match width {
        Width::Bit => {
            let last = packed[packed.len() - 1];
            spare::without_spare_bits(count, last) == last
        }
        Width::Word => true,
    }
}

// Puts the bits or words into the start of the buffer, where some were read.
pub(crate) fn take_data(reading: Reading, reply: &[u8], buffer: &mut [u8])
    requires { Takeable (length reply.now) (length buffer.old) reading }
    ensures { Left reply.now buffer.old (Ok reading) buffer.new }
{
    if let Reading::Data(bytes) = reading {
        put::copy(&reply[HEAD..HEAD + bytes], buffer);
    }
}
