// A master's half: requests are built, and replies are read beside the request that they answer. Of a station's areas, counting
// and state nothing is known here. No public function has a `requires`. The contracts cite specs/Building.antt and
// specs/Reading.antt.
#![tactic(auto)]

mod fit;
mod limits;
mod put;
mod spare;

ghost use Rattle.std.specs.Prelude.{◌≡◌};
ghost use Rattle.master.specs.Requests.{function_number, FunctionIs};
ghost use Rattle.master.specs.Refusals.{refusal_number};
ghost use Rattle.master.specs.Building.{Build};
ghost use Rattle.master.specs.Reading.{ReadReply};

use frames::Code;

// The fewest bytes of a lent buffer.
pub const LEAST_ROOM: usize = frames::LONGEST;

// The eight functions, each with its number.
#[derive(Clone, Copy, Debug, PartialEq, Eq)]
pub enum Function {
    ReadBits01,
    ReadBits02,
    ReadWords03,
    ReadWords04,
    WriteBit05,
    WriteWord06,
    WriteBits0F,
    WriteWords10,
}

// A number that is no function's.
#[derive(Clone, Copy, Debug, PartialEq, Eq)]
pub struct UnknownFunction(pub u8);

// The fields of a request, but for the data of 0F and 10.
#[derive(Clone, Copy, Debug, PartialEq, Eq)]
pub struct Request {
    // 1 to 255.
    pub station: u8,
    pub function: Function,
    // As it goes over the line: what it addresses, the station's counting says.
    pub start: u16,
    // The quantity; for 05 the bit's value, FF00 on or 0000 off; for 06 the word's value.
    pub operand: u16,
}

// Why nothing is built, or a reply not read.
#[derive(Clone, Copy, Debug, PartialEq, Eq)]
pub enum Refusal {
    // 70: quantity or bit value out of limits, data not of the quantity's size, station 0, or a lent buffer under 256 bytes.
    Request,
    // 71: reply under 5 bytes or bad check word.
    CheckWord,
    // 72: reply does not fit the request, or an exception code other than 1, 2, 3, 4 and 8.
    Reply,
}

#[derive(Clone, Copy, Debug, PartialEq, Eq)]
pub enum Reading {
    // The buffer starts with the bits or words, packed as on the line, in so many bytes.
    Data(usize),
    // The write was done.
    Written,
    // The station answers with an exception.
    Exception(Code),
}

// Builds a request, with which the buffer then starts, and tells its length. `carried` is its data, packed as on the line: the bits
// of 0F, spare bits whatever they are, or the words of 10; for the other functions there is none. The bytes of the buffer beyond the
// request keep their content, and a refusal changes none.
pub fn build(request: Request, carried: &[u8], frame: &mut [u8]) -> Result<usize, Refusal>
    ensures { Build request carried.now frame.old result frame.new }
{
    if request.is_refused(frame.len()) || carried.len() != request.data_size() {
        return Err(Refusal::Request);
    }
    Ok(request.put(carried, frame))
}

// Reads a reply beside the request that it answers. The bytes of the buffer beyond the data keep their content; where no data are
// read, all do.
pub fn read_reply(request: Request, reply: &[u8], buffer: &mut [u8]) -> Result<Reading, Refusal>
    ensures { ReadReply request reply.now buffer.old result buffer.new }
{
    if request.is_refused(buffer.len()) {
        return Err(Refusal::Request);
    }
    if reply.len() < fit::SHORTEST_REPLY || !check_word::is_right(reply) {
        return Err(Refusal::CheckWord);
    }
    let reading = request.fit(reply)?;
    fit::take_data(reading, reply, buffer);
    Ok(reading)
}

impl From<Function> for u8 {
    ghost from_gives = { λ function n. n ≡ function_number function };

    fn from(function: Function) -> u8 {
        match function {
            Function::ReadBits01 => 0x01,
            Function::ReadBits02 => 0x02,
            Function::ReadWords03 => 0x03,
            Function::ReadWords04 => 0x04,
            Function::WriteBit05 => 0x05,
            Function::WriteWord06 => 0x06,
            Function::WriteBits0F => 0x0f,
            Function::WriteWords10 => 0x10,
        }
    }
}

impl TryFrom<u8> for Function {
    type Error = UnknownFunction;

    ghost try_from_gives = { FunctionIs };

    fn try_from(number: u8) -> Result<Function, UnknownFunction> {
        match number {
            0x01 => Ok(Function::ReadBits01),
            0x02 => Ok(Function::ReadBits02),
            0x03 => Ok(Function::ReadWords03),
            0x04 => Ok(Function::ReadWords04),
            0x05 => Ok(Function::WriteBit05),
            0x06 => Ok(Function::WriteWord06),
            0x0f => Ok(Function::WriteBits0F),
            0x10 => Ok(Function::WriteWords10),
            _ => Err(UnknownFunction(number)),
        }
    }
}

impl From<Refusal> for u8 {
    ghost from_gives = { λ why n. n ≡ refusal_number why };

    fn from(why: Refusal) -> u8 {
        match why {
            Refusal::Request => 70,
            Refusal::CheckWord => 71,
            Refusal::Reply => 72,
        }
    }
}
