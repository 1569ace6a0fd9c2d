// What both ends of the line speak of: the functions, how much they may ask for, byte counts and lengths, numbers of two bytes,
// exception codes. No public function has a `requires`. The contracts cite specs/.
#![tactic(auto)]

ghost use Rattle.std.specs.Prelude.{◌≡◌};
ghost use Rattle.promise.specs.Promise.{Decides};
ghost use Rattle.frames.specs.Fields.{byte, number};
ghost use Rattle.frames.specs.Functions.{function_of};
ghost use Rattle.frames.specs.Limits.{quantity, most, most_of_a_run, bytes_for, request_length, reply_length, BitValue};
ghost use Rattle.frames.specs.Exceptions.{code_number, CodeIs, top_bit_set};

// The fewest and the most bytes of a frame.
pub const SHORTEST: usize = 4;

pub const LONGEST: usize = 256;

// Where the fields of a frame stand.
pub const STATION_AT: usize = 0;

pub const FUNCTION_AT: usize = 1;

pub const START_AT: usize = 2;

pub const QUANTITY_AT: usize = 4;

pub const VALUE_AT: usize = 4;

pub const BYTE_COUNT_AT: usize = 6;

pub const DATA_AT: usize = 7;

// The bytes before the data in the reply to a read, and the bytes of a request that the reply to a write repeats.
pub const HEAD: usize = 3;

pub const ECHOED: usize = 6;

// The bytes of an exception, and of a frame with two numbers for its data.
pub const EXCEPTION_LENGTH: usize = 5;

const PLAIN_LENGTH: usize = 8;

// The most bits, and words, of a run.
pub const MOST_BITS: u16 = 256;

pub const MOST_WORDS: u16 = 80;

// The values that turn a single bit on and off.
pub const ON: u16 = 0xff00;

pub const OFF: u16 = 0x0000;

// What a function addresses.
#[derive(Clone, Copy, Debug, PartialEq, Eq)]
pub enum Width {
    Bit,
    Word,
}

// What a function does: it reads a run, writes one bit or word, or writes a run.
#[derive(Clone, Copy, Debug, PartialEq, Eq)]
pub enum Act {
    Read,
    WriteOne,
    WriteRun,
}

// What an exception says.
#[derive(Clone, Copy, Debug, PartialEq, Eq)]
pub enum Code {
    // The function is not in the table.
    Function,
    // The start names nothing, or an addressed word lies in no area.
    Address,
    // A quantity, a byte count or a bit's value is not allowed.
    Value,
    NotReady,
    // A word of a read-only area would be written.
    ReadOnly,
}

// A number that is no code's.
#[derive(Clone, Copy, Debug, PartialEq, Eq)]
pub struct UnknownCode(pub u8);

// Byte i; past the end, 0.
pub fn byte_at(bytes: &[u8], i: usize) -> u8
    ensures { result ≡ byte bytes.now i }
{
    bytes.get(i).copied().unwrap_or(0)
}

// The number of two bytes at i, high byte first; bytes past the end count as 0.
#[tactic(auto, unfolding(crate::specs::Fields::number))]
pub fn number_at(bytes: &[u8], i: usize) -> u16
    ensures { result ≡ number bytes.now i }
{
    match bytes.get(i..) {
        Some([high, low, ..]) => u16::from_be_bytes([*high, *low]),
        _ => u16::from(byte_at(bytes, i)) * 256,
    }
}

// What the function with a number does, and to what, if the number is one of the eight.
#[tactic(auto, unfolding(crate::specs::Functions::function_of))]
pub fn function_of(number: u8) -> Option<(Act, Width)>
    ensures { result ≡ function_of number }
{
    match number {
        0x01 => Some((Act::Read, Width::Bit)),
        0x02 => Some((Act::Read, Width::Bit)),
        0x03 => Some((Act::Read, Width::Word)),
        0x04 => Some((Act::Read, Width::Word)),
        0x05 => Some((Act::WriteOne, Width::Bit)),
        0x06 => Some((Act::WriteOne, Width::Word)),
        0x0f => Some((Act::WriteRun, Width::Bit)),
        0x10 => Some((Act::WriteRun, Width::Word)),
        _ => None,
    }
}

// How many bits or words a request is about: a write of one has no quantity in its frame.
pub fn quantity_of(act: Act, frame: &[u8]) -> u16
    ensures { result ≡ quantity act frame.now }
{
    if act == Act::WriteOne {
        return 1;
    }
    number_at(frame, QUANTITY_AT)
}

fn most_of_a_run(width: Width) -> u16
    ensures { result ≡ most_of_a_run width }
{
    match width {
        Width::Bit => MOST_BITS,
        Width::Word => MOST_WORDS,
    }
}

// The most bits or words that a request may be about.
pub fn most_of(act: Act, width: Width) -> u16
    ensures { result ≡ most act width }
{
    match act {
        Act::Read | Act::WriteRun => most_of_a_run(width),
        Act::WriteOne => 1,
    }
}

// How many bytes the bits or words take.
pub fn bytes_for(width: Width, count: u16) -> usize
    ensures { result ≡ bytes_for width count }
{
    match width {
        Width::Bit => (count as usize).div_ceil(registers::BYTE_BITS),
        Width::Word => 2 * count as usize,
    }
}

// How many bytes a request must have. A byte count past the frame's end is taken for 0.
pub fn request_length(act: Act, frame: &[u8]) -> usize
    ensures { result ≡ request_length act frame.now }
{
    match act {
        Act::Read | Act::WriteOne => PLAIN_LENGTH,
        Act::WriteRun => 9 + byte_at(frame, BYTE_COUNT_AT) as usize,
    }
}

// How many bytes a reply has that is no exception, to a request about `count` bits or words.
pub fn reply_length(act: Act, width: Width, count: u16) -> usize
    ensures { result ≡ reply_length act width count }
{
    match act {
        Act::Read => 5 + bytes_for(width, count),
        Act::WriteOne | Act::WriteRun => PLAIN_LENGTH,
    }
}

// Whether a single bit may be given this value.
pub fn is_bit_value(value: u16) -> bool
    ensures { Decides (BitValue value) result }
{
    value == ON || value == OFF
}

// The number of an exception code ..
impl From<Code> for u8 {
    ghost from_gives = { λ code number. number ≡ code_number code };

    fn from(code: Code) -> u8 {
        match code {
            Code::Function => 1,
            Code::Address => 2,
            Code::Value => 3,
            Code::NotReady => 4,
            Code::ReadOnly => 8,
        }
    }
}

// .. and the code with a number.
impl TryFrom<u8> for Code {
    type Error = UnknownCode;

    ghost try_from_gives = { CodeIs };

    fn try_from(number: u8) -> Result<Code, UnknownCode> {
        match number {
            1 => Ok(Code::Function),
            2 => Ok(Code::Address),
            3 => Ok(Code::Value),
            4 => Ok(Code::NotReady),
            8 => Ok(Code::ReadOnly),
            _ => Err(UnknownCode(number)),
        }
    }
}

// A function's number as an exception has it.
#[tactic(auto, unfolding(crate::specs::Exceptions::top_bit_set))]
pub fn top_bit_set(function: u8) -> u8
    ensures { result ≡ top_bit_set function }
{
    0x80 + function % 0x80
}
