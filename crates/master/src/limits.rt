// What the fields of a request stand for, and refusal 70, which building and reading give alike: it is about the fields and the
// lent buffer.
ghost use Rattle.std.specs.Prelude.{◌≡◌};
ghost use Rattle.promise.specs.Promise.{Decides};
ghost use Rattle.master.specs.Requests.{act_of, width_of, quantity, data_size};
ghost use Rattle.master.specs.Refusals.{OutOfLimits, FieldsRefused};

use crate::{Function, LEAST_ROOM, Request};
use frames::{Act, Width};

impl Function {
    // What it does.
    pub(crate) fn act(self) -> Act
        ensures { result ≡ act_of self }
    {
        match self {
            Function::ReadBits01 | Function::ReadBits02 => Act::Read,
            Function::ReadWords03 | Function::ReadWords04 => Act::Read,
            Function::WriteBit05 | Function::WriteWord06 => Act::WriteOne,
            Function::WriteBits0F | Function::WriteWords10 => Act::WriteRun,
        }
    }

    // What it does it to.
    pub(crate) fn width(self) -> Width
        ensures { result ≡ width_of self }
    {
        match self {
            Function::ReadBits01 | Function::ReadBits02 => Width::Bit,
            Function::ReadWords03 | Function::ReadWords04 => Width::Word,
            Function::WriteBit05 | Function::WriteBits0F => Width::Bit,
            Function::WriteWord06 | Function::WriteWords10 => Width::Word,
        }
    }
}

impl Request {
    // How many bits or words it is about.
    fn quantity(self) -> u16
        ensures { result ≡ quantity self }
    {
        match self.function.act() {
            Act::Read | Act::WriteRun => self.operand,
            Act::WriteOne => 1,
        }
    }

    // How many bytes of data it is built with.
    pub(crate) fn data_size(self) -> usize
        ensures { result ≡ data_size self }
    {
        match self.function.act() {
            Act::Read | Act::WriteOne => 0,
            Act::WriteRun => frames::bytes_for(self.function.width(), self.operand),
        }
    }

    // Refusal 70, but for the data's size.
    pub(crate) fn is_refused(self, room: usize) -> bool
        ensures { Decides (FieldsRefused self room) result }
    {
        self.is_out_of_limits() || self.station == 0 || room < LEAST_ROOM
    }

    // Whether the quantity or the bit value is out of limits.
    fn is_out_of_limits(self) -> bool
        ensures { Decides (OutOfLimits self) result }
    {
        let quantity = self.quantity();
        quantity == 0
            || frames::most_of(self.function.act(), self.function.width()) < quantity
            || self.function == Function::WriteBit05 && !frames::is_bit_value(self.operand)
    }
}
