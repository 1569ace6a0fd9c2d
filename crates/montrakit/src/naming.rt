// What the bytes that come in stand for, and that others stand for nothing. (What a function's number stands for is its `TryFrom`.)
ghost use Rattle.montrakit.specs.Naming.{CountingIs, StateIs};

use slave::{Counting, State};

pub(crate) fn counting(byte: u8) -> Option<Counting>
    ensures { CountingIs byte result }
{
    match byte {
        0 => Some(Counting::ModBus),
        1 => Some(Counting::JBus),
        _ => None,
    }
}

pub(crate) fn state(byte: u8) -> Option<State>
    ensures { StateIs byte result }
{
    match byte {
        0 => Some(State::Ready),
        1 => Some(State::NotReady),
        2 => Some(State::AtTheKeyboard),
        _ => None,
    }
}
