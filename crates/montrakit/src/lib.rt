// The face for programs in other languages: numbers and slices of numbers go in, and what is answered is told as one number. No
// function has a `requires`: what means nothing is answered too. The contracts cite specs/Responding.antt and specs/Mastering.antt;
// host/include/montrakit.h says the same to a C program, and what it owes.
#![tactic(auto)]

mod naming;
mod telling;

ghost use Rattle.std.specs.Prelude.{◌≡◌};
ghost use Rattle.check_word.specs.CheckWord.{check_word};
ghost use Rattle.montrakit.specs.Responding.{Respond};
ghost use Rattle.montrakit.specs.Mastering.{Build, Read};
ghost use Rattle.montrakit.specs.Naming.{RequestIs};

use master::{Function, Request};
use slave::Station;
use telling::BadArgument;

// The check word of any bytes.
#[inline(never)]
pub fn montrakit_check_word(bytes: &[u8]) -> u16
    ensures { result ≡ check_word bytes.now }
{
    check_word::check_word(bytes)
}

// Answers one received frame, as `slave::respond_to_words` does. `areas` has three words for each area: first, count, access.
pub fn montrakit_respond(
    own: u8,
    counting: u8,
    state: u8,
    areas: &[u16],
    frame: &[u8],
    image: &mut [u16],
    reply: &mut [u8],
) -> u32
    ensures { Respond own counting state areas.now frame.now image.old reply.old result image.new reply.new }
{
    let Some(counting) = naming::counting(counting) else {
        return telling::bad_argument(BadArgument::Counting);
    };
    let Some(state) = naming::state(state) else {
        return telling::bad_argument(BadArgument::State);
    };
    let station = Station {
        own,
        counting,
        state,
    };
    let outcome = slave::respond_to_words(station, areas, frame, image, reply);
    telling::outcome(outcome)
}

// Builds a request, as `master::build` does. `value` is the quantity, for 05 the bit's value, for 06 the word's.
pub fn montrakit_build(
    station: u8,
    function: u8,
    start: u16,
    value: u16,
    data: &[u8],
    frame: &mut [u8],
) -> u32
    ensures { Build station function start value «data».now frame.old result frame.new }
{
    let Some(request) = request_of(station, function, start, value) else {
        return telling::unknown_function();
    };
    let built = master::build(request, data, frame);
    telling::built(built)
}

// Reads a reply beside the fields of its request, as `master::read_reply` does.
pub fn montrakit_read(
    station: u8,
    function: u8,
    start: u16,
    value: u16,
    reply: &[u8],
    out: &mut [u8],
) -> u32
    ensures { Read station function start value reply.now out.old result out.new }
{
    let Some(request) = request_of(station, function, start, value) else {
        return telling::unknown_function();
    };
    let reading = master::read_reply(request, reply, out);
    telling::reading(reading)
}

// The request with these fields, if the number is a function's.
fn request_of(station: u8, number: u8, start: u16, value: u16) -> Option<Request>
    ensures { RequestIs station number start value result }
{
    let function = Function::try_from(number).ok()?;
    Some(Request {
        station,
        function,
        start,
        operand: value,
    })
}
