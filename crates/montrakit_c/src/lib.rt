// The static library: the face's functions under their names for C. Each calls the function of that name and promises what that one does.
// host/include/montrakit.h says the same to a C program, and what it owes.
#![tactic(auto)]

ghost use Rattle.std.specs.Prelude.{◌≡◌};
ghost use Rattle.check_word.specs.CheckWord.{check_word};
ghost use Rattle.montrakit.specs.Responding.{Respond};
ghost use Rattle.montrakit.specs.Mastering.{Build, Read};

// The check word of any bytes.
#[unsafe(no_mangle)]
pub extern "C" fn montrakit_check_word(bytes: &[u8]) -> u16
    ensures { result ≡ check_word bytes.now }
{
    montrakit::montrakit_check_word(bytes)
}

// Answers one received frame. `areas` has three words for each area: first, count, access.
#[unsafe(no_mangle)]
pub extern "C" fn montrakit_respond(
    own: u8,
    counting: u8,
    state: u8,
    areas: &[u16],
    frame: &[u8],
    image: &mut [u16],
    reply: &mut [u8],
) -> u32
    ensures { Respond own counting state areas.now frame.now image.old reply.old result image.new reply.new }
{
    montrakit::montrakit_respond(own, counting, state, areas, frame, image, reply)
}

// Builds a request. `value` is the quantity, for 05 the bit's value, for 06 the word's.
#[unsafe(no_mangle)]
pub extern "C" fn montrakit_build(
    station: u8,
    function: u8,
    start: u16,
    value: u16,
    data: &[u8],
    frame: &mut [u8],
) -> u32
    ensures { Build station function start value «data».now frame.old result frame.new }
{
    montrakit::montrakit_build(station, function, start, value, data, frame)
}

// Reads a reply beside the fields of its request.
#[unsafe(no_mangle)]
pub extern "C" fn montrakit_read(
    station: u8,
    function: u8,
    start: u16,
    value: u16,
    reply: &[u8],
    out: &mut [u8],
) -> u32
    ensures { Read station function start value reply.now out.old result out.new }
{
    montrakit::montrakit_read(station, function, start, value, reply, out)
}
