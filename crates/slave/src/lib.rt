// A slave's core: one received frame is answered. First it is decided what to answer, and no register is read for that; then the
// decision is carried out, and by then nothing can go wrong. The areas are lent, as a slice of areas or of words; `respond_by_value`
// lends a list by value. No public function has a `requires`. The contracts cite specs/Answer.antt and specs/Words.antt.
#![tactic(auto)]

mod carry;
mod decide;

ghost use Rattle.std.specs.Prelude.{◌≡◌, length};
ghost use Rattle.areas.specs.Calls.{listed};
ghost use Rattle.slave.specs.Numbers.{refusal_number, silence_number};
ghost use Rattle.slave.specs.Answer.{to_send, Respond};
ghost use Rattle.slave.specs.Words.{RespondToWords};
ghost use Rattle.slave.specs.Deciding.{FoundOfSome, AnsweredBy};

use areas::{Area, AreaList, LIST_ENTRIES, Verdict};
use frames::Code;

// The most words of an image.
pub const MOST_IMAGE_WORDS: usize = 4095;

// The fewest bytes of a reply buffer.
pub const LEAST_ROOM: usize = frames::LONGEST;

// How the line counts addresses: MOD-Bus from 0, J-Bus from 1.
#[derive(Clone, Copy, Debug, PartialEq, Eq)]
pub enum Counting {
    ModBus,
    JBus,
}

// What the station is doing.
#[derive(Clone, Copy, Debug, PartialEq, Eq)]
pub enum State {
    Ready,
    // It answers with exception 4.
    NotReady,
    // Someone is at its keyboard: it is silent.
    AtTheKeyboard,
}

#[derive(Clone, Copy, Debug, PartialEq, Eq)]
pub struct Station {
    // 1 to 255.
    pub own: u8,
    pub counting: Counting,
    pub state: State,
}

// Why a call is refused.
#[derive(Clone, Copy, Debug, PartialEq, Eq)]
pub enum Refusal {
    // 1: own address is 0.
    OwnAddress,
    // 2: image has 0 words or over 4,095.
    Image,
    // 3: area list breaks a rule.
    Areas,
    // 4: reply buffer under 256 bytes.
    ReplyBuffer,
}

// Why a frame is met with silence.
#[derive(Clone, Copy, Debug, PartialEq, Eq)]
pub enum Silence {
    // 10: frame under 4 or over 256 bytes.
    FrameLength,
    // 11: last two bytes are not the check word of the rest.
    CheckWord,
    // 12: another station's address.
    AnotherStation,
    // 13: station is at the keyboard.
    AtTheKeyboard,
    // 14: length is wrong for the function.
    RequestLength,
    // 15: quantity is 0.
    NoQuantity,
}

#[derive(Clone, Copy, Debug, PartialEq, Eq)]
pub enum Outcome {
    Refused(Refusal),
    Silent(Silence),
    // The reply buffer starts with an exception.
    Exception(Code),
    // The reply buffer starts with a reply of so many bytes.
    Reply(usize),
}

// Answers one received frame. The first `to_send` bytes of the reply buffer go onto the line, and those beyond keep their content.
// A refusal and a silence change nothing, an exception leaves the image.
pub fn respond(
    station: Station,
    areas: &[Area],
    frame: &[u8],
    image: &mut [u16],
    reply: &mut [u8],
) -> Outcome
    ensures { Respond station areas.now frame.now image.old reply.old result image.new reply.new }
{
    let run = decide::words_asked(station, frame);
    let finding = areas::survey(areas, image.len(), run);
    answer(station, finding, frame, image, reply)
}

// The same for areas that are lent as words, three for each: first, count, access (0 read-only, 1 read-write). Words of no list are
// answered as a list that breaks a rule.
pub fn respond_to_words(
    station: Station,
    area_words: &[u16],
    frame: &[u8],
    image: &mut [u16],
    reply: &mut [u8],
) -> Outcome
    ensures { RespondToWords station area_words.now frame.now image.old reply.old result image.new reply.new }
{
    let run = decide::words_asked(station, frame);
    let finding = areas::survey_words(area_words, image.len(), run);
    answer(station, finding, frame, image, reply)
}

// The same for a list of areas by value.
pub fn respond_by_value(
    station: Station,
    list: AreaList,
    frame: &[u8],
    image: &mut [u16],
    reply: &mut [u8],
) -> Outcome
    ensures { Respond station (listed list) frame.now image.old reply.old result image.new reply.new }
{
    respond(
        station,
        &list.entries[..list.len.min(LIST_ENTRIES)],
        frame,
        image,
        reply,
    )
}

// Decides, by what was found of the areas, and carries it out.
fn answer(
    station: Station,
    finding: Option<Verdict>,
    frame: &[u8],
    image: &mut [u16],
    reply: &mut [u8],
) -> Outcome
    requires { FoundOfSome station frame.now (length image.old) finding }
    ensures { AnsweredBy station finding frame.now image.old reply.old result image.new reply.new }
{
    let decision = decide::decide(station, finding, image.len(), reply.len(), frame);
    carry::carry_out(decision, station, frame, image, reply)
}

// How many bytes of the reply buffer go onto the line.
pub fn to_send(outcome: Outcome) -> usize
    ensures { result ≡ to_send outcome }
{
    match outcome {
        Outcome::Refused(_) | Outcome::Silent(_) => 0,
        Outcome::Exception(_) => frames::EXCEPTION_LENGTH,
        Outcome::Reply(length) => length,
    }
}

// The number of a refusal.
impl From<Refusal> for u8 {
    ghost from_gives = { λ why n. n ≡ refusal_number why };

    fn from(why: Refusal) -> Self {
        match why {
            Refusal::OwnAddress => 1,
            Refusal::Image => 2,
            Refusal::Areas => 3,
            Refusal::ReplyBuffer => 4,
        }
    }
}

// The number of a silence.
impl From<Silence> for u8 {
    ghost from_gives = { λ why n. n ≡ silence_number why };

    fn from(why: Silence) -> Self {
        match why {
            Silence::FrameLength => 10,
            Silence::CheckWord => 11,
            Silence::AnotherStation => 12,
            Silence::AtTheKeyboard => 13,
            Silence::RequestLength => 14,
            Silence::NoQuantity => 15,
        }
    }
}
