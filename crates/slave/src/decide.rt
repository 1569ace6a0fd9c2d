// What to answer: the lines of the answer table, in their order, each tested before anything is read for the next. Of the areas a
// decision knows what was found of them: line 3, and by the verdict on the words asked for, E8 and one part of E2. Nothing is written,
// and no register is read.
ghost use Rattle.std.specs.Prelude.{◌≡◌, Some};
ghost use Rattle.promise.specs.Promise.{Decides};
ghost use Rattle.frames.specs.Fields.{function_field};
ghost use Rattle.frames.specs.Functions.{function_of};
ghost use Rattle.frames.specs.Limits.{quantity};
ghost use Rattle.slave.specs.Conditions.{OutOfLimits, counted_from0};
ghost use Rattle.slave.specs.Deciding.{words_in, words_asked, DecidedBy, DecidedFor, frame_lines, request_lines, by_verdict};

use crate::{Counting, LEAST_ROOM, MOST_IMAGE_WORDS, Refusal, Silence, State, Station};
use areas::{Run, Verdict};
use frames::{Act, Code, Width};
use registers::WORD_BITS;

// What a frame asks for: `count` bits or words from address `first` on, counted from 0.
#[derive(Clone, Copy)]
pub(crate) struct Request {
    pub act: Act,
    pub width: Width,
    pub first: usize,
    pub count: usize,
}

#[derive(Clone, Copy)]
pub(crate) enum Decision {
    Refused(Refusal),
    Silent(Silence),
    Exception(Code),
    Accepted(Request),
}

// The words that a frame asks for. The areas are asked of them at once, before it is known whether that matters.
pub(crate) fn words_asked(station: Station, frame: &[u8]) -> Run
    ensures { result ≡ words_asked station frame.now }
{
    let function = frames::byte_at(frame, frames::FUNCTION_AT);
    let Some((act, width)) = frames::function_of(function) else {
        return Run { first: 0, count: 0 };
    };
    let start = frames::number_at(frame, frames::START_AT);
    let first = counted_from_0(station.counting, start);
    words_in(width, first, frames::quantity_of(act, frame))
}

// The words that the bits or words of a run belong to.
fn words_in(width: Width, first: u16, count: u16) -> Run
    ensures { result ≡ words_in width first count }
{
    match width {
        Width::Bit => Run {
            first: (first as usize / WORD_BITS) as u16,
            count: (first as usize % WORD_BITS + count as usize).div_ceil(WORD_BITS) as u16,
        },
        Width::Word => Run { first, count },
    }
}

// The whole table: lines 1 to 4 are about the call.
pub(crate) fn decide(
    station: Station,
    finding: Option<Verdict>,
    words: usize,
    room: usize,
    frame: &[u8],
) -> Decision
    ensures { DecidedBy station frame.now words room finding result }
{
    if station.own == 0 {
        return Decision::Refused(Refusal::OwnAddress);
    }
    if words == 0 || MOST_IMAGE_WORDS < words {
        return Decision::Refused(Refusal::Image);
    }
    let Some(verdict) = finding else {
        return Decision::Refused(Refusal::Areas);
    };
    if room < LEAST_ROOM {
        return Decision::Refused(Refusal::ReplyBuffer);
    }
    decide_frame(station, verdict, frame)
}

// From line 10 on. Lines 10 and 11 are about the frame as the serial line brings it.
fn decide_frame(station: Station, verdict: Verdict, frame: &[u8]) -> Decision
    ensures { DecidedFor frame_lines station frame.now verdict result }
{
    if frame.len() < frames::SHORTEST || frames::LONGEST < frame.len() {
        return Decision::Silent(Silence::FrameLength);
    }
    if !check_word::is_right(frame) {
        return Decision::Silent(Silence::CheckWord);
    }
    let address = frames::byte_at(frame, frames::STATION_AT);
    if address == 0 || address != station.own {
        return Decision::Silent(Silence::AnotherStation);
    }
    if station.state == State::AtTheKeyboard {
        return Decision::Silent(Silence::AtTheKeyboard);
    }
    if station.state == State::NotReady {
        return Decision::Exception(Code::NotReady);
    }
    let function = frames::byte_at(frame, frames::FUNCTION_AT);
    let Some((act, width)) = frames::function_of(function) else {
        return Decision::Exception(Code::Function);
    };
    decide_request(station, verdict, act, width, frame)
}

// From line 14 on, of a function in the table.
#[inline(always)]
fn decide_request(
    station: Station,
    verdict: Verdict,
    act: Act,
    width: Width,
    frame: &[u8],
) -> Decision
    requires { function_of (function_field frame.now) ≡ Some (act, width) }
    ensures { DecidedFor request_lines station frame.now verdict result }
{
    if frame.len() != frames::request_length(act, frame) {
        return Decision::Silent(Silence::RequestLength);
    }
    let count = frames::quantity_of(act, frame);
    if count == 0 {
        return Decision::Silent(Silence::NoQuantity);
    }
    if is_out_of_limits(act, width, count, frame) {
        return Decision::Exception(Code::Value);
    }
    let start = frames::number_at(frame, frames::START_AT);
    if station.counting == Counting::JBus && start == 0 {
        return Decision::Exception(Code::Address);
    }
    by_verdict(
        verdict,
        Request {
            act,
            width,
            first: counted_from_0(station.counting, start) as usize,
            count: count as usize,
        },
    )
}

// Line E3.
#[inline(always)]
fn is_out_of_limits(act: Act, width: Width, count: u16, frame: &[u8]) -> bool
    requires { count ≡ quantity act frame.now }
    ensures { Decides (OutOfLimits frame.now act width) result }
{
    if frames::most_of(act, width) < count {
        return true;
    }
    match act {
        Act::Read => false,
        Act::WriteOne => {
            width == Width::Bit && !frames::is_bit_value(frames::number_at(frame, frames::VALUE_AT))
        }
        Act::WriteRun => {
            frames::byte_at(frame, frames::BYTE_COUNT_AT) as usize
                != frames::bytes_for(width, count)
        }
    }
}

// The address that the start names, counted from 0. (J-Bus start 0, which names none, gives 0; it is answered before.)
fn counted_from_0(counting: Counting, start: u16) -> u16
    ensures { result ≡ counted_from0 counting start }
{
    match counting {
        Counting::ModBus => start,
        Counting::JBus => start.saturating_sub(1),
    }
}

// Lines E2, as far as it is about areas, and E8: words of which some are read-only may be read.
fn by_verdict(verdict: Verdict, request: Request) -> Decision
    ensures { result ≡ by_verdict verdict request }
{
    match verdict {
        Verdict::SomeInNoArea => Decision::Exception(Code::Address),
        Verdict::SomeReadOnly if request.act != Act::Read => Decision::Exception(Code::ReadOnly),
        Verdict::SomeReadOnly | Verdict::AllReadWrite => Decision::Accepted(request),
    }
}
