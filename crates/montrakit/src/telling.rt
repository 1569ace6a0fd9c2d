// What is answered, as one number: kind × 65,536 + number.
ghost use Rattle.std.specs.Prelude.{◌≡◌, ◌≤◌};
ghost use Rattle.slave.specs.Answer.{to_send};
ghost use Rattle.montrakit.specs.Results.{result as one_number, most_number, bad_argument, outcome_result, built_result, reading_result, unknown_function, bytes_built, bytes_read, refused};
ghost use Rattle.master.specs.Refusals.{refusal_number};
ghost use Rattle.montrakit.specs.Naming.{kind_number, argument_number};

use master::{Reading, Refusal};
use slave::Outcome;

#[derive(Clone, Copy)]
enum Kind {
    Refused = 0,
    Silent = 1,
    Exception = 2,
    Reply = 3,
    BadArgument = 4,
    Built = 5,
    Values = 6,
    Written = 7,
}

#[derive(Clone, Copy)]
pub(crate) enum BadArgument {
    Counting = 1,
    State = 2,
}

pub(crate) fn bad_argument(argument: BadArgument) -> u32
    ensures { result ≡ one_number bad_argument (argument_number argument) }
{
    result_of(Kind::BadArgument, argument as u32)
}

// Of a function number that names none.
pub(crate) fn unknown_function() -> u32
    ensures { result ≡ unknown_function }
{
    refused(Refusal::Request)
}

pub(crate) fn outcome(outcome: Outcome) -> u32
    requires { to_send outcome ≤ most_number }
    ensures { result ≡ outcome_result outcome }
{
    match outcome {
        Outcome::Refused(why) => result_of(Kind::Refused, u8::from(why) as u32),
        Outcome::Silent(why) => result_of(Kind::Silent, u8::from(why) as u32),
        Outcome::Exception(code) => result_of(Kind::Exception, u8::from(code) as u32),
        Outcome::Reply(length) => result_of(Kind::Reply, length as u32),
    }
}

pub(crate) fn built(built: Result<usize, Refusal>) -> u32
    requires { bytes_built built ≤ most_number }
    ensures { result ≡ built_result built }
{
    match built {
        Err(why) => refused(why),
        Ok(length) => result_of(Kind::Built, length as u32),
    }
}

pub(crate) fn reading(reading: Result<Reading, Refusal>) -> u32
    requires { bytes_read reading ≤ most_number }
    ensures { result ≡ reading_result reading }
{
    match reading {
        Err(why) => refused(why),
        Ok(Reading::Data(length)) => result_of(Kind::Values, length as u32),
        Ok(Reading::Written) => result_of(Kind::Written, 0),
        Ok(Reading::Exception(code)) => result_of(Kind::Exception, u8::from(code) as u32),
    }
}

// A refusal of the master's.
fn refused(why: Refusal) -> u32
    ensures { result ≡ one_number refused (refusal_number why) }
{
    result_of(Kind::Refused, u8::from(why) as u32)
}

fn result_of(kind: Kind, number: u32) -> u32
    requires { number ≤ most_number }
    ensures { result ≡ one_number (kind_number kind) number }
{
    kind as u32 * 65536 + number
}
