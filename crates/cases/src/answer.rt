// What a line asks for is done, and what that answered and left is printed.
use crate::ask::{Ask, Kind, Room, Slave};
use crate::lent::{IN_EXCHANGE, Lent};
use crate::output::Output;
use master::{Reading, Request};
use slave::Outcome;
use std::io;
use std::io::Write;

// Answers a line.
pub(crate) fn answer(line: &[u8], room: &mut Room, output: &mut Output) -> io::Result<()> {
    let Some(
        Ask {
            kind,
            mut lent,
            bytes,
        },
    ) = Ask::read(line, room)
    else {
        return output.write_all(b"bad line\n");
    };
    match kind {
        Kind::Call(mut slave) => {
            respond(&mut slave, bytes, &mut lent, output)?;
        }
        Kind::Build(request) => {
            build(request, bytes, &mut lent, output)?;
        }
        Kind::Read(request) => read(request, bytes, &mut lent, output)?,
        Kind::Exchange(request, mut slave) => {
            exchange(request, bytes, &mut slave, &mut lent, output)?;
        }
    }
    output.write_all(b"\n")
}

// Calls the slave, and gives what it sends. None: nothing.
fn respond<'a>(
    slave: &mut Slave<'_>,
    frame: &[u8],
    lent: &'a mut Lent<'_>,
    output: &mut Output,
) -> io::Result<Option<&'a [u8]>> {
    let outcome = slave::respond_by_value(
        slave.station,
        slave.list,
        frame,
        slave.image,
        lent.bytes,
    );
    let to_send = slave::to_send(outcome);
    match outcome {
        Outcome::Refused(why) => write!(output, "refused {}", u8::from(why))?,
        Outcome::Silent(why) => write!(output, "silent {}", u8::from(why))?,
        Outcome::Exception(code) => write!(output, "exception {}", u8::from(code))?,
        Outcome::Reply(_) => output.write_all(b"reply")?,
    }
    let sent = lent.put(to_send, output)?;
    put_changed(slave.before, slave.image, output)?;
    match outcome {
        Outcome::Refused(_) | Outcome::Silent(_) => Ok(None),
        Outcome::Exception(_) | Outcome::Reply(_) => Ok(Some(sent)),
    }
}

// Puts the words that are not as they were before, each with its place.
fn put_changed(before: &[u16], image: &[u16], output: &mut Output) -> io::Result<()> {
    output.write_all(b"|")?;
    let mut some = false;
    for (place, (before, word)) in before.iter().zip(image).enumerate() {
        if before != word {
            let comma = if some { "," } else { "" };
            write!(output, "{comma}{place} {word}")?;
            some = true;
        }
    }
    Ok(())
}

// Builds a request, and gives its bytes. None: refused.
fn build<'a>(
    request: Request,
    data: &[u8],
    lent: &'a mut Lent<'_>,
    output: &mut Output,
) -> io::Result<Option<&'a [u8]>> {
    match master::build(request, data, lent.bytes) {
        Err(why) => {
            write!(output, "refused {}", u8::from(why))?;
            lent.put(0, output)?;
            Ok(None)
        }
        Ok(n) => {
            output.write_all(b"frame")?;
            Ok(Some(lent.put(n, output)?))
        }
    }
}

// Reads a reply beside its request.
fn read(
    request: Request,
    reply: &[u8],
    lent: &mut Lent<'_>,
    output: &mut Output,
) -> io::Result<()> {
    let mut written = 0;
    match master::read_reply(request, reply, lent.bytes) {
        Ok(Reading::Data(n)) => {
            output.write_all(b"data")?;
            written = n;
        }
        Ok(Reading::Written) => output.write_all(b"written")?,
        Ok(Reading::Exception(code)) => write!(output, "exception {}", u8::from(code))?,
        Err(why) => write!(output, "refused {}", u8::from(why))?,
    }
    lent.put(written, output)?;
    Ok(())
}

// Builds a request. If that is done, the slave is called with it, and what it sends is read.
fn exchange(
    request: Request,
    data: &[u8],
    slave: &mut Slave<'_>,
    lent: &mut Lent<'_>,
    output: &mut Output,
) -> io::Result<()> {
    let mut room = [0; master::LEAST_ROOM];
    let mut to_build_in = Lent::filled(&mut room, IN_EXCHANGE);
    let Some(frame) = build(request, data, &mut to_build_in, output)? else {
        return Ok(());
    };
    output.write_all(b"|")?;
    let Some(reply) = respond(slave, frame, lent, output)? else {
        return Ok(());
    };
    output.write_all(b"|")?;
    let mut room = [0; master::LEAST_ROOM];
    let mut to_read_into = Lent::filled(&mut room, IN_EXCHANGE);
    read(request, reply, &mut to_read_into, output)
}
