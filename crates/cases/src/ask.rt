// What a line asks for: a call of the slave, or behind a word something of the master's half.
ghost use Rattle.std.specs.Prelude.{◌≤◌, length, IfSome};
ghost use Rattle.cases.specs.declared.ask.TheConstants.{MOST_WORDS};

use crate::fields;
use crate::lent::{Lent, MOST_ROOM};
use crate::series::Series;
use areas::{Access, Area, AreaList, LIST_ENTRIES};
use lines::MOST_BYTES;
use master::{Function, Request};
use slave::{Counting, State, Station};
use std::str;

// The most characters of a line.
pub(crate) const LONGEST_LINE: usize = 4096;

// The most words of an image.
pub(crate) const MOST_WORDS: usize = 8192;

const UNUSED: Area = Area {
    first: 0,
    count: 0,
    access: Access::ReadOnly,
};

// What a line's image, lent buffer and bytes are read into. No more of it is looked at than the line has filled.
#[derive(Drop)]
pub(crate) struct Room {
    images: Images,
    lent: [u8; MOST_ROOM],
    bytes: [u8; MOST_BYTES],
}

#[derive(Drop)]
struct Images {
    image: [u16; MOST_WORDS],
    before: [u16; MOST_WORDS],
}

// The bytes are a frame, the data of a request, or a reply.
#[derive(Drop)]
pub(crate) struct Ask<'a> {
    pub(crate) kind: Kind<'a>,
    pub(crate) lent: Lent<'a>,
    pub(crate) bytes: &'a [u8],
}

#[derive(Drop)]
pub(crate) enum Kind<'a> {
    Call(Slave<'a>),
    Build(Request),
    Read(Request),
    Exchange(Request, Slave<'a>),
}

#[derive(Drop)]
pub(crate) struct Slave<'a> {
    pub(crate) station: Station,
    pub(crate) list: AreaList,
    pub(crate) image: &'a mut [u16],
    // the image as it is lent
    pub(crate) before: &'a [u16],
    ghost within: { length image.now ≤ MOST_WORDS },
}

impl Room {
    pub(crate) fn new() -> Self {
        Room {
            images: Images {
                image: [0; MOST_WORDS],
                before: [0; MOST_WORDS],
            },
            lent: [0; MOST_ROOM],
            bytes: [0; MOST_BYTES],
        }
    }
}

impl<'a> Ask<'a> {
    // None for a bad line.
    pub(crate) fn read(line: &[u8], room: &'a mut Room) -> Option<Self> {
        if LONGEST_LINE < line.len() {
            return None;
        }
        let text = str::from_utf8(line).ok()?;
        let (kind, rest) = Kind::read(text, &mut room.images)?;
        let (lent, bytes) = rest.split_once('|')?;
        Some(Ask {
            kind,
            lent: Lent::read(lent, &mut room.lent)?,
            bytes: read_bytes(bytes, &mut room.bytes)?,
        })
    }
}

impl<'a> Kind<'a> {
    // Reads what is asked for, and gives the text behind it too, without the bar between them.
    fn read<'t>(text: &'t str, room: &'a mut Images) -> Option<(Self, &'t str)> {
        let (word, rest) = text.split_once('|')?;
        match word {
            "build" => {
                let (request, rest) = read_request(rest)?;
                Some((Kind::Build(request), rest))
            }
            "read" => {
                let (request, rest) = read_request(rest)?;
                Some((Kind::Read(request), rest))
            }
            "exchange" => {
                let (request, rest) = read_request(rest)?;
                let (slave, rest) = Slave::read(rest, room)?;
                Some((Kind::Exchange(request, slave), rest))
            }
            _ => {
                let (slave, rest) = Slave::read(text, room)?;
                Some((Kind::Call(slave), rest))
            }
        }
    }
}

impl<'a> Slave<'a> {
    // Reads a slave's three parts, and gives the text behind them too.
    fn read<'t>(text: &'t str, room: &'a mut Images) -> Option<(Self, &'t str)> {
        let (station, rest) = text.split_once('|')?;
        let (list, rest) = rest.split_once('|')?;
        let (image, rest) = rest.split_once('|')?;
        let station = read_station(station)?;
        let list = read_list(list)?;
        let image = read_image(image, &mut room.image)?;
        let before = copy_of(image, &mut room.before);
        let slave = Slave {
            station,
            list,
            image,
            before,
        };
        Some((slave, rest))
    }
}

// Reads a request's part, and gives the text behind it too.
fn read_request(text: &str) -> Option<(Request, &str)> {
    let (part, rest) = text.split_once('|')?;
    let (station, part) = part.split_once(' ')?;
    let (function, start, operand) = fields::three(part)?;
    let request = Request {
        station: fields::number(station)?,
        function: Function::try_from(fields::number::<u8>(function)?).ok()?,
        start: fields::number(start)?,
        operand: fields::number(operand)?,
    };
    Some((request, rest))
}

fn read_station(text: &str) -> Option<Station> {
    let (own, counting, state) = fields::three(text)?;
    Some(Station {
        own: fields::number(own)?,
        counting: match counting {
            "m" => Counting::ModBus,
            "j" => Counting::JBus,
            _ => return None,
        },
        state: match state {
            "r" => State::Ready,
            "n" => State::NotReady,
            "k" => State::AtTheKeyboard,
            _ => return None,
        },
    })
}

// Of more than seventeen areas, which is too many, the first seventeen are kept, and all are counted.
fn read_list(text: &str) -> Option<AreaList> {
    let mut list = AreaList {
        entries: [UNUSED; LIST_ENTRIES],
        len: 0,
    };
    if text.is_empty() {
        return Some(list);
    }
    for (k, part) in text.split(',').enumerate() {
        let area = read_area(part)?;
        if k < LIST_ENTRIES {
            list.entries[k] = area;
        }
        list.len = k + 1;
    }
    Some(list)
}

fn read_area(text: &str) -> Option<Area> {
    let (first, count, access) = fields::three(text)?;
    Some(Area {
        first: fields::number(first)?,
        count: fields::number(count)?,
        access: match access {
            "r" => Access::ReadOnly,
            "w" => Access::ReadWrite,
            _ => return None,
        },
    })
}

// Fills the start of the room by a series, and sets the words that the text gives behind it.
fn read_image<'a>(text: &str, room: &'a mut [u16; MOST_WORDS]) -> Option<&'a mut [u16]>
    ensures { IfSome result (λ image. length image.now ≤ MOST_WORDS) }
{
    let mut parts = text.split(',');
    let series = Series::read(parts.next()?)?;
    let image = room.get_mut(..series.count)?;
    for (i, word) in image.iter_mut().enumerate() {
        *word = series.word(i);
    }
    for part in parts {
        let (place, value) = part.split_once(' ')?;
        let word = image.get_mut(fields::number::<usize>(place)?)?;
        *word = fields::number(value)?;
    }
    Some(image)
}

// A copy of an image, in the start of the room.
fn copy_of<'a>(image: &[u16], room: &'a mut [u16; MOST_WORDS]) -> &'a [u16]
    requires { length image.now ≤ MOST_WORDS }
{
    let copy = &mut room[..image.len()];
    copy.copy_from_slice(image);
    copy
}

fn read_bytes<'a>(text: &str, room: &'a mut [u8; MOST_BYTES]) -> Option<&'a [u8]> {
    let n = lines::read_frame(text.as_bytes(), room)?;
    Some(&room[..n])
}
