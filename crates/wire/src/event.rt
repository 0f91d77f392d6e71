// Event records: what this module has in place of the messages that src/eiproto_eis.rs of reis writes.
ghost use Rattle.std.specs.Prelude.{◌+◌, ◌≤◌, ◌<◌, true, false, ◌++◌, ◌≡◌, length};
ghost use Rattle.wire.specs.Bits.{be};
ghost use Rattle.wire.specs.Record.{event_record, fixed_length, record_length};
ghost use Rattle.wire.specs.Fields.{Laid, kind_number, number_of, numbers, size, start};
ghost use Rattle.wire.specs.Put.{PutWhole, Wrote};

// The 18 kinds by value. The text of a name and of an explanation is lent beside the event.
#[derive(Clone, Copy, Debug, PartialEq, Eq)]
pub enum Event {
    Seat {
        id: u64,
        version: u32,
    },
    Name,
    Capability {
        mask: u64,
        interface: u8,
    },
    Done,
    Destroyed {
        serial: u32,
    },
    Device {
        id: u64,
        version: u32,
    },
    DeviceType {
        value: u32,
    },
    Interface {
        id: u64,
        interface: u8,
        version: u32,
    },
    Resumed {
        serial: u32,
    },
    Paused {
        serial: u32,
    },
    StartEmulating {
        serial: u32,
        sequence: u32,
    },
    StopEmulating {
        serial: u32,
    },
    Frame {
        serial: u32,
        time: u64,
    },
    Disconnected {
        serial: u32,
        reason: u32,
        explained: bool,
    },
    CallbackDone {
        value: u64,
    },
    HandshakeVersion {
        version: u32,
    },
    InterfaceVersion {
        interface: u8,
        version: u32,
    },
    Connection {
        id: u64,
        serial: u32,
        version: u32,
    },
}

// The kinds of records, with their numbers. None has the number 0.
#[derive(Clone, Copy, Debug, PartialEq, Eq)]
pub enum EventKind {
    Seat = 1,
    Name = 2,
    Capability = 3,
    Done = 4,
    Destroyed = 5,
    Device = 6,
    DeviceType = 7,
    Interface = 8,
    Resumed = 9,
    Paused = 10,
    StartEmulating = 11,
    StopEmulating = 12,
    Frame = 13,
    Disconnected = 14,
    CallbackDone = 15,
    HandshakeVersion = 16,
    InterfaceVersion = 17,
    Connection = 18,
}

// A number in so many bytes of a record; in none where there is no such number.
#[derive(Clone, Copy, Debug, PartialEq, Eq)]
pub struct Number {
    pub bytes: usize,
    pub value: u64,
}

const NO_NUMBER: Number = Number { bytes: 0, value: 0 };

impl From<u8> for Number {
    ghost from_gives = { λ value number. number ≡ number_of 1 value };

    fn from(value: u8) -> Number {
        Number {
            bytes: 1,
            value: u64::from(value),
        }
    }
}

impl From<u32> for Number {
    ghost from_gives = { λ value number. number ≡ number_of 4 value };

    fn from(value: u32) -> Number {
        Number {
            bytes: 4,
            value: u64::from(value),
        }
    }
}

impl From<u64> for Number {
    ghost from_gives = { λ value number. number ≡ number_of 8 value };

    fn from(value: u64) -> Number {
        Number { bytes: 8, value }
    }
}

// An event's record behind the object id: at most three numbers, then a text or none. The kind is a number, since `put_whole` takes any below 32.
#[derive(Clone, Copy, Debug, PartialEq, Eq)]
pub struct Fields {
    pub kind: u64,
    pub first: Number,
    pub second: Number,
    pub third: Number,
    pub text: bool,
}

impl Fields {
    // A record of the kind alone.
    fn of(kind: EventKind) -> Fields
        ensures { result ≡ numbers (kind_number kind) 0 0 0 0 0 0 false }
    {
        Fields {
            kind: kind as u64,
            first: NO_NUMBER,
            second: NO_NUMBER,
            third: NO_NUMBER,
            text: false,
        }
    }
}

// An event's record, by its kind. That there is an explanation stands in the most significant bit of the byte before it.
fn fields_of(e: Event) -> Fields
    ensures { Laid e result }
{
    match e {
        Event::Seat { id, version } => Fields {
            first: id.into(),
            second: version.into(),
            ..Fields::of(EventKind::Seat)
        },
        Event::Name => Fields {
            text: true,
            ..Fields::of(EventKind::Name)
        },
        Event::Capability { mask, interface } => Fields {
            first: mask.into(),
            second: interface.into(),
            ..Fields::of(EventKind::Capability)
        },
        Event::Done => Fields::of(EventKind::Done),
        Event::Destroyed { serial } => Fields {
            first: serial.into(),
            ..Fields::of(EventKind::Destroyed)
        },
        Event::Device { id, version } => Fields {
            first: id.into(),
            second: version.into(),
            ..Fields::of(EventKind::Device)
        },
        Event::DeviceType { value } => Fields {
            first: value.into(),
            ..Fields::of(EventKind::DeviceType)
        },
        Event::Interface {
            id,
            interface,
            version,
        } => Fields {
            first: id.into(),
            second: interface.into(),
            third: version.into(),
            ..Fields::of(EventKind::Interface)
        },
        Event::Resumed { serial } => Fields {
            first: serial.into(),
            ..Fields::of(EventKind::Resumed)
        },
        Event::Paused { serial } => Fields {
            first: serial.into(),
            ..Fields::of(EventKind::Paused)
        },
        Event::StartEmulating { serial, sequence } => Fields {
            first: serial.into(),
            second: sequence.into(),
            ..Fields::of(EventKind::StartEmulating)
        },
        Event::StopEmulating { serial } => Fields {
            first: serial.into(),
            ..Fields::of(EventKind::StopEmulating)
        },
        Event::Frame { serial, time } => Fields {
            first: serial.into(),
            second: time.into(),
            ..Fields::of(EventKind::Frame)
        },
        Event::Disconnected {
            serial,
            reason,
            explained,
        } => Fields {
            first: serial.into(),
            second: reason.into(),
            third: (if explained { 0x80u8 } else { 0 }).into(),
            text: explained,
            ..Fields::of(EventKind::Disconnected)
        },
        Event::CallbackDone { value } => Fields {
            first: value.into(),
            ..Fields::of(EventKind::CallbackDone)
        },
        Event::HandshakeVersion { version } => Fields {
            first: version.into(),
            ..Fields::of(EventKind::HandshakeVersion)
        },
        Event::InterfaceVersion { interface, version } => Fields {
            first: interface.into(),
            second: version.into(),
            ..Fields::of(EventKind::InterfaceVersion)
        },
        Event::Connection {
            id,
            serial,
            version,
        } => Fields {
            first: id.into(),
            second: serial.into(),
            third: version.into(),
            ..Fields::of(EventKind::Connection)
        },
    }
}

// The length of a record without its text: the kind, the length and the object id are ten bytes.
fn fixed(f: Fields) -> usize
    requires { size f ≤ 16 }
    ensures { result ≡ 10 + size f }
{
    10 + f.first.bytes + f.second.bytes + f.third.bytes
}

// The same of an event.
pub fn fixed_length(e: Event) -> usize
    ensures { result ≡ fixed_length e }
{
    fixed(fields_of(e))
}

// The length of an event's record.
pub fn record_length(e: Event, text: &[u8]) -> usize
    ensures { result ≡ record_length e text.now }
{
    let f = fields_of(e);
    if f.text {
        fixed(f) + text.len()
    } else {
        fixed(f)
    }
}

// A text at a place of the buffer. The buffer and the place, here and below, and not the part from there on: `Wrote` and `PutWhole` tell every byte
// of the buffer, and each call would have to see that the part is there.
pub fn put_text(out: &mut [u8], at: usize, text: &[u8]) -> usize
    requires { at + length text.now ≤ length out.old }
    ensures { Wrote out.old out.new at (length text.now) text.now result }
{
    if text.is_empty() {
        return at;
    }
    let end = at + text.len();
    out[at..end].copy_from_slice(text);
    end
}

// A number's low bytes at a place of the buffer, the most significant first. Four and eight, which most numbers have, are stored at once: a copy of a
// length that the compiler does not know is a call, and dearer than the loop.
fn put(out: &mut [u8], at: usize, number: Number) -> usize
    requires { (number.bytes ≤ 16) × (at + number.bytes ≤ length out.old) }
    ensures { Wrote out.old out.new at number.bytes (be number.bytes number.value) result }
{
    match number.bytes {
        4 => put_text(
            out,
            at,
            &((number.value % 0x1_0000_0000) as u32).to_be_bytes(),
        ),
        8 => put_text(out, at, &number.value.to_be_bytes()),
        bytes => {
            let mut rest = number.value;
            for i in (0..bytes).rev() {
                out[at + i] = (rest % 256) as u8;
                rest /= 256;
            }
            at + bytes
        }
    }
}

// A record up to its text. Of its length it has the low 11 bits.
fn put_start(out: &mut [u8], at: usize, object: u64, f: Fields, total: usize) -> usize
    requires { (f.kind < 32) × ((size f ≤ 16) × (at + (10 + size f) ≤ length out.old)) }
    ensures { Wrote out.old out.new at (10 + size f) (start object f total) result }
{
    let head = Number {
        bytes: 2,
        value: f.kind * 2048 + (total % 2048) as u64,
    };
    let id = put(out, at, head);
    let first = put(out, id, object.into());
    let second = put(out, first, f.first);
    let third = put(out, second, f.second);
    put(out, third, f.third)
}

// A record and its text, where there is room for both. The room is a difference, so that no place and no length is too large.
pub fn put_whole(out: &mut [u8], at: usize, object: u64, f: Fields, text: &[u8]) -> usize
    requires { (f.kind < 32) × (size f ≤ 16) }
    ensures { PutWhole out.old out.new at (start object f (10 + size f + length text.now) ++ text.now) result }
{
    let total = fixed(f) + text.len();
    if out.len() < at || out.len() - at < total {
        return 0;
    }
    let behind = put_start(out, at, object, f, total);
    put_text(out, behind, text);
    total
}

// Writes an event's record at a place of the buffer, whole or, where it does not fit, not at all, and answers how many bytes.
// The text is a name's or an explanation's; other events, and no explanation, leave it aside.
pub fn put_record(out: &mut [u8], at: usize, object: u64, e: Event, text: &[u8]) -> usize
    ensures { PutWhole out.old out.new at (event_record object e text.now) result }
{
    let f = fields_of(e);
    let sent = if f.text { text } else { b"" };
    put_whole(out, at, object, f, sent)
}
