// The protocol's messages of events (src/eiproto_eis.rs): which kinds an interface has, by opcode, and what a kind's values are. Writer and reader go by it.
#![tactic(auto)]

ghost use Rattle.std.specs.Prelude.{◌+◌, ◌≤◌, ◌<◌, ◌≡◌};
ghost use Rattle.event_messages.specs.Opcode.{HasOpcode};
ghost use Rattle.event_messages.specs.Shape.{shape_of, width, has_text, textual, fixed_size, allowed, allowed_all};
ghost use Rattle.event_messages.specs.Stands.{sendable_text};
ghost use Rattle.event_messages.specs.Table.{kind_of};

// The most bytes that an event's message has, and that its record has.
pub const EVENT_MESSAGE_LENGTH: usize = 284;

pub const EVENT_RECORD_LENGTH: usize = 273;

// Why a record is not written as a message, or a message not read as a record.
#[derive(Clone, Copy, Debug, PartialEq, Eq)]
pub enum MessageError {
    Unsendable,
    Malformed,
    ShortOut,
}

// The interfaces that the table has, the handshake's before them, and the most opcodes of one.
const INTERFACES: usize = 13;

const OPCODES: usize = 12;

// The kind of the record that stands for the event of an opcode, 0 for none: a line for each interface.
// Numbers by place, as in the definition `table`: rows with names would have to be searched.
const KINDS: [[u8; OPCODES]; INTERFACES] = [
    [16, 17, 18, 0, 0, 0, 0, 0, 0, 0, 0, 0],
    [14, 1, 0, 0, 0, 0, 0, 0, 0, 0, 0, 0],
    [15, 0, 0, 0, 0, 0, 0, 0, 0, 0, 0, 0],
    [0, 0, 0, 0, 0, 0, 0, 0, 0, 0, 0, 0],
    [5, 2, 3, 4, 6, 0, 0, 0, 0, 0, 0, 0],
    [5, 2, 7, 0, 0, 8, 4, 9, 10, 11, 12, 13],
    [5, 0, 0, 0, 0, 0, 0, 0, 0, 0, 0, 0],
    [5, 0, 0, 0, 0, 0, 0, 0, 0, 0, 0, 0],
    [5, 0, 0, 0, 0, 0, 0, 0, 0, 0, 0, 0],
    [5, 0, 0, 0, 0, 0, 0, 0, 0, 0, 0, 0],
    [5, 0, 0, 0, 0, 0, 0, 0, 0, 0, 0, 0],
    [5, 0, 0, 0, 0, 0, 0, 0, 0, 0, 0, 0],
    [5, 0, 0, 0, 0, 0, 0, 0, 0, 0, 0, 0],
];

pub fn kind_at(interface: u32, opcode: u32) -> u8
    ensures { result ≡ kind_of interface opcode }
{
    let interface = interface as usize;
    let opcode = opcode as usize;
    if INTERFACES <= interface || OPCODES <= opcode {
        return 0;
    }
    KINDS[interface][opcode]
}

// The opcode of the event that a kind of record stands for, where the interface has it.
pub fn opcode_of(interface: u32, kind: u8) -> Option<u32>
    ensures { HasOpcode interface kind result }
{
    if kind == 0 {
        return None;
    }
    (0..OPCODES as u32).find(|opcode| kind_at(interface, *opcode) == kind)
}

// What a value is. In a record an interface is a number of one byte, in a message a name; a text is the rest of a record, behind a byte for
// whether there is one where it is an explanation, and in a message a string or none.
#[derive(Clone, Copy, Debug, PartialEq, Eq)]
pub enum EventArgument {
    None,
    Uint32,
    Uint64,
    Interface,
    Reason,
    DeviceType,
    Text,
    Explanation,
}

// A kind's values in the record's order. Where they are swapped, the second comes first in a message.
#[derive(Clone, Copy, Debug, PartialEq, Eq)]
pub struct Shape {
    pub first: EventArgument,
    pub second: EventArgument,
    pub third: EventArgument,
    pub swapped: bool,
}

#[derive(Clone, Copy, Debug, PartialEq, Eq)]
pub struct Values {
    pub first: u64,
    pub second: u64,
    pub third: u64,
}

const NOTHING: Shape = Shape {
    first: EventArgument::None,
    second: EventArgument::None,
    third: EventArgument::None,
    swapped: false,
};

const ID_VERSION: Shape = Shape {
    first: EventArgument::Uint64,
    second: EventArgument::Uint32,
    ..NOTHING
};

const NAME: Shape = Shape {
    first: EventArgument::Text,
    ..NOTHING
};

const CAPABILITY: Shape = Shape {
    first: EventArgument::Uint64,
    second: EventArgument::Interface,
    ..NOTHING
};

const UINT32: Shape = Shape {
    first: EventArgument::Uint32,
    ..NOTHING
};

const DEVICE_TYPE: Shape = Shape {
    first: EventArgument::DeviceType,
    ..NOTHING
};

const INTERFACE: Shape = Shape {
    first: EventArgument::Uint64,
    second: EventArgument::Interface,
    third: EventArgument::Uint32,
    ..NOTHING
};

const START_EMULATING: Shape = Shape {
    first: EventArgument::Uint32,
    second: EventArgument::Uint32,
    ..NOTHING
};

const FRAME: Shape = Shape {
    first: EventArgument::Uint32,
    second: EventArgument::Uint64,
    ..NOTHING
};

const DISCONNECTED: Shape = Shape {
    first: EventArgument::Uint32,
    second: EventArgument::Reason,
    third: EventArgument::Explanation,
    ..NOTHING
};

const UINT64: Shape = Shape {
    first: EventArgument::Uint64,
    ..NOTHING
};

const INTERFACE_VERSION: Shape = Shape {
    first: EventArgument::Interface,
    second: EventArgument::Uint32,
    ..NOTHING
};

const CONNECTION: Shape = Shape {
    first: EventArgument::Uint64,
    second: EventArgument::Uint32,
    third: EventArgument::Uint32,
    swapped: true,
};

// The shapes by kind; 0 is no kind's.
const SHAPES: [Shape; 19] = [
    NOTHING,
    ID_VERSION,
    NAME,
    CAPABILITY,
    NOTHING,
    UINT32,
    ID_VERSION,
    DEVICE_TYPE,
    INTERFACE,
    UINT32,
    UINT32,
    START_EMULATING,
    UINT32,
    FRAME,
    DISCONNECTED,
    UINT64,
    UINT32,
    INTERFACE_VERSION,
    CONNECTION,
];

// The values of a kind; none for a number that is no kind's.
pub fn shape_of(kind: u8) -> Shape
    ensures { result ≡ shape_of kind }
{
    if 18 < kind {
        return NOTHING;
    }
    SHAPES[kind as usize]
}

// How many bytes a value has in a record.
pub fn width(argument: EventArgument) -> usize
    ensures { (result ≡ width argument) × (result ≤ 8) }
{
    match argument {
        EventArgument::None | EventArgument::Text => 0,
        EventArgument::Interface | EventArgument::Explanation => 1,
        EventArgument::Uint32 | EventArgument::Reason | EventArgument::DeviceType => 4,
        EventArgument::Uint64 => 8,
    }
}

// How many bytes a record of the shape has, its text aside.
pub fn fixed_size(s: Shape) -> usize
    ensures { result ≡ fixed_size s }
{
    10 + (width(s.first) + (width(s.second) + width(s.third)))
}

fn has_text(argument: EventArgument) -> bool
    ensures { result ≡ has_text argument }
{
    matches!(argument, EventArgument::Text | EventArgument::Explanation)
}

// Whether records of the shape have a text.
fn textual(s: Shape) -> bool
    ensures { result ≡ textual s }
{
    has_text(s.first) || has_text(s.third)
}

// Whether the value can be sent, beside a text of so many bytes. An explanation's byte has its bit set, or it is zero and there is no text.
fn allowed(argument: EventArgument, x: u64, size: usize) -> bool
    ensures { result ≡ allowed argument x size }
{
    match argument {
        EventArgument::None | EventArgument::Uint32 | EventArgument::Uint64 | EventArgument::Text =>
            true,
        EventArgument::Interface => 1 <= x && x <= 12,
        EventArgument::Reason => x <= 5,
        EventArgument::DeviceType => 1 <= x && x <= 2,
        EventArgument::Explanation => x == 128 || x == 0 && size == 0,
    }
}

fn sendable_text(text: &[u8]) -> bool
    ensures { result ≡ sendable_text text.now }
{
    text.len() <= 254 && utf8::valid(text) && !text.contains(&0)
}

// Whether the values and the text of a record can be sent; a record without a text may have one of no byte.
pub fn sendable(s: Shape, v: Values, text: &[u8]) -> bool
    ensures { result ≡ allowed_all s v text.now }
{
    let size = text.len();
    allowed(s.first, v.first, size)
        && allowed(s.second, v.second, size)
        && allowed(s.third, v.third, size)
        && (textual(s) || size == 0)
        && sendable_text(text)
}
