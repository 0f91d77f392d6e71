// The first words of the lines of a call script, and what stands behind each: the table of the format's page.
ghost use Rattle.std.specs.Prelude.{◌<◌, ◌≡◌, map, IfSome};
ghost use Rattle.eiproto.specs.Told.{told};
ghost use Rattle.script.specs.Verbs.{table, entry_of, row_at, kind_in, kinds_of, kind_at, lookup};

use Kind::{
    Capability, Count, F32, I32, Interface, OptionalText, Part, Reason, State, Text, TypeNumber,
    U32, U64,
};

// The first word of a line, without its dots and underscores.
#[derive(Clone, Copy, Debug, PartialEq, Eq)]
pub enum Verb {
    Now,
    Out,
    Buffer,
    Start,
    HandshakeHandshakeVersion,
    HandshakeName,
    HandshakeContextType,
    HandshakeInterfaceVersion,
    HandshakeFinish,
    ConnectionSync,
    ConnectionDisconnect,
    PingpongDone,
    SeatRelease,
    SeatBind,
    SeatRequestDevice,
    DeviceRelease,
    DeviceStartEmulating,
    DeviceStopEmulating,
    DeviceFrame,
    DeviceReady,
    PointerRelease,
    PointerMotionRelative,
    PointerAbsoluteRelease,
    PointerAbsoluteMotionAbsolute,
    ScrollRelease,
    ScrollScroll,
    ScrollScrollDiscrete,
    ScrollScrollStop,
    ButtonRelease,
    ButtonButton,
    KeyboardRelease,
    KeyboardKey,
    TouchscreenRelease,
    TouchscreenDown,
    TouchscreenMotion,
    TouchscreenUp,
    TouchscreenCancel,
    TextRelease,
    TextKeysym,
    TextUtf8,
    NextRequest,
    AddSeat,
    AddDevice,
    RemoveSeat,
    RemoveDevice,
    Resumed,
    Paused,
    StartEmulating,
    StopEmulating,
    Frame,
    Disconnected,
    LastSerial,
    HasInterface,
    InterfaceVersion,
    HasCapability,
    Read,
    Message,
    WriteMessage,
    ReadMessage,
}

// What a word is read as.
#[derive(Clone, Copy, Debug, PartialEq, Eq)]
pub enum Kind {
    U64,
    U32,
    I32,
    F32,
    Text,
    // `none`, or a text.
    OptionalText,
    // A press state.
    State,
    // A context type or a device type.
    TypeNumber,
    // Why a client is disconnected.
    Reason,
    // A mask of one bit.
    Capability,
    // How many records a read has.
    Count,
    // A part of a read's texts.
    Part,
    // The number of an interface.
    Interface,
}

// A first word, its verb, and what each word behind it is read as.
type Row = (&'static [u8], Verb, &'static [Kind]);

// A row for each first word, the settings first.
static ROWS: [Row; 59] = [
    (b"now", Verb::Now, &[U64]),
    (b"out", Verb::Out, &[U64]),
    (b"buffer", Verb::Buffer, &[U64]),
    (b"start", Verb::Start, &[U32]),
    (
        b"handshake.handshake_version",
        Verb::HandshakeHandshakeVersion,
        &[U32],
    ),
    (b"handshake.name", Verb::HandshakeName, &[Text]),
    (
        b"handshake.context_type",
        Verb::HandshakeContextType,
        &[TypeNumber],
    ),
    (
        b"handshake.interface_version",
        Verb::HandshakeInterfaceVersion,
        &[Text, U32],
    ),
    (b"handshake.finish", Verb::HandshakeFinish, &[]),
    (b"connection.sync", Verb::ConnectionSync, &[U64, U32]),
    (b"connection.disconnect", Verb::ConnectionDisconnect, &[]),
    (b"pingpong.done", Verb::PingpongDone, &[]),
    (b"seat.release", Verb::SeatRelease, &[U64]),
    (b"seat.bind", Verb::SeatBind, &[U64, U64]),
    (b"seat.request_device", Verb::SeatRequestDevice, &[U64, U64]),
    (b"device.release", Verb::DeviceRelease, &[U64]),
    (
        b"device.start_emulating",
        Verb::DeviceStartEmulating,
        &[U64, U32, U32],
    ),
    (
        b"device.stop_emulating",
        Verb::DeviceStopEmulating,
        &[U64, U32],
    ),
    (b"device.frame", Verb::DeviceFrame, &[U64, U32, U64]),
    (b"device.ready", Verb::DeviceReady, &[U64]),
    (b"pointer.release", Verb::PointerRelease, &[U64]),
    (
        b"pointer.motion_relative",
        Verb::PointerMotionRelative,
        &[U64, F32, F32],
    ),
    (
        b"pointer_absolute.release",
        Verb::PointerAbsoluteRelease,
        &[U64],
    ),
    (
        b"pointer_absolute.motion_absolute",
        Verb::PointerAbsoluteMotionAbsolute,
        &[U64, F32, F32],
    ),
    (b"scroll.release", Verb::ScrollRelease, &[U64]),
    (b"scroll.scroll", Verb::ScrollScroll, &[U64, F32, F32]),
    (
        b"scroll.scroll_discrete",
        Verb::ScrollScrollDiscrete,
        &[U64, I32, I32],
    ),
    (
        b"scroll.scroll_stop",
        Verb::ScrollScrollStop,
        &[U64, U32, U32, U32],
    ),
    (b"button.release", Verb::ButtonRelease, &[U64]),
    (b"button.button", Verb::ButtonButton, &[U64, U32, State]),
    (b"keyboard.release", Verb::KeyboardRelease, &[U64]),
    (b"keyboard.key", Verb::KeyboardKey, &[U64, U32, State]),
    (b"touchscreen.release", Verb::TouchscreenRelease, &[U64]),
    (
        b"touchscreen.down",
        Verb::TouchscreenDown,
        &[U64, U32, F32, F32],
    ),
    (
        b"touchscreen.motion",
        Verb::TouchscreenMotion,
        &[U64, U32, F32, F32],
    ),
    (b"touchscreen.up", Verb::TouchscreenUp, &[U64, U32]),
    (
        b"touchscreen.cancel",
        Verb::TouchscreenCancel,
        &[U64, U32, U32],
    ),
    (b"text.release", Verb::TextRelease, &[U64]),
    (b"text.keysym", Verb::TextKeysym, &[U64, U32, State]),
    (b"text.utf8", Verb::TextUtf8, &[U64, Text]),
    (b"next_request", Verb::NextRequest, &[]),
    (b"add_seat", Verb::AddSeat, &[OptionalText, U64]),
    (
        b"add_device",
        Verb::AddDevice,
        &[U64, OptionalText, TypeNumber, U64],
    ),
    (b"remove_seat", Verb::RemoveSeat, &[U64]),
    (b"remove_device", Verb::RemoveDevice, &[U64]),
    (b"resumed", Verb::Resumed, &[U64]),
    (b"paused", Verb::Paused, &[U64]),
    (b"start_emulating", Verb::StartEmulating, &[U64, U32]),
    (b"stop_emulating", Verb::StopEmulating, &[U64]),
    (b"frame", Verb::Frame, &[U64, U64]),
    (b"disconnected", Verb::Disconnected, &[Reason, OptionalText]),
    (b"last_serial", Verb::LastSerial, &[]),
    (b"has_interface", Verb::HasInterface, &[Text]),
    (b"interface_version", Verb::InterfaceVersion, &[Text]),
    (b"has_capability", Verb::HasCapability, &[U64, Capability]),
    (b"read", Verb::Read, &[Count, Text]),
    (b"message", Verb::Message, &[Text]),
    (b"write_message", Verb::WriteMessage, &[Interface, Text]),
    (b"read_message", Verb::ReadMessage, &[Interface, Text]),
];

// How many rows are settings; behind them stand the calls.
pub const SETTINGS: usize = 3;

// The first and the last row of a client's requests.
pub const FIRST_REQUEST: usize = 4;

pub const LAST_REQUEST: usize = 39;

// The row of a first word, whatever its length, counted from 0.
pub fn find(word: &[u8]) -> Option<usize>
    ensures row { told result ≡ lookup word.now }
    ensures within { IfSome result (λ i. i < 59) }
{
    ROWS.iter().position(|row| row.0 == word)
}

// The row of a number.
fn row(rows: &'static [Row], i: usize) -> &'static Row
    requires { (map entry_of rows.now ≡ table) × (i < 59) }
    ensures { entry_of result.now ≡ row_at i }
{
    &rows[i]
}

pub fn verb_at(i: usize) -> Verb
    requires { i < 59 }
    ensures { result ≡ (row_at i).verb }
{
    row(&ROWS, i).1
}

// In a read a part stands for a text.
fn kind_in(kind: Kind, within: bool) -> Kind
    ensures { result ≡ kind_in within kind }
{
    match kind {
        Text if within => Part,
        _ => kind,
    }
}

// What the word at a place behind the first is read as, in a read or outside of one; none where no word stands there.
pub fn kind_at(i: usize, place: usize, within: bool) -> Option<Kind>
    requires { i < 59 }
    ensures { result ≡ kind_at place (kinds_of within (row_at i)) }
{
    let kinds = row(&ROWS, i).2;
    if kinds.len() <= place {
        return None;
    }
    Some(kind_in(kinds[place], within))
}
