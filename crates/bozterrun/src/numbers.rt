// The lengths of the slices, and the numbers that the header has names for.
ghost use Rattle.std.specs.Prelude.{◌≡◌, get_or};
ghost use Rattle.control.specs.Control.{control_length};
ghost use Rattle.session.specs.View.{words_length, reals_length, texts_length};
ghost use Rattle.lent_handshake.specs.Lent.{handshake_length, name_length};
ghost use Rattle.bozterrun.specs.Numbers.{numbers};

use crate::message::ParseErrorCase;
use answer_numbers::{BAD_ARGUMENT, INVALID_ID, MALFORMED, NO_OBJECT, NONE, UNSENDABLE, WAIT};
use answers::NAME_LENGTH_LIMIT;
use control::CONTROL_LENGTH;
use eiproto::event::DeviceCapability;
use event_messages::{EVENT_MESSAGE_LENGTH, EVENT_RECORD_LENGTH};
use lent_handshake::HANDSHAKE_LENGTH;
use lent_read::numbers as read;
use lent_read::record::{RECORD_REALS, RECORD_WORDS};
use parse::{HEADER_LENGTH, MESSAGE_LENGTH_LIMIT};
use requests::kinds;
use session::{REALS_LENGTH, TEXTS_LENGTH, WORDS_LENGTH};

#[unsafe(no_mangle)]
pub extern "C" fn bozterrun_handshake_length() -> usize
    ensures { result ≡ handshake_length }
{
    HANDSHAKE_LENGTH
}

// Of the slice for the client's name; also the most bytes that a name, an explanation or a text has.
#[unsafe(no_mangle)]
pub extern "C" fn bozterrun_name_length() -> usize
    ensures { result ≡ name_length }
{
    NAME_LENGTH_LIMIT
}

#[unsafe(no_mangle)]
pub extern "C" fn bozterrun_control_length() -> usize
    ensures { result ≡ control_length }
{
    CONTROL_LENGTH
}

#[unsafe(no_mangle)]
pub extern "C" fn bozterrun_words_length() -> usize
    ensures { result ≡ words_length }
{
    WORDS_LENGTH
}

#[unsafe(no_mangle)]
pub extern "C" fn bozterrun_reals_length() -> usize
    ensures { result ≡ reals_length }
{
    REALS_LENGTH
}

#[unsafe(no_mangle)]
pub extern "C" fn bozterrun_texts_length() -> usize
    ensures { result ≡ texts_length }
{
    TEXTS_LENGTH
}

// The numbers that include/bozterrun.h has names for, in its order: refusals, what is no refusal, kinds of requests, interfaces, capabilities,
// context types, device types, reasons, requests of a read, the words and the reals of its records, the cases of a malformed message, the bytes of
// a message's header and the most of a message, the most of an event's message and of its record. specs/Numbers says what each is the number of.
const NUMBERS: usize = 129;

// The number at a place of that table, 0 past its end: a program tests by it that its header is the library's.
#[unsafe(no_mangle)]
pub extern "C" fn bozterrun_number(place: usize) -> u64
    ensures { result ≡ get_or numbers place 0 }
{
    let table: [u64; NUMBERS] = [
        1,
        2,
        3,
        4,
        5,
        6,
        7,
        8,
        9,
        10,
        11,
        12,
        13,
        14,
        15,
        16,
        17,
        18,
        19,
        20,
        21,
        22,
        MALFORMED as u64,
        NO_OBJECT as u64,
        INVALID_ID as u64,
        UNSENDABLE as u64,
        NONE as u64,
        BAD_ARGUMENT as u64,
        WAIT as u64,
        kinds::DISCONNECT,
        kinds::BIND,
        kinds::DEVICE_CLOSED,
        kinds::REQUEST_DEVICE,
        kinds::FRAME,
        kinds::READY,
        kinds::DEVICE_START_EMULATING,
        kinds::DEVICE_STOP_EMULATING,
        kinds::POINTER_MOTION,
        kinds::POINTER_MOTION_ABSOLUTE,
        kinds::BUTTON,
        kinds::SCROLL_DELTA,
        kinds::SCROLL_STOP,
        kinds::SCROLL_CANCEL,
        kinds::SCROLL_DISCRETE,
        kinds::KEYBOARD_KEY,
        kinds::TOUCH_DOWN,
        kinds::TOUCH_UP,
        kinds::TOUCH_MOTION,
        kinds::TOUCH_CANCEL,
        kinds::TEXT_KEYSYM,
        kinds::TEXT_UTF8,
        1,
        2,
        3,
        4,
        5,
        6,
        7,
        8,
        9,
        10,
        11,
        12,
        DeviceCapability::POINTER,
        DeviceCapability::POINTER_ABSOLUTE,
        DeviceCapability::KEYBOARD,
        DeviceCapability::TOUCH,
        DeviceCapability::SCROLL,
        DeviceCapability::BUTTON,
        DeviceCapability::TEXT,
        1,
        2,
        1,
        2,
        0,
        1,
        2,
        3,
        4,
        5,
        read::HANDSHAKE_VERSION,
        read::HANDSHAKE_FINISH,
        read::HANDSHAKE_CONTEXT_TYPE,
        read::HANDSHAKE_NAME,
        read::HANDSHAKE_INTERFACE_VERSION,
        read::CONNECTION_SYNC,
        read::CONNECTION_DISCONNECT,
        read::PINGPONG_DONE,
        read::SEAT_RELEASE,
        read::SEAT_BIND,
        read::SEAT_REQUEST_DEVICE,
        read::DEVICE_RELEASE,
        read::DEVICE_START_EMULATING,
        read::DEVICE_STOP_EMULATING,
        read::DEVICE_FRAME,
        read::DEVICE_READY,
        read::POINTER_RELEASE,
        read::POINTER_MOTION_RELATIVE,
        read::POINTER_ABSOLUTE_RELEASE,
        read::POINTER_ABSOLUTE_MOTION_ABSOLUTE,
        read::SCROLL_RELEASE,
        read::SCROLL_SCROLL,
        read::SCROLL_SCROLL_DISCRETE,
        read::SCROLL_SCROLL_STOP,
        read::BUTTON_RELEASE,
        read::BUTTON_BUTTON,
        read::KEYBOARD_RELEASE,
        read::KEYBOARD_KEY,
        read::TOUCHSCREEN_RELEASE,
        read::TOUCHSCREEN_DOWN,
        read::TOUCHSCREEN_MOTION,
        read::TOUCHSCREEN_UP,
        read::TOUCHSCREEN_CANCEL,
        read::TEXT_RELEASE,
        read::TEXT_KEYSYM,
        read::TEXT_UTF8,
        RECORD_WORDS as u64,
        RECORD_REALS as u64,
        ParseErrorCase::EndOfMessage as u64,
        ParseErrorCase::Utf8 as u64,
        ParseErrorCase::InvalidOpcode as u64,
        ParseErrorCase::InvalidVariant as u64,
        ParseErrorCase::HeaderLength as u64,
        ParseErrorCase::MessageLength as u64,
        ParseErrorCase::InvalidNull as u64,
        HEADER_LENGTH as u64,
        MESSAGE_LENGTH_LIMIT as u64,
        EVENT_MESSAGE_LENGTH as u64,
        EVENT_RECORD_LENGTH as u64,
    ];
    if place < NUMBERS { table[place] } else { 0 }
}
