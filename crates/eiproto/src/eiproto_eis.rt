// The interfaces that a server offers: their names and versions (the NAME and VERSION of each in the source).
// Interfaces are numbered from 1 on; 0 is the number of none.
ghost use Rattle.std.specs.Prelude.{◌≡◌, length, get_or};
ghost use Rattle.eiproto.specs.Interface.{interface_name, server_version, lookup};
ghost use Rattle.eiproto.specs.Told.{told};

// The interfaces' numbers: numbers and no enum, since rows, C and `find` have any number (docs/DECISIONS.md, Forms by place).
pub const CONNECTION: u8 = 1;

pub const CALLBACK: u8 = 2;

pub const PINGPONG: u8 = 3;

pub const SEAT: u8 = 4;

pub const DEVICE: u8 = 5;

pub const POINTER: u8 = 6;

pub const POINTER_ABSOLUTE: u8 = 7;

pub const SCROLL: u8 = 8;

pub const BUTTON: u8 = 9;

pub const KEYBOARD: u8 = 10;

pub const TOUCHSCREEN: u8 = 11;

pub const TEXT: u8 = 12;

#[derive(Clone, Copy, Debug, PartialEq, Eq)]
struct Interface {
    name: &'static [u8],
    version: u32,
}

// A row for each number: the name and the version. Row 0 is no interface's.
const INTERFACES: [Interface; 13] = [
    Interface {
        name: b"",
        version: 0,
    },
    Interface {
        name: b"ei_connection",
        version: 1,
    },
    Interface {
        name: b"ei_callback",
        version: 1,
    },
    Interface {
        name: b"ei_pingpong",
        version: 1,
    },
    Interface {
        name: b"ei_seat",
        version: 2,
    },
    Interface {
        name: b"ei_device",
        version: 3,
    },
    Interface {
        name: b"ei_pointer",
        version: 1,
    },
    Interface {
        name: b"ei_pointer_absolute",
        version: 1,
    },
    Interface {
        name: b"ei_scroll",
        version: 1,
    },
    Interface {
        name: b"ei_button",
        version: 1,
    },
    Interface {
        name: b"ei_keyboard",
        version: 1,
    },
    Interface {
        name: b"ei_touchscreen",
        version: 2,
    },
    Interface {
        name: b"ei_text",
        version: 1,
    },
];

// The table's row of a number, and row 0 for a number past the table.
fn row(number: u8) -> Interface
    ensures name { result.name.now ≡ interface_name number }
    ensures version { result.version ≡ server_version number }
{
    if 12 < number {
        return INTERFACES[0];
    }
    INTERFACES[usize::from(number)]
}

// The version that the server offers; 0 for a number that is no interface's.
pub fn version(number: u8) -> u32
    ensures { result ≡ server_version number }
{
    row(number).version
}

// The name; no bytes for a number that is no interface's.
pub fn name(number: u8) -> &'static [u8]
    ensures { result.now ≡ interface_name number }
{
    row(number).name
}

// How many bytes the name has; 0 for a number that is no interface's.
pub fn name_len(number: u8) -> usize
    ensures { result ≡ length (interface_name number) }
{
    name(number).len()
}

// The byte at a place of the name; 0 past its end.
pub fn name_byte(number: u8, place: usize) -> u8
    ensures { result ≡ get_or (interface_name number) place 0 }
{
    name(number).get(place).copied().unwrap_or(0)
}

// The interface of a name, whatever its length.
pub fn find(name: &[u8]) -> Option<u8>
    ensures { told result ≡ lookup name.now }
{
    (1..13).find(|number| self::name(*number) == name)
}
