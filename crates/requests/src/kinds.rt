// The kinds of requests in a cell: their places in the enum.
// Numbers and no enum, since any number means some request (`request_of` of specs/Row, `kind_past`) and C is handed them.
ghost use Rattle.std.specs.Prelude.{◌≡◌};
ghost use Rattle.requests.specs.Row.{timed_kind};

pub const DISCONNECT: u64 = 0;

pub const BIND: u64 = 1;

pub const DEVICE_CLOSED: u64 = 2;

pub const REQUEST_DEVICE: u64 = 3;

pub const FRAME: u64 = 4;

pub const READY: u64 = 5;

pub const DEVICE_START_EMULATING: u64 = 6;

pub const DEVICE_STOP_EMULATING: u64 = 7;

pub const POINTER_MOTION: u64 = 8;

pub const POINTER_MOTION_ABSOLUTE: u64 = 9;

pub const BUTTON: u64 = 10;

pub const SCROLL_DELTA: u64 = 11;

pub const SCROLL_STOP: u64 = 12;

pub const SCROLL_CANCEL: u64 = 13;

pub const SCROLL_DISCRETE: u64 = 14;

pub const KEYBOARD_KEY: u64 = 15;

pub const TOUCH_DOWN: u64 = 16;

pub const TOUCH_UP: u64 = 17;

pub const TOUCH_MOTION: u64 = 18;

pub const TOUCH_CANCEL: u64 = 19;

pub const TEXT_KEYSYM: u64 = 20;

pub const TEXT_UTF8: u64 = 21;

// "Fourteen kinds are timed": they come last.
pub fn is_timed(kind: u64) -> bool
    ensures { result ≡ timed_kind kind }
{
    matches!(kind, POINTER_MOTION..=TEXT_UTF8)
}
