// The cells of a client's timed requests, as they wait for their frame: device and time come with it.
ghost use Rattle.std.specs.Prelude.{◌≡◌};
ghost use Rattle.requests.specs.Row.{key_state, button_state};
ghost use Rattle.model.specs.Call.{Input};
ghost use Rattle.client_requests.specs.Decision.{Waits};

use eiproto::eiproto_enum::{ButtonState, KeyState};
use requests::cell;
use requests::cell::Cell;

// A state is made of its number by a select and not by a branch: a press takes as many instructions as a release. Those of `requests::row` are of a
// word of a row; over them these two would be a line each, no plainer.
fn key_state(n: u32) -> KeyState
    ensures { result ≡ key_state n }
{
    if n == 1 {
        KeyState::Press
    } else {
        KeyState::Released
    }
}

fn button_state(n: u32) -> ButtonState
    ensures { result ≡ button_state n }
{
    if n == 1 {
        ButtonState::Press
    } else {
        ButtonState::Released
    }
}

pub fn pointer_motion(x: f32, y: f32) -> Cell
    ensures { Waits (Input.MotionRelative x y) result }
{
    cell::pointer_motion(0, 0, x, y)
}

pub fn pointer_motion_absolute(x: f32, y: f32) -> Cell
    ensures { Waits (Input.MotionAbsolute x y) result }
{
    cell::pointer_motion_absolute(0, 0, x, y)
}

pub fn scroll_delta(x: f32, y: f32) -> Cell
    ensures { Waits (Input.Scroll x y) result }
{
    cell::scroll_delta(0, 0, x, y)
}

pub fn scroll_discrete(x: i32, y: i32) -> Cell
    ensures { Waits (Input.ScrollDiscrete x y) result }
{
    cell::scroll_discrete(0, 0, x, y)
}

pub fn button(button: u32, state: u32) -> Cell
    ensures { Waits (Input.Button button (button_state state)) result }
{
    cell::button(0, 0, button, button_state(state))
}

pub fn keyboard_key(key: u32, state: u32) -> Cell
    ensures { Waits (Input.Key key (key_state state)) result }
{
    cell::keyboard_key(0, 0, key, key_state(state))
}

pub fn text_keysym(keysym: u32, state: u32) -> Cell
    ensures { Waits (Input.Keysym keysym (key_state state)) result }
{
    cell::text_keysym(0, 0, keysym, key_state(state))
}
