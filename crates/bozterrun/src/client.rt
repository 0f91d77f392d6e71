// A client's requests.
ghost use Rattle.std.specs.Prelude.{ℕ, ◌≤◌, ◌<◌, ◌≡◌};
ghost use Rattle.eiproto.specs.declared.event.DeviceCapability.{DeviceCapability};
ghost use Rattle.requests.specs.Row.{key_state, button_state};
ghost use Rattle.model.specs.Call.{Input, Plain, Call};
ghost use Rattle.answers.specs.Answer.{count_of};
ghost use Rattle.answers.specs.Promise.{Promise, PromiseUnchanged, PromiseRows, Reply};
ghost use Rattle.client_requests.specs.Decision.{OnlyQueued, Waits};
ghost use Rattle.handlers.specs.Call.{handshake_call, seat_call, device_call, touchscreen_call};
ghost use Rattle.client_calls.specs.Request.{AsksControl, AsksRows, AsksRowsAt, AsksAll};
ghost use Rattle.bozterrun.specs.Reply.{Replies, Told, ToldTimed, Sent, Detailed, Pressed, Kept, KeptRows};
ghost use Rattle.answer_numbers.specs.Numbers.{bad_argument};
ghost use Rattle.bozterrun.specs.Numbers.{handshake_request, IsCapability, NoCapability};

use crate::told;
use answer_numbers::BAD_ARGUMENT;
use client_calls::cells;
use eiproto::event::DeviceCapability;
use requests::cell::Cell;
use requests::eis::{DeviceRequest, HandshakeRequest, SeatRequest, TouchscreenRequest};

// A timed request of which nothing is asked but a known interface.
fn queue(
    control: &mut [u64],
    words: &mut [u64],
    reals: &mut [f32],
    capability: DeviceCapability,
    interface: u64,
    request: Cell,
) -> u32
    ensures { (i : Input) → OnlyQueued capability i → Waits i request → ToldTimed control words reals interface i result }
{
    let answer = client_calls::queue_for_interface(
        control, words, reals, capability, interface, request,
    );
    answer_numbers::status(answer)
}

#[unsafe(no_mangle)]
pub extern "C" fn bozterrun_pointer_motion_relative(
    control: &mut [u64],
    words: &mut [u64],
    reals: &mut [f32],
    pointer: u64,
    x: f32,
    y: f32,
) -> u32
    ensures { ToldTimed control words reals pointer (Input.MotionRelative x y) result }
{
    let request = cells::pointer_motion(x, y);
    queue(
        control,
        words,
        reals,
        DeviceCapability::Pointer,
        pointer,
        request,
    )
}

#[unsafe(no_mangle)]
pub extern "C" fn bozterrun_pointer_absolute_motion_absolute(
    control: &mut [u64],
    words: &mut [u64],
    reals: &mut [f32],
    interface: u64,
    x: f32,
    y: f32,
) -> u32
    ensures { ToldTimed control words reals interface (Input.MotionAbsolute x y) result }
{
    let request = cells::pointer_motion_absolute(x, y);
    queue(
        control,
        words,
        reals,
        DeviceCapability::PointerAbsolute,
        interface,
        request,
    )
}

#[unsafe(no_mangle)]
pub extern "C" fn bozterrun_scroll_scroll(
    control: &mut [u64],
    words: &mut [u64],
    reals: &mut [f32],
    scroll: u64,
    x: f32,
    y: f32,
) -> u32
    ensures { ToldTimed control words reals scroll (Input.Scroll x y) result }
{
    let request = cells::scroll_delta(x, y);
    queue(
        control,
        words,
        reals,
        DeviceCapability::Scroll,
        scroll,
        request,
    )
}

#[unsafe(no_mangle)]
pub extern "C" fn bozterrun_scroll_scroll_discrete(
    control: &mut [u64],
    words: &mut [u64],
    reals: &mut [f32],
    scroll: u64,
    x: i32,
    y: i32,
) -> u32
    ensures { ToldTimed control words reals scroll (Input.ScrollDiscrete x y) result }
{
    let request = cells::scroll_discrete(x, y);
    queue(
        control,
        words,
        reals,
        DeviceCapability::Scroll,
        scroll,
        request,
    )
}

#[unsafe(no_mangle)]
pub extern "C" fn bozterrun_scroll_scroll_stop(
    control: &mut [u64],
    words: &mut [u64],
    reals: &mut [f32],
    scroll: u64,
    x: u32,
    y: u32,
    cancel: u32,
) -> u32
    ensures { ToldTimed control words reals scroll (Input.ScrollStop x y cancel) result }
{
    let request = handlers::scroll_stop(x, y, cancel);
    queue(
        control,
        words,
        reals,
        DeviceCapability::Scroll,
        scroll,
        request,
    )
}

#[unsafe(no_mangle)]
pub extern "C" fn bozterrun_button_button(
    control: &mut [u64],
    words: &mut [u64],
    reals: &mut [f32],
    interface: u64,
    button: u32,
    state: u32,
) -> u32
    ensures { Pressed state result (KeptRows control words reals) (ToldTimed control words reals interface (Input.Button button (button_state state)) result) }
{
    if 1 < state {
        return BAD_ARGUMENT;
    }
    let request = cells::button(button, state);
    queue(
        control,
        words,
        reals,
        DeviceCapability::Button,
        interface,
        request,
    )
}

#[unsafe(no_mangle)]
pub extern "C" fn bozterrun_keyboard_key(
    control: &mut [u64],
    words: &mut [u64],
    reals: &mut [f32],
    keyboard: u64,
    key: u32,
    state: u32,
) -> u32
    ensures { Pressed state result (KeptRows control words reals) (ToldTimed control words reals keyboard (Input.Key key (key_state state)) result) }
{
    if 1 < state {
        return BAD_ARGUMENT;
    }
    let request = cells::keyboard_key(key, state);
    queue(
        control,
        words,
        reals,
        DeviceCapability::Keyboard,
        keyboard,
        request,
    )
}

#[unsafe(no_mangle)]
pub extern "C" fn bozterrun_text_keysym(
    control: &mut [u64],
    words: &mut [u64],
    reals: &mut [f32],
    interface: u64,
    keysym: u32,
    state: u32,
) -> u32
    ensures { Pressed state result (KeptRows control words reals) (ToldTimed control words reals interface (Input.Keysym keysym (key_state state)) result) }
{
    if 1 < state {
        return BAD_ARGUMENT;
    }
    let request = cells::text_keysym(keysym, state);
    queue(
        control,
        words,
        reals,
        DeviceCapability::Text,
        interface,
        request,
    )
}

#[unsafe(no_mangle)]
pub extern "C" fn bozterrun_text_utf8(
    control: &mut [u64],
    words: &mut [u64],
    reals: &mut [f32],
    texts: &mut [u8],
    interface: u64,
    text: &[u8],
) -> u32
    ensures { Told (λ a. (version : ℕ) → AsksAll control words reals texts (Call.timed interface version (Input.Utf8 text.now)) a) result }
{
    let answer = client_calls::handle_utf8_request(control, words, reals, texts, interface, text);
    answer_numbers::status(answer)
}

// A touch request other than Cancel, for which alone the version counts.
fn touch(
    control: &mut [u64],
    words: &mut [u64],
    reals: &mut [f32],
    touchscreen: u64,
    request: TouchscreenRequest,
) -> u32
    ensures { Told (AsksRows control words reals (touchscreen_call request touchscreen 1)) result }
{
    let answer = client_calls::handle_touchscreen_request(
        control,
        words,
        reals,
        touchscreen,
        1,
        request,
    );
    answer_numbers::status(answer)
}

#[unsafe(no_mangle)]
pub extern "C" fn bozterrun_touchscreen_down(
    control: &mut [u64],
    words: &mut [u64],
    reals: &mut [f32],
    touchscreen: u64,
    touchid: u32,
    x: f32,
    y: f32,
) -> u32
    ensures { Told (AsksRows control words reals (Call.timed touchscreen 1 (Input.Down touchid x y))) result }
{
    let request = TouchscreenRequest::Down { touchid, x, y };
    touch(control, words, reals, touchscreen, request)
}

#[unsafe(no_mangle)]
pub extern "C" fn bozterrun_touchscreen_motion(
    control: &mut [u64],
    words: &mut [u64],
    reals: &mut [f32],
    touchscreen: u64,
    touchid: u32,
    x: f32,
    y: f32,
) -> u32
    ensures { Told (AsksRows control words reals (Call.timed touchscreen 1 (Input.Motion touchid x y))) result }
{
    let request = TouchscreenRequest::Motion { touchid, x, y };
    touch(control, words, reals, touchscreen, request)
}

#[unsafe(no_mangle)]
pub extern "C" fn bozterrun_touchscreen_up(
    control: &mut [u64],
    words: &mut [u64],
    reals: &mut [f32],
    touchscreen: u64,
    touchid: u32,
) -> u32
    ensures { Told (AsksRows control words reals (Call.timed touchscreen 1 (Input.Up touchid))) result }
{
    let request = TouchscreenRequest::Up { touchid };
    touch(control, words, reals, touchscreen, request)
}

// Refusal 2 tells the interface and the version.
#[unsafe(no_mangle)]
pub extern "C" fn bozterrun_touchscreen_cancel(
    control: &mut [u64],
    words: &mut [u64],
    reals: &mut [f32],
    touchscreen: u64,
    version: u32,
    touchid: u32,
    refused_interface: &mut u32,
    refused_version: &mut u32,
) -> u32
    ensures { Replies (AsksRows control words reals (Call.timed touchscreen version (Input.Cancel touchid))) result (Detailed refused_interface refused_version) }
{
    let request = TouchscreenRequest::Cancel { touchid };
    let answer = client_calls::handle_touchscreen_request(
        control,
        words,
        reals,
        touchscreen,
        version,
        request,
    );
    told::detailed(answer, refused_interface, refused_version)
}

// A request on a device other than its Frame.
fn device_request(
    control: &mut [u64],
    words: &mut [u64],
    reals: &mut [f32],
    device: u64,
    request: DeviceRequest,
    clock: u64,
) -> u32
    ensures { Told (AsksRowsAt control words reals (device_call request device) clock) result }
{
    let answer = client_calls::handle_device_request(control, words, reals, device, request, clock);
    answer_numbers::status(answer)
}

#[unsafe(no_mangle)]
pub extern "C" fn bozterrun_device_release(
    control: &mut [u64],
    words: &mut [u64],
    reals: &mut [f32],
    device: u64,
    clock: u64,
) -> u32
    ensures { Told (AsksRowsAt control words reals (Call.plain (Plain.device_release device)) clock) result }
{
    let request = DeviceRequest::Release;
    device_request(control, words, reals, device, request, clock)
}

#[unsafe(no_mangle)]
pub extern "C" fn bozterrun_device_start_emulating(
    control: &mut [u64],
    words: &mut [u64],
    reals: &mut [f32],
    device: u64,
    serial: u32,
    sequence: u32,
    clock: u64,
) -> u32
    ensures { Told (AsksRowsAt control words reals (Call.plain (Plain.device_start_emulating device serial sequence)) clock) result }
{
    let request = DeviceRequest::StartEmulating {
        last_serial: serial,
        sequence,
    };
    device_request(control, words, reals, device, request, clock)
}

#[unsafe(no_mangle)]
pub extern "C" fn bozterrun_device_stop_emulating(
    control: &mut [u64],
    words: &mut [u64],
    reals: &mut [f32],
    device: u64,
    serial: u32,
    clock: u64,
) -> u32
    ensures { Told (AsksRowsAt control words reals (Call.plain (Plain.device_stop_emulating device serial)) clock) result }
{
    let request = DeviceRequest::StopEmulating {
        last_serial: serial,
    };
    device_request(control, words, reals, device, request, clock)
}

#[unsafe(no_mangle)]
pub extern "C" fn bozterrun_device_ready(
    control: &mut [u64],
    words: &mut [u64],
    reals: &mut [f32],
    device: u64,
    clock: u64,
) -> u32
    ensures { Told (AsksRowsAt control words reals (Call.plain (Plain.device_ready device)) clock) result }
{
    let request = DeviceRequest::Ready;
    device_request(control, words, reals, device, request, clock)
}

#[unsafe(no_mangle)]
pub extern "C" fn bozterrun_device_frame(
    control: &mut [u64],
    words: &mut [u64],
    reals: &mut [f32],
    device: u64,
    serial: u32,
    timestamp: u64,
) -> u32
    ensures { Told (AsksRows control words reals (Call.plain (Plain.device_frame device serial timestamp))) result }
{
    let answer = client_calls::queue_frame(control, words, reals, device, serial, timestamp);
    answer_numbers::status(answer)
}

// A request on a seat other than its Release.
fn seat_request(
    control: &mut [u64],
    words: &mut [u64],
    reals: &mut [f32],
    seat: u64,
    request: SeatRequest,
) -> u32
    ensures { Told (AsksRows control words reals (seat_call request seat)) result }
{
    let answer = client_calls::handle_seat_request(control, words, reals, seat, request);
    answer_numbers::status(answer)
}

#[unsafe(no_mangle)]
pub extern "C" fn bozterrun_seat_bind(
    control: &mut [u64],
    words: &mut [u64],
    reals: &mut [f32],
    seat: u64,
    capabilities: u64,
) -> u32
    ensures { Told (AsksRows control words reals (Call.plain (Plain.bind seat capabilities))) result }
{
    let request = SeatRequest::Bind { capabilities };
    seat_request(control, words, reals, seat, request)
}

#[unsafe(no_mangle)]
pub extern "C" fn bozterrun_seat_request_device(
    control: &mut [u64],
    words: &mut [u64],
    reals: &mut [f32],
    seat: u64,
    capabilities: u64,
) -> u32
    ensures { Told (AsksRows control words reals (Call.plain (Plain.request_device seat capabilities))) result }
{
    let request = SeatRequest::RequestDevice { capabilities };
    seat_request(control, words, reals, seat, request)
}

#[unsafe(no_mangle)]
pub extern "C" fn bozterrun_seat_release(
    control: &mut [u64],
    words: &mut [u64],
    reals: &mut [f32],
    seat: u64,
    out: &mut [u8],
    count: &mut usize,
) -> u32
    ensures { Sent (PromiseRows control words reals out (Plain.seat_release seat)) result count }
{
    let answer = client_calls::release_seat(control, words, reals, seat, out);
    told::sent(answer, count)
}

// The Release of the interface for a capability, which is told by its mask.
#[unsafe(no_mangle)]
pub extern "C" fn bozterrun_interface_release(
    control: &mut [u64],
    capability: u64,
    interface: u64,
    out: &mut [u8],
    count: &mut usize,
) -> u32
    ensures sent { (c : DeviceCapability) → IsCapability capability c → Sent (Promise control out (Plain.interface_release c interface)) result count }
    ensures value { NoCapability capability → (result ≡ bad_argument) × (Kept control × (Kept out × (count.new ≡ 0))) }
{
    let Some(capability) = DeviceCapability::from_mask(capability) else {
        *count = 0;
        return BAD_ARGUMENT;
    };
    let answer = client_calls::release_interface(control, capability, interface, out);
    told::sent(answer, count)
}

// Refusal 2 tells the interface and the version.
#[unsafe(no_mangle)]
pub extern "C" fn bozterrun_connection_sync(
    control: &[u64],
    callback: u64,
    version: u32,
    out: &mut [u8],
    count: &mut usize,
    refused_interface: &mut u32,
    refused_version: &mut u32,
) -> u32
    ensures { Replies (PromiseUnchanged control out (Plain.sync callback version)) result (λ a. (count.new ≡ count_of a) × Detailed refused_interface refused_version a) }
{
    let answer = client_calls::sync(control, callback, version, out);
    *count = answer_numbers::count(answer);
    told::detailed(answer, refused_interface, refused_version)
}

#[unsafe(no_mangle)]
pub extern "C" fn bozterrun_connection_disconnect(
    control: &mut [u64],
    words: &mut [u64],
    reals: &mut [f32],
) -> u32
    ensures { Told (AsksRows control words reals (Call.plain Plain.disconnect)) result }
{
    let answer = client_calls::disconnect(control, words, reals);
    answer_numbers::status(answer)
}

#[unsafe(no_mangle)]
pub extern "C" fn bozterrun_pingpong_done(control: &[u64]) -> u32
    ensures { Told (Reply control Plain.pingpong_done) result }
{
    let answer = client_calls::pingpong_done(control);
    answer_numbers::status(answer)
}

// The handshake's request of an opcode; past the last one it is the last.
fn handshake_request(opcode: u32, value: u32) -> HandshakeRequest
    ensures { result ≡ handshake_request opcode value }
{
    match opcode {
        0 => HandshakeRequest::HandshakeVersion { version: value },
        1 => HandshakeRequest::Finish,
        2 => HandshakeRequest::ContextType {
            context_type: value,
        },
        3 => HandshakeRequest::Name,
        _ => HandshakeRequest::InterfaceVersion { version: value },
    }
}

// A handshake's request in a running session, by its opcode: it is refused, and the number says why.
#[unsafe(no_mangle)]
pub extern "C" fn bozterrun_unexpected_handshake(
    control: &[u64],
    opcode: u32,
    value: u32,
    text: &[u8],
) -> u32
    ensures told { opcode ≤ 4 → Told (AsksControl control (handshake_call (handshake_request opcode value) text.now)) result }
    ensures value { 4 < opcode → result ≡ bad_argument }
{
    if 4 < opcode {
        return BAD_ARGUMENT;
    }
    let request = handshake_request(opcode, value);
    let answer = client_calls::handle_handshake_request(control, request, text);
    answer_numbers::status(answer)
}
