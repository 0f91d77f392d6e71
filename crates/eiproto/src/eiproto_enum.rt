// The protocol's enums, by value: those that a server without keymaps needs, with the numbers that stand for them on the wire.
// A number that stands for no case is answered as such (`ParseError::InvalidVariant` of the source). `number` is a method, as those of the
// refusals are that docs/REFERENCE.md names.
ghost use Rattle.std.specs.Prelude.{◌≡◌};
ghost use Rattle.eiproto.specs.Enum.{context_type_number, context_type_of, disconnect_reason_number, disconnect_reason_of};
ghost use Rattle.eiproto.specs.Enum.{device_type_number, device_type_of, button_state_number, button_state_of, key_state_number, key_state_of};

use std::error::Error;
use std::fmt;

// A number that stands for no case of an enum.
#[derive(Clone, Copy, Debug, PartialEq, Eq)]
pub struct InvalidVariant(pub u32);

impl fmt::Display for InvalidVariant {
    fn fmt<W: fmt::Write>(&self, f: &mut fmt::Formatter<W>) -> fmt::Result {
        write!(f, "{} stands for no case", self.0)
    }
}

impl Error for InvalidVariant {}

// Context types for connections.
#[derive(Clone, Copy, Debug, PartialEq, Eq)]
pub enum ContextType {
    // The ei client receives input events from the eis implementation.
    Receiver = 1,
    // The ei client sends input events to the eis implementation.
    Sender = 2,
}

impl ContextType {
    pub fn number(self) -> u32
        ensures { result ≡ context_type_number self }
    {
        self as u32
    }
}

impl TryFrom<u32> for ContextType {
    type Error = InvalidVariant;

    ghost try_from_gives = { λ variant r. r ≡ context_type_of variant };

    fn try_from(variant: u32) -> Result<Self, InvalidVariant> {
        match variant {
            1 => Ok(ContextType::Receiver),
            2 => Ok(ContextType::Sender),
            _ => Err(InvalidVariant(variant)),
        }
    }
}

// Disconnection reason. A nonzero value describes an error, with the generic value Error reserved as fallback.
#[derive(Clone, Copy, Debug, PartialEq, Eq)]
pub enum DisconnectReason {
    // Client was purposely disconnected.
    Disconnected = 0,
    // An error caused the disconnection.
    Error = 1,
    // Sender/receiver client sent request for receiver/sender mode.
    Mode = 2,
    // Client committed a protocol violation.
    Protocol = 3,
    // Client sent an invalid value.
    Value = 4,
    // Error on the transport layer.
    Transport = 5,
}

impl DisconnectReason {
    pub fn number(self) -> u32
        ensures { result ≡ disconnect_reason_number self }
    {
        self as u32
    }
}

impl TryFrom<u32> for DisconnectReason {
    type Error = InvalidVariant;

    ghost try_from_gives = { λ variant r. r ≡ disconnect_reason_of variant };

    fn try_from(variant: u32) -> Result<Self, InvalidVariant> {
        match variant {
            0 => Ok(DisconnectReason::Disconnected),
            1 => Ok(DisconnectReason::Error),
            2 => Ok(DisconnectReason::Mode),
            3 => Ok(DisconnectReason::Protocol),
            4 => Ok(DisconnectReason::Value),
            5 => Ok(DisconnectReason::Transport),
            _ => Err(InvalidVariant(variant)),
        }
    }
}

// Device type.
#[derive(Clone, Copy, Debug, PartialEq, Eq)]
pub enum DeviceType {
    // A virtual device.
    Virtual = 1,
    // Representation of a physical device.
    Physical = 2,
}

impl DeviceType {
    pub fn number(self) -> u32
        ensures { result ≡ device_type_number self }
    {
        self as u32
    }
}

impl TryFrom<u32> for DeviceType {
    type Error = InvalidVariant;

    ghost try_from_gives = { λ variant r. r ≡ device_type_of variant };

    fn try_from(variant: u32) -> Result<Self, InvalidVariant> {
        match variant {
            1 => Ok(DeviceType::Virtual),
            2 => Ok(DeviceType::Physical),
            _ => Err(InvalidVariant(variant)),
        }
    }
}

// The logical state of a button.
#[derive(Clone, Copy, Debug, PartialEq, Eq)]
pub enum ButtonState {
    // The button is logically up.
    Released = 0,
    // The button is logically down.
    Press = 1,
}

impl ButtonState {
    pub fn number(self) -> u32
        ensures { result ≡ button_state_number self }
    {
        self as u32
    }
}

impl TryFrom<u32> for ButtonState {
    type Error = InvalidVariant;

    ghost try_from_gives = { λ variant r. r ≡ button_state_of variant };

    fn try_from(variant: u32) -> Result<Self, InvalidVariant> {
        match variant {
            0 => Ok(ButtonState::Released),
            1 => Ok(ButtonState::Press),
            _ => Err(InvalidVariant(variant)),
        }
    }
}

// The logical state of a key.
#[derive(Clone, Copy, Debug, PartialEq, Eq)]
pub enum KeyState {
    // The key is logically up.
    Released = 0,
    // The key is logically down.
    Press = 1,
}

impl KeyState {
    pub fn number(self) -> u32
        ensures { result ≡ key_state_number self }
    {
        self as u32
    }
}

impl TryFrom<u32> for KeyState {
    type Error = InvalidVariant;

    ghost try_from_gives = { λ variant r. r ≡ key_state_of variant };

    fn try_from(variant: u32) -> Result<Self, InvalidVariant> {
        match variant {
            0 => Ok(KeyState::Released),
            1 => Ok(KeyState::Press),
            _ => Err(InvalidVariant(variant)),
        }
    }
}
