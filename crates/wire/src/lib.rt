// What a server sends: object ids as src/wire/backend.rs of reis gives them, and event records as docs/REFERENCE.md lays them out.
#![tactic(auto)]

pub mod backend;
pub mod event;

// What is wrong with a message (`ParseError` of src/wire/mod.rs). An interface is told by its number, and InvalidId is an answer of its own.
#[derive(Clone, Copy, Debug, PartialEq, Eq)]
pub enum ParseError {
    // End of message while parsing argument.
    EndOfMessage,
    // Invalid UTF-8 string in message.
    Utf8,
    // Invalid opcode for interface.
    InvalidOpcode { interface: u8, opcode: u32 },
    // Invalid variant for enum.
    InvalidVariant { variant: u32 },
    // Message header is too short, or says more than a message may have.
    HeaderLength { length: u32 },
    // Message length didn't match header.
    MessageLength { read: u32, header: u32 },
    // NULL for non-nullable argument.
    InvalidNull,
}
