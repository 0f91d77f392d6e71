// Writes what the tables of eiproto say: a line for each interface, name, capability and mask.
#![tactic(auto)]

use eiproto::eiproto_eis;
use eiproto::event::{Bits, DeviceCapability};
use std::io;
use std::io::Write;

// Number, name and version of an interface.
fn interface(to: &mut impl Write, i: u8) -> io::Result<()> {
    write!(to, "{i} ")?;
    to.write_all(eiproto_eis::name(i))?;
    writeln!(to, " {}", eiproto_eis::version(i))
}

// A name and the number that is found for it.
fn search(to: &mut impl Write, name: &[u8]) -> io::Result<()> {
    to.write_all(name)?;
    match eiproto_eis::find(name) {
        Some(i) => writeln!(to, " is {i}"),
        None => writeln!(to, " is unknown"),
    }
}

// Bit, mask and interface of a capability.
fn capability(to: &mut impl Write, bit: u32) -> io::Result<()> {
    match DeviceCapability::from_index(bit) {
        Some(cap) => {
            let mask = DeviceCapability::mask(cap);
            let interface = DeviceCapability::interface(cap);
            writeln!(to, "bit {bit} mask {mask} interface {interface}")
        }
        None => writeln!(to, "bit {bit} is no capability"),
    }
}

// A mask, how many bits it has, and which, each with its interface.
fn bits(to: &mut impl Write, mask: u64) -> io::Result<()> {
    write!(to, "{mask} has {}:", DeviceCapability::count(mask))?;
    for bit in Bits(mask) {
        write!(to, " {bit}/{}", DeviceCapability::interface_of_bit(bit))?;
    }
    if DeviceCapability::has_unknown(mask) {
        write!(to, " invalid")?;
    }
    writeln!(to)
}

// Whether a mask contains another, and what they share.
fn pair(to: &mut impl Write, whole: u64, part: u64) -> io::Result<()> {
    let contains = if DeviceCapability::contains(whole, part) {
        "contains"
    } else {
        "lacks some of"
    };
    let shared = DeviceCapability::common(whole, part);
    writeln!(to, "{whole} {contains} {part}, shared {shared}")
}

fn searches(to: &mut impl Write) -> io::Result<()> {
    search(to, b"ei_connection")?;
    search(to, b"ei_text")?;
    search(to, b"ei_pointer")?;
    search(to, b"ei_pointer_absolute")?;
    search(to, b"")?;
    search(to, b"ei_pointe")?;
    search(to, b"ei_pointer_")?;
    search(to, b"ei_pointer\0")?;
    search(to, b"EI_SEAT")?;
    search(to, b"ei_handshake")?;
    search(to, b"ei_pointer_absolute_and_more")
}

fn masks(to: &mut impl Write) -> io::Result<()> {
    bits(to, 0)?;
    bits(to, 127)?;
    bits(
        to,
        DeviceCapability::POINTER | DeviceCapability::TOUCH | DeviceCapability::TEXT,
    )?;
    bits(to, 128)?;
    bits(to, 9223372036854775812)?;
    pair(to, 37, 36)?;
    pair(to, 37, 38)?;
    pair(to, 0, 0)
}

fn main(rt: HostRuntime) -> io::Result<()> {
    let mut out = io::writer(&rt);
    for i in 0..14 {
        interface(&mut out, i)?;
    }
    searches(&mut out)?;
    for bit in 0..8 {
        capability(&mut out, bit)?;
    }
    masks(&mut out)?;
    out.flush()
}
