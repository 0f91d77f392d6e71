// Capabilities of devices, and masks of them: bit b of a mask is the capability at index b.
ghost use Rattle.std.specs.Prelude.{◌≡◌, length};
ghost use Rattle.std.specs.Iterator.{YieldsFirst, item_count};
ghost use Rattle.eiproto.specs.Bits.{bits_of, lowest_bit, without_lowest, bits_below, contains, common};
ghost use Rattle.eiproto.specs.Capability.{capability_index, capability_mask, capability_interface, capability_by, interface_of_bit, unknown_bits};

use crate::eiproto_eis;

#[derive(Clone, Copy, Debug, PartialEq, Eq)]
pub enum DeviceCapability {
    // Capability for relative pointer motion.
    Pointer,
    // Capability for absolute pointer motion.
    PointerAbsolute,
    // Capability for keyboard input events.
    Keyboard,
    // Capability for touch input events.
    Touch,
    // Capability for scroll input events.
    Scroll,
    // Capability for mouse button input events.
    Button,
    // Capability for text input events.
    Text,
}

// Constants and functions with no self, masks as numbers: docs/DECISIONS.md, Forms by place.
impl DeviceCapability {
    // The masks.
    pub const POINTER: u64 = 1 << 0;

    pub const POINTER_ABSOLUTE: u64 = 1 << 1;

    pub const KEYBOARD: u64 = 1 << 2;

    pub const TOUCH: u64 = 1 << 3;

    pub const SCROLL: u64 = 1 << 4;

    pub const BUTTON: u64 = 1 << 5;

    pub const TEXT: u64 = 1 << 6;

    // The numbers of the interfaces, which have another order.
    pub const POINTER_INTERFACE: u8 = eiproto_eis::POINTER;

    pub const POINTER_ABSOLUTE_INTERFACE: u8 = eiproto_eis::POINTER_ABSOLUTE;

    pub const KEYBOARD_INTERFACE: u8 = eiproto_eis::KEYBOARD;

    pub const TOUCH_INTERFACE: u8 = eiproto_eis::TOUCHSCREEN;

    pub const SCROLL_INTERFACE: u8 = eiproto_eis::SCROLL;

    pub const BUTTON_INTERFACE: u8 = eiproto_eis::BUTTON;

    pub const TEXT_INTERFACE: u8 = eiproto_eis::TEXT;

    // The mask that has the capability's bit alone.
    pub fn mask(cap: DeviceCapability) -> u64
        ensures { result ≡ capability_mask cap }
    {
        match cap {
            DeviceCapability::Pointer => DeviceCapability::POINTER,
            DeviceCapability::PointerAbsolute => DeviceCapability::POINTER_ABSOLUTE,
            DeviceCapability::Keyboard => DeviceCapability::KEYBOARD,
            DeviceCapability::Touch => DeviceCapability::TOUCH,
            DeviceCapability::Scroll => DeviceCapability::SCROLL,
            DeviceCapability::Button => DeviceCapability::BUTTON,
            DeviceCapability::Text => DeviceCapability::TEXT,
        }
    }

    // The number of the capability's interface.
    pub fn interface(cap: DeviceCapability) -> u8
        ensures { result ≡ capability_interface cap }
    {
        match cap {
            DeviceCapability::Pointer => DeviceCapability::POINTER_INTERFACE,
            DeviceCapability::PointerAbsolute => DeviceCapability::POINTER_ABSOLUTE_INTERFACE,
            DeviceCapability::Keyboard => DeviceCapability::KEYBOARD_INTERFACE,
            DeviceCapability::Touch => DeviceCapability::TOUCH_INTERFACE,
            DeviceCapability::Scroll => DeviceCapability::SCROLL_INTERFACE,
            DeviceCapability::Button => DeviceCapability::BUTTON_INTERFACE,
            DeviceCapability::Text => DeviceCapability::TEXT_INTERFACE,
        }
    }

    // The capability at the place of a bit.
    pub fn from_index(index: u32) -> Option<DeviceCapability>
        ensures { result ≡ capability_by capability_index index }
    {
        match index {
            0 => Some(DeviceCapability::Pointer),
            1 => Some(DeviceCapability::PointerAbsolute),
            2 => Some(DeviceCapability::Keyboard),
            3 => Some(DeviceCapability::Touch),
            4 => Some(DeviceCapability::Scroll),
            5 => Some(DeviceCapability::Button),
            6 => Some(DeviceCapability::Text),
            _ => None,
        }
    }

    // The capability that has the mask: none for a mask of no bit, of several or of an unknown one.
    pub fn from_mask(mask: u64) -> Option<DeviceCapability>
        ensures { result ≡ capability_by capability_mask mask }
    {
        match mask {
            DeviceCapability::POINTER => Some(DeviceCapability::Pointer),
            DeviceCapability::POINTER_ABSOLUTE => Some(DeviceCapability::PointerAbsolute),
            DeviceCapability::KEYBOARD => Some(DeviceCapability::Keyboard),
            DeviceCapability::TOUCH => Some(DeviceCapability::Touch),
            DeviceCapability::SCROLL => Some(DeviceCapability::Scroll),
            DeviceCapability::BUTTON => Some(DeviceCapability::Button),
            DeviceCapability::TEXT => Some(DeviceCapability::Text),
            _ => None,
        }
    }

    // The number of the interface of a bit; 0 where the bit is no capability's.
    #[tactic(auto, unfolding(crate::specs::Capability::interface_of_bit))]
    pub fn interface_of_bit(bit: u32) -> u8
        ensures { result ≡ interface_of_bit bit }
    {
        DeviceCapability::from_index(bit).map_or(0, DeviceCapability::interface)
    }

    // How many bits of a mask are set.
    pub fn count(mask: u64) -> u32
        ensures { result ≡ length (bits_of mask) }
    {
        mask.count_ones()
    }

    // The lowest set bit, which is the next in ascending order; 64 where none is set.
    #[tactic(auto, using(crate::proofs::Bits::lowest_is))]
    pub fn lowest(mask: u64) -> u32
        ensures { result ≡ lowest_bit mask }
    {
        mask.trailing_zeros()
    }

    // The mask without its lowest set bit.
    pub fn without_lowest(mask: u64) -> u64
        ensures { result ≡ without_lowest mask }
    {
        if mask == 0 {
            return 0;
        }
        mask - (1 << DeviceCapability::lowest(mask))
    }

    // How many bits of a mask are set below a bit.
    #[tactic(auto, using(crate::proofs::Bits::one_shl, crate::proofs::Bits::below_is, crate::proofs::Bits::below_all))]
    pub fn count_below(mask: u64, bit: u32) -> u32
        ensures { result ≡ bits_below mask bit }
    {
        if 63 < bit {
            return mask.count_ones();
        }
        (mask % (1 << bit)).count_ones()
    }

    // Whether a bit above bit 6 is set, which is no capability's.
    pub fn has_unknown(mask: u64) -> bool
        ensures { result ≡ unknown_bits mask }
    {
        128 <= mask
    }

    // Whether every bit of `part` is a bit of `whole`.
    pub fn contains(whole: u64, part: u64) -> bool
        ensures { result ≡ contains whole part }
    {
        part & whole == part
    }

    // The bits that two masks share.
    pub fn common(a: u64, b: u64) -> u64
        ensures { result ≡ common a b }
    {
        a & b
    }
}

// The set bits of a mask, ascending.
#[derive(Clone, Debug, Drop)]
pub struct Bits(pub u64);

impl Iterator for Bits {
    type Item = u32;

    ghost next_gives = { YieldsFirst (λ b. bits_of b.0) };

    ghost remaining = { item_count (λ b. bits_of b.0) };

    #[tactic(auto, using(crate::proofs::Bits::bits_zero, crate::proofs::Bits::bits_next))]
    fn next(&mut self) -> Option<u32> {
        if self.0 == 0 {
            return None;
        }
        let bit = DeviceCapability::lowest(self.0);
        self.0 = DeviceCapability::without_lowest(self.0);
        Some(bit)
    }
}
