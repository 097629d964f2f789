//! The interfaces of a section of pcapng.
ghost use Rattle.std.specs.Prelude.{◌≡◌};
ghost use Rattle.at_pcap.specs.Blocks.{resolution_of};

/// What a tick of an interface's times is.
#[derive(Clone, Copy, Debug, PartialEq, Eq)]
pub enum Resolution {
    /// A second has 10 to this power ticks, 0 to 9.
    Decimal(u8),
    /// A second has 2 to this power ticks, 0 to 30.
    Binary(u8),
}

impl Resolution {
    /// Microseconds, which an interface has that says nothing.
    pub(crate) const DEFAULT: Resolution = Resolution::Decimal(6);

    /// The resolution that the option if_tsresol says, if it is in range.
    pub(crate) fn of_byte(value: u8) -> Option<Resolution>
        ensures { result ≡ resolution_of value }
    {
        if value <= 9 {
            return Some(Resolution::Decimal(value));
        }
        if value >= 128 && value <= 158 {
            return Some(Resolution::Binary(value - 128));
        }
        None
    }
}

/// An interface of a section, from which frames were captured.
#[derive(Clone, Copy, Debug, PartialEq, Eq)]
pub struct Interface {
    /// The type of its link.
    pub link_type: u16,
    pub resolution: Resolution,
    /// The most bytes of a frame that were captured; 0 for no limit.
    pub longest: u32,
}
