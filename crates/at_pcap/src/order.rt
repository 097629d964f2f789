//! The order of the bytes in a file's numbers.
ghost use Rattle.std.specs.Prelude.{◌≡◌, ◌≤◌, ◌++◌, drop, length};
ghost use Rattle.at_pcap.specs.Orders.{bytes_in, number_in};

use byteorder::{BigEndian, ByteOrder, LittleEndian};

/// The order of the bytes in a file's numbers.
#[derive(Clone, Copy, Debug, PartialEq, Eq)]
pub enum Order {
    /// The highest byte comes first.
    Big,
    /// The lowest byte comes first.
    Little,
}

impl Order {
    /// The number in the first two bytes.
    pub(crate) fn read_u16(self, bytes: &[u8]) -> u16
        requires { 2 ≤ length bytes.now }
        ensures { result ≡ number_in self 2 bytes.now }
    {
        match self {
            Order::Big => BigEndian::read_u16(bytes),
            Order::Little => LittleEndian::read_u16(bytes),
        }
    }

    /// The number in the first four bytes.
    pub(crate) fn read_u32(self, bytes: &[u8]) -> u32
        requires { 4 ≤ length bytes.now }
        ensures { result ≡ number_in self 4 bytes.now }
    {
        match self {
            Order::Big => BigEndian::read_u32(bytes),
            Order::Little => LittleEndian::read_u32(bytes),
        }
    }

    /// Writes a number over the first two bytes.
    pub(crate) fn write_u16(self, bytes: &mut [u8], number: u16)
        requires { 2 ≤ length bytes.old }
        ensures { bytes.new ≡ bytes_in self 2 number ++ drop 2 bytes.old }
    {
        match self {
            Order::Big => BigEndian::write_u16(bytes, number),
            Order::Little => LittleEndian::write_u16(bytes, number),
        }
    }

    /// Writes a number over the first four bytes.
    pub(crate) fn write_u32(self, bytes: &mut [u8], number: u32)
        requires { 4 ≤ length bytes.old }
        ensures { bytes.new ≡ bytes_in self 4 number ++ drop 4 bytes.old }
    {
        match self {
            Order::Big => BigEndian::write_u32(bytes, number),
            Order::Little => LittleEndian::write_u32(bytes, number),
        }
    }
}
