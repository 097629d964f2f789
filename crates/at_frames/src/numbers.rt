//! Fields of a frame, by their place.
ghost use Rattle.std.specs.Prelude.{◌≡◌, ◌+◌, ◌≤◌, length, take, drop};
ghost use Rattle.at_ddp.specs.Fault.{number_at};
ghost use Rattle.at_frames.specs.declared.carried.Station.TheVariants.{Ethernet as OfEthernet};

use crate::carried::Station;
use byteorder::{BigEndian, ByteOrder};

/// The 16-bit number at a place.
pub(crate) fn number_at(bytes: &[u8], place: usize) -> u16
    requires { place + 2 ≤ length bytes.now }
    ensures { result ≡ number_at place bytes.now }
{
    BigEndian::read_u16(&bytes[place..])
}

/// The station whose address of Ethernet is at a place.
pub(crate) fn station_at(bytes: &[u8], place: usize) -> Station
    requires { place + 6 ≤ length bytes.now }
    ensures { result ≡ OfEthernet (take 6 (drop place bytes.now)) }
{
    let mut address = [0; 6];
    address.copy_from_slice(&bytes[place..place + 6]);
    Station::Ethernet(address)
}
