//! How many packets a request asks for. It is a type of its own, so that no call asks for none or for nine.
ghost use Rattle.std.specs.Prelude.{◌≡◌, ◌≤◌, ◌&&◌, nat_le, if◌then◌else◌, Some, None};

use std::marker::Model;

/// How many packets a request asks for: 1 to 8.
#[derive(Drop)]
pub struct PacketCount {
    count: u8,
}

impl Model for PacketCount {
    ghost use Rattle.std.specs.Prelude.{◌≤◌, ℕ};

    ghost Value = { ℕ };

    ghost view = { λ c. c.count };

    ghost invariant = { λ c. (1 ≤ c.count) × (c.count ≤ 8) };
}

impl PacketCount {
    /// None if the count is not 1 to 8.
    pub fn new(count: u8) -> Option<PacketCount>
        ensures { result ≡ (if nat_le 1 count && nat_le count 8 then Some count else None) }
    {
        if 1 <= count && count <= 8 {
            Some(PacketCount { count })
        } else {
            None
        }
    }

    pub fn get(&self) -> u8
        ensures value { result ≡ self.now }
        ensures some { 1 ≤ result }
        ensures few { result ≤ 8 }
    {
        self.count
    }
}
