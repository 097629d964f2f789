//! What a node is made with.

use at_adsp_ends::Rooms;
use at_ddp::{Listed, Pascal};
use at_event::Seat;
use at_name_socket::Neighbour;
use at_zip::Tables;
use std::alloc::{Allocator, Global};

/// What a node is made with: its seat, and what it has from the beginning.
#[derive(Drop)]
pub struct Settings<A: Allocator = Global> {
    /// Its network, its number and the router of its cable.
    pub seat: Seat,
    /// Its zone.
    pub zone: Option<Pascal>,
    /// The zone tables, if the node is the router.
    pub tables: Option<Tables<A>>,
    /// The nodes of the cable, if the node is the router.
    pub neighbours: Option<Listed<Neighbour, A>>,
    /// The rooms of the ends of the node's streams, 1 to 65,535 items each.
    pub rooms: Rooms,
}
