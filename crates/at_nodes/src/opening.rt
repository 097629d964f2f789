//! The nodes of a setup before anything happened, each with what it knows of the others.
ghost use Rattle.std.specs.Prelude.{◌≡◌, IfOk, Some, None, map, if◌then◌else◌};
ghost use Rattle.at_adsp_ends.specs.Tables.{AreRooms};
ghost use Rattle.at_setup.specs.Setups.{tables_of};
ghost use Rattle.at_nodes.specs.Nodes.{AreWithin};
ghost use Rattle.at_nodes.specs.Openings.{neighbours_of, opening_node, rooms_of, router_of};

use at_adsp_ends::Rooms;
use at_ddp::{Listed, Pascal};
use at_event::Seat;
use at_name_socket::Neighbour;
use at_nbp::copy_of;
use at_node::{Node, Settings};
use at_setup::{NodeSetup, Setup};
use at_zip::{Tables, Zones};
use std::alloc::{AllocError, Allocator};

/// The nodes of a setup before anything happened. The error is out of memory.
pub fn opening_nodes<A: Allocator + Copy>(
    alloc: A,
    setup: &Setup<A>,
) -> Result<Vec<Node<A>, A>, AllocError>
    ensures nodes { IfOk result (λ nodes. nodes.items ≡ map (opening_node setup.now) setup.now.nodes) }
    ensures within { IfOk result (λ nodes. AreWithin nodes.items) }
{
    let setups = setup.nodes.as_slice();
    let router = router_of(setups);
    let mut nodes = Vec::new(alloc);
    for n in setups {
        let seat = Seat {
            net: setup.net,
            number: n.node,
            router,
        };
        let zone = zone_of(n);
        let tables = tables_for(alloc, n.router, setup)?;
        let neighbours = neighbours_for(alloc, n.router, setups)?;
        let rooms = rooms_of(n);
        let settings = Settings {
            seat,
            zone,
            tables,
            neighbours,
            rooms,
        };
        let node = Node::new(alloc, settings);
        node.limits();
        nodes.push(node)?;
    }
    Ok(nodes)
}

// The rooms of a node's ends. One place is the least with which anything can be sent.
fn rooms_of(node: &NodeSetup) -> Rooms
    ensures value { result ≡ rooms_of node.now }
    ensures lawful { AreRooms result }
{
    Rooms {
        receive: node.receive_room.max(1),
        send: node.send_room.max(1),
    }
}

fn zone_of(node: &NodeSetup) -> Option<Pascal>
    ensures { result ≡ node.now.zone }
{
    match &node.zone {
        Some(zone) => Some(copy_of(zone)),
        None => None,
    }
}

// The nodes of the cable, as its router knows them; none if the node is not the router.
fn neighbours_for<A: Allocator + Copy>(
    alloc: A,
    router: bool,
    nodes: &[NodeSetup],
) -> Result<Option<Listed<Neighbour, A>>, AllocError>
    ensures { IfOk result (λ known. known ≡ (if router then Some (neighbours_of nodes.now) else None)) }
{
    if !router {
        return Ok(None);
    }
    let neighbours = neighbours_of(alloc, nodes)?;
    Ok(Some(Listed::from_vec(neighbours)))
}

fn neighbours_of<A: Allocator + Copy>(
    alloc: A,
    nodes: &[NodeSetup],
) -> Result<Vec<Neighbour, A>, AllocError>
    ensures { IfOk result (λ neighbours. neighbours.items ≡ neighbours_of nodes.now) }
{
    let mut neighbours = Vec::new(alloc);
    for n in nodes {
        if let Some(zone) = &n.zone {
            neighbours.push(Neighbour {
                node: n.node,
                zone: copy_of(zone),
            })?;
        }
    }
    Ok(neighbours)
}

fn router_of(nodes: &[NodeSetup]) -> Option<u8>
    ensures { result ≡ router_of nodes.now }
{
    let router = nodes.iter().find(|n| n.router)?;
    Some(router.node)
}

// The zone tables of a node, with copies of the names; none if the node is not the router.
fn tables_for<A: Allocator + Copy>(
    alloc: A,
    router: bool,
    setup: &Setup<A>,
) -> Result<Option<Tables<A>>, AllocError>
    ensures { IfOk result (λ tables. tables ≡ (if router then Some (tables_of setup.now) else None)) }
{
    if !router {
        return Ok(None);
    }
    let all = table_of(alloc, setup.zones.as_slice())?;
    let local = table_of(alloc, setup.local.as_slice())?;
    Ok(Some(Tables::new(all, local)))
}

// A zone table with copies of these names.
fn table_of<A: Allocator + Copy>(alloc: A, names: &[Pascal]) -> Result<Zones<A>, AllocError>
    ensures { IfOk result (λ table. table ≡ names.now) }
{
    match Zones::copy_of(alloc, names) {
        Ok(table) => Ok(table),
        Err(_) => Err(AllocError),
    }
}
