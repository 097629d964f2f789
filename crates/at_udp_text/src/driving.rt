//! The nodes of a setup, their sockets, and the lines by which they are driven.
ghost use Rattle.std.specs.Prelude.{◌≡◌, IfErr, IfOk};
ghost use Rattle.at_drive.specs.Steps.{numbers_of};
ghost use Rattle.at_drive_text.specs.Driven.{WasRead};
ghost use Rattle.at_print.specs.Printers.{IsSettled};
ghost use Rattle.at_udp.specs.Binds.{IsBound, IsUnbound};
ghost use Rattle.at_udp.specs.Sockets.{Receives, Sends};
ghost use Rattle.at_udp_text.specs.Ends.{DrivesNodes, EndsUnbound, IsLineOf};

use at_diagnostics::Diagnostics;
use at_drive_lines::{DriveHead, Lines, line_of_node};
use at_drive_text::{drive_lines, end_at_fault, end_at_line};
use at_faults::Fault;
use at_print::{Paper, Printer, Status};
use at_setup::Setup;
use at_udp::{BindFault, Socket, UdpCable};
use std::alloc::{AllocError, Allocator};
use std::net::Net;

/// Binds a socket for each node, and drives the nodes by lines that were read before.
pub(crate) fn drive_nodes<S: Socket, A: Allocator + Copy, N: Net, L: Lines, W: Paper, E: Paper>(
    alloc: A,
    net: &N,
    head: &DriveHead<A>,
    lines: &mut L,
    printer: &mut Printer<W>,
    diagnostics: &mut Diagnostics<'_, E>,
) -> Status
    requires { WasRead head.now.setup (L.left lines.old) L.may_fail }
    ensures driven { DrivesNodes S.binds (Sends S.sends) (Receives S.receives) head.now.setup head.now.port
        (L.left lines.old) L.may_fail W.page E.page result printer.old printer.new diagnostics.old diagnostics.new }
    ensures settled { IsSettled W.settles printer.new }
{
    match cable_of::<S, A, N>(alloc, net, head) {
        Ok(mut cable) => drive_lines(alloc, &head.setup, lines, &mut cable, printer, diagnostics),
        Err(fault) => end_unbound(lines, fault, printer, diagnostics),
    }
}

// A socket for each node of the setup.
fn cable_of<S: Socket, A: Allocator + Copy, N: Net>(
    alloc: A,
    net: &N,
    head: &DriveHead<A>,
) -> Result<UdpCable<S, A>, BindFault>
    ensures bound { IfOk result (λ c. IsBound S.binds head.now.port (numbers_of head.now.setup) c) }
    ensures unbound { IfErr result (λ fault. IsUnbound S.binds head.now.port (numbers_of head.now.setup) fault) }
{
    match numbers_of(alloc, &head.setup) {
        Ok(nodes) => UdpCable::bind(alloc, net, head.port, nodes.as_slice()),
        Err(AllocError) => Err(BindFault::NoMemory),
    }
}

fn numbers_of<A: Allocator + Copy>(alloc: A, setup: &Setup<A>) -> Result<Vec<u8, A>, AllocError>
    ensures { IfOk result (λ numbers. numbers.items ≡ numbers_of setup.now) }
{
    let mut numbers = Vec::new(alloc);
    for node in setup.nodes.as_slice() {
        numbers.push(node.node)?;
    }
    Ok(numbers)
}

// A node has no socket, or there was no memory for all.
fn end_unbound<L: Lines, W: Paper, E: Paper>(
    lines: &mut L,
    fault: BindFault,
    printer: &mut Printer<W>,
    diagnostics: &mut Diagnostics<'_, E>,
) -> Status
    ensures ended { EndsUnbound (L.left lines.old) L.may_fail fault W.page E.page result printer.old printer.new
        diagnostics.old diagnostics.new }
    ensures settled { IsSettled W.settles printer.new }
{
    match fault {
        BindFault::NoMemory => end_at_fault(Fault::NoMemory, printer, diagnostics),
        BindFault::NoSocket { node, .. } => {
            end_at_line(line_of(lines, node), fault, printer, diagnostics)
        }
    }
}

// The line of a node that has no socket.
fn line_of<L: Lines>(lines: &mut L, node: u8) -> usize
    ensures { IsLineOf (L.left lines.old) L.may_fail node result }
{
    match line_of_node(lines, node) {
        Ok(Some(number)) => number,
        Ok(None) => 0,
        Err(_) => 0,
    }
}
