//! The drive of a schedule's nodes over UDP.
use crate::named::name_of;
use crate::output::printer_to;
use crate::{commands, stop};
use at_diagnostics::Diagnostics;
use at_udp::LocalSocket;
use std::io;
use std::io::Write;
use std::net::Net;
use std::rt::Files;

/// Drives the nodes of a file, or of the standard input for `-`.
pub(crate) fn udp_named<R: Files + Input + Print + Net + AllocGlobal, E: Write>(
    rt: &R,
    file: &str,
    errors: &mut E,
) -> io::Result<u8> {
    let Ok(mut printer) = printer_to(rt) else {
        return stop(rt, errors);
    };
    let mut diagnostics = Diagnostics::new(name_of(file), errors);
    Ok(commands::drive::<LocalSocket, _, _, _, _>(
        rt.alloc(),
        rt,
        file,
        &mut printer,
        &mut diagnostics,
    ))
}
