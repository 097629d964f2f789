//! Two examples of how to use the libraries: a service of your own, and a world that is stepped event by event.
#![tactic(auto)]

mod service;
mod world;

use std::io;

fn main(rt: HostRuntime) -> io::Result<()> {
    service::run(&rt)?;
    world::run(&rt)
}
