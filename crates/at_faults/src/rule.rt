//! The rules on the lines of a schedule, each as the sentence of a line that breaks it.
ghost use Rattle.std.specs.Prelude.{◌≡◌, Some};
ghost use Rattle.at_faults.specs.Sentences.{sentence};

use at_event::EventRule;
use std::error::Error;
use std::fmt;
use std::fmt::{Display, Formatter, Write};

/// A rule on the lines of a schedule. Its text says which rule a line breaks.
#[derive(Clone, Copy, Debug, PartialEq, Eq)]
pub enum Rule {
    /// Lines end with a line feed.
    CarriageReturn,
    /// Words are separated by spaces.
    Tab,
    /// An empty line has no bytes.
    SpacesAlone,
    /// The first word says what a line is.
    FirstWord,
    /// The first word says what a line of a drive is.
    DriveFirstWord,
    /// `net N`
    Net,
    /// `port P`
    Port,
    /// `node N [router] [zone TEXT] [rooms R S]`
    Node,
    /// `zones TEXT ..`
    Zones,
    /// `local TEXT ..`
    Local,
    /// The words of a call or of a timer.
    Event(EventRule),
    /// Pairs of hexadecimal digits, or `-`.
    Data,
    /// `deliver K N`
    Deliver,
    /// `forge N HEX`
    Forge,
    /// `poll N`
    Poll,
    /// `net` comes before all other lines.
    NetFirst,
    /// `net` may appear only once.
    NetOnce,
    /// `port` comes right after `net`.
    PortSecond,
    /// `port` may appear only once.
    PortOnce,
    /// The port of a node is at most 65,535.
    PortOfNode,
    /// The router that must follow has a port too.
    PortOfRouter,
    /// Nodes come before the zone tables and the events.
    NodesFirst,
    /// Numbers of nodes differ.
    NodeOnce,
    /// A cable has at most 16 nodes.
    SixteenNodes,
    /// All nodes are in zones, or none is.
    AllInZones,
    /// One node may be a router.
    OneRouter,
    /// A router must be in a zone.
    RouterInZone,
    /// Nodes in zones must have a router among them.
    RouterMissing,
    /// `zones` may appear only once, after the nodes and before the events.
    ZonesOnce,
    /// `zones` needs a router.
    ZonesOfRouter,
    /// A zone table has at most 1,024 names.
    ZonesFitTable,
    /// The table of all zones comes before the one of this cable's zones.
    ZonesFirst,
    /// `local` may appear only once, after the nodes and before the events.
    LocalOnce,
    /// `local` needs a router.
    LocalOfRouter,
    /// A zone table has at most 1,024 names.
    LocalFitsTable,
    /// The setup of a drive has the node of each event.
    NodeStands,
    /// A drive has no lines that deliver or forge.
    PlayAlone,
    /// A schedule over sockets has a port.
    NoPort,
    /// A schedule has a network.
    NoNet,
    /// A schedule whose nodes are in zones has a router.
    NoRouter,
}

// By hand: the proof of a derived text of so many variants takes longer than that of all the rest of the crate.
impl Display for Rule {
    ghost output = { λ rule. Some (sentence rule) };

    fn fmt<W: Write>(&self, f: &mut Formatter<W>) -> fmt::Result {
        f.write_str(self.sentence())
    }
}

impl Error for Rule {}

impl Rule {
    // The reason for a line that breaks the rule, as standard error has it.
    fn sentence(self) -> &'static str
        ensures { result.now ≡ sentence self }
    {
        match self {
            Rule::CarriageReturn =>
                "the line ends with a carriage return; lines end with a line feed alone",
            Rule::Tab => "the line has a tab; words are separated by spaces",
            Rule::SpacesAlone => "the line has only spaces; an empty line has no bytes",
            Rule::FirstWord => {
                "a line begins with `net`, `node`, `zones`, `local`, `call`, `deliver`, `timer`, `forge` or `#`"
            }
            Rule::DriveFirstWord => {
                "a line begins with `net`, `port`, `node`, `zones`, `local`, `call`, `timer`, `poll` or `#`"
            }
            Rule::Net => "`net` takes a network's number, 1 to 65535, as in \"net 10\"",
            Rule::Port => "`port` takes a number, 0 to 65535, as in \"port 47200\"",
            Rule::Node => {
                "`node` takes a number, 1 to 254, then `router`, `zone` and `rooms` if needed, \
        as in \"node 1 router zone Lab\""
            }
            Rule::Zones => "`zones` takes names of 1 to 32 bytes, as in \"zones Lab Office\"",
            Rule::Local => "`local` takes names of 1 to 32 bytes, as in \"local Lab\"",
            Rule::Event(rule) => rule.sentence(),
            Rule::Data => "data is pairs of hexadecimal digits, or `-` for no bytes",
            Rule::Deliver =>
                "`deliver` takes a datagram's number and a node, as in \"deliver 0 1\"",
            Rule::Forge => {
                "`forge` takes a node and the bytes that it receives, as in \"forge 1 000D0000000A000A0105068003\""
            }
            Rule::Poll => "`poll` takes a node, as in \"poll 5\"",
            Rule::NetFirst => "`net` must come first, as in \"net 10\"",
            Rule::NetOnce => "`net` may appear only once",
            Rule::PortSecond => "`port` must come right after `net`, as in \"port 47200\"",
            Rule::PortOnce => "`port` may appear only once, right after `net`",
            Rule::PortOfNode =>
                "a node's port is `port` plus its number, and must be at most 65535",
            Rule::PortOfRouter => {
                "the nodes have zones, so a router must follow, and no port up to 65535 is left for it"
            }
            Rule::NodesFirst => "a `node` line must come before `zones`, `local` and the events",
            Rule::NodeOnce => "a node with this number already exists",
            Rule::SixteenNodes => "a cable has at most 16 nodes",
            Rule::AllInZones => "either all nodes must have a zone, or none",
            Rule::OneRouter => "a cable has at most one router",
            Rule::RouterInZone => "a router must have a zone, as in \"node 1 router zone Lab\"",
            Rule::RouterMissing => "the nodes have zones, so one of the 16 must be the router",
            Rule::ZonesOnce =>
                "`zones` may appear only once, after the nodes and before the events",
            Rule::ZonesOfRouter =>
                "`zones` needs a router among the nodes, as in \"node 1 router zone Lab\"",
            Rule::ZonesFitTable => "`zones` has at most 1,024 names",
            Rule::ZonesFirst => "`zones` must come before `local`",
            Rule::LocalOnce =>
                "`local` may appear only once, after the nodes and before the events",
            Rule::LocalOfRouter =>
                "`local` needs a router among the nodes, as in \"node 1 router zone Lab\"",
            Rule::LocalFitsTable => "`local` has at most 1,024 names",
            Rule::NodeStands => "the setup has no node with this number",
            Rule::PlayAlone => {
                "`deliver` and `forge` are only for `play`; over sockets a node is polled, as in \"poll 5\""
            }
            Rule::NoPort => "the schedule ends without a `port` line",
            Rule::NoNet => "the schedule ends without a `net` line",
            Rule::NoRouter => "the schedule ends without a router, though its nodes have zones",
        }
    }
}
