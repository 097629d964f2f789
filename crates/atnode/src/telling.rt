//! What the program itself tells a person on standard error. The status does not depend on whether that can be written.
use std::io::Write;

/// The page for a command line that asks for nothing.
const PAGE: &str =
    "atnode 0.1 plays schedules of AppleTalk nodes on one cable, drives nodes over UDP, and shows datagrams.

  atnode play FILE      plays a schedule, and prints what each event comes to
  atnode record FILE    plays a schedule, and writes a capture of all that is sent
  atnode udp FILE       drives the nodes of a schedule over UDP on this machine, and prints the same
  atnode show HEX       shows a datagram, or tells the first rule that it breaks
  atnode capture FILE   shows each frame of a capture, and the datagram that it carries

FILE is a schedule as text, one line for each event; `-` is standard input.
For `capture` FILE is a pcap or a pcapng file, as tcpdump, Wireshark or `record` write it.
HEX is the bytes of a datagram as one word of hexadecimal digits, two for each byte; `-` is no bytes.

For example:

  atnode show 00156711000A000A01050680034001000008000001
";

/// Tells how the program is called.
pub(crate) fn tell_usage<E: Write>(errors: &mut E) {
    let _told = errors.write_all(PAGE.as_bytes());
}

/// Tells a sentence, as one line.
pub(crate) fn tell<E: Write>(errors: &mut E, sentence: &str) {
    let _told = writeln!(errors, "atnode: {sentence}");
}
