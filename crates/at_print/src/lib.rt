//! What a play prints, by a printer that keeps in mind whether a write failed: reports, datagrams, packets and timers.
#![tactic(auto)]

mod digits;
pub mod laws;
mod name_lines;
mod packet_lines;
mod paper;
mod part;
mod piece;
mod print;
mod printer;
mod requesters;
mod segment_lines;
mod status;
mod text_words;

pub use packet_lines::write_header;
pub use paper::Paper;
pub use part::Part;
pub use print::{write_data, write_datagram, write_event, write_event_at, write_timer};
pub use printer::Printer;
pub use status::Status;
pub use text_words::write_text;
