//! Capture files: classic pcap and pcapng, read frame by frame; classic pcap written.
#![tactic(auto)]

mod blocks;
mod fault;
mod file_header;
mod fill;
mod frame;
mod front;
mod interface;
mod kept;
pub mod laws;
mod options;
mod order;
mod packets;
mod passing;
mod pcapng;
mod reader;
mod records;
mod section;
mod written;

pub use fault::{CaptureFault, ReadError};
pub use file_header::{FILE_HEADER_LEN, FileHeader, Precision, read_file_header};
pub use frame::{FrameHeader, Time};
pub use interface::{Interface, Resolution};
pub use kept::{KeptFrame, KeptFrames};
pub use order::Order;
pub use reader::{CaptureError, Sink, read_capture};
pub use records::{MAX_CAPTURED, RECORD_HEADER_LEN, RecordHeader, read_record};
pub use written::{encode_file_header, encode_record_header};
