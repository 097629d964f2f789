//! The showing of one datagram, which is given as bytes or in hexadecimal digits.
#![tactic(auto)]

mod hex_reason;
mod show;
mod word;

pub use show::{show_bytes, show_data, show_first, show_refusal, show_text};
pub use word::show_word;
