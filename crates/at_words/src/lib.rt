//! The words of a line of text, and what a word says: a number, a text, or bytes as hexadecimal digits.
#![tactic(auto)]

mod hex_word;
mod pairs;
mod text_word;
mod word;

pub use hex_word::{HexFault, bytes_of, user_of};
pub use pairs::put_bytes;
pub use text_word::{text, zone_name};
pub use word::{Words, byte, is_word, node_number, number, positive, two_bytes};
