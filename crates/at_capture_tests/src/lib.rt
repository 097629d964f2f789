//! Tests of capture files, of frames and of what is printed of them, of what no clause says: written bytes against the
//! formats, readers that split the bytes, reads that fail, and memory that is refused.
#![tactic(auto)]

#[cfg(test)]
mod captures;
#[cfg(test)]
mod frames;
#[cfg(test)]
mod pcapng;
#[cfg(test)]
mod pieces;
#[cfg(test)]
mod printing;
