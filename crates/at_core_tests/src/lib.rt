//! Tests of the cores, of what no case shows: checksums, patterns and orders against written values, calls that the
//! program does not make, and the memory that datagrams take.
#![tactic(auto)]

#[cfg(test)]
mod allocator;
#[cfg(test)]
mod chance;
#[cfg(test)]
mod datagrams;
#[cfg(test)]
mod listed_ends;
#[cfg(test)]
mod listed_finds;
#[cfg(test)]
mod listed_names;
#[cfg(test)]
mod names;
#[cfg(test)]
mod numbers;
#[cfg(test)]
mod pages;
#[cfg(test)]
mod responder;
#[cfg(test)]
mod segments;
#[cfg(test)]
mod stream_memory;
#[cfg(test)]
mod tables;
#[cfg(test)]
mod texts;
#[cfg(test)]
mod tuples;
#[cfg(test)]
mod wraps;
#[cfg(test)]
mod zone_tables;
