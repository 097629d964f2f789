//! Tests of what no clause says and no run of the program shows: drives over a cable in memory that fails, or delivers
//! what it likes; logs of drives; what sockets do for a caller; a play of a list of events; and ends of plays that no
//! file brings about.
#![tactic(auto)]

#[cfg(test)]
mod endings;
#[cfg(test)]
mod failing;
#[cfg(test)]
mod hostile;
#[cfg(test)]
mod logs;
#[cfg(test)]
mod schedules;
#[cfg(test)]
mod sockets;
#[cfg(test)]
mod texts;
#[cfg(test)]
mod transcripts;
