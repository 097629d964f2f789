//! What a socket answers, as an answer of a cable.
ghost use Rattle.at_udp.specs.Answers.{IsHeard, IsSent};

use at_cable::CableFault;
use std::io;
use std::io::ErrorKind;

/// The answer of a send, by what the socket answered.
pub(crate) fn sent(answer: io::Result<usize>) -> Result<(), CableFault>
    ensures { IsSent answer result }
{
    match answer {
        Ok(_) => Ok(()),
        Err(_error) => Err(CableFault),
    }
}

/// The answer of a receive, by what the socket answered. A socket for which nothing waits would block.
pub(crate) fn heard(answer: io::Result<usize>) -> Result<Option<usize>, CableFault>
    ensures { IsHeard answer result }
{
    match answer {
        Ok(count) => Ok(Some(count)),
        Err(error) if error.kind() == ErrorKind::WouldBlock => Ok(None),
        Err(_) => Err(CableFault),
    }
}
