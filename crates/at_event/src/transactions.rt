//! The calls, timers and reports of transactions, and the rules on their words.
ghost use Rattle.std.specs.Prelude.{◌≡◌, IfSome, IsSome, Some};
ghost use Rattle.at_event.specs.Kinds.Transactions.{IsKey, IsTransactionCall, transaction_sentence};
ghost use Rattle.at_atp_frame.specs.Fault.{number_of};
ghost use Rattle.at_atp_frame.specs.declared.fault.AtpFault.{AtpFault as Why};

use crate::packet_count::PacketCount;
use at_atp_frame::{AtpFault, Packet, ranges_of, ranges_of_bytes};
use at_atp_responder::Key;
use at_ddp::{Bytes, Listed};
use std::alloc::{Allocator, Global};

/// A call about transactions, which the node asks or answers.
#[derive(Drop)]
pub enum TransactionCall<A: Allocator = Global> {
    /// Asks a socket of the cable for packets.
    Ask {
        node: u8,
        socket: u8,
        user: [u8; 4],
        /// The data of the request, at most 578 bytes.
        data_: Bytes<A>,
        wanted: PacketCount,
        /// Whether the service is to run the request at most once.
        exactly_once: bool,
        /// How often the request may be sent again, 0 to 255 times.
        retries: u8,
    },
    /// Answers a request that was delivered to the service, by 1 to 8 packets with at most 578 bytes of data each.
    Answer {
        /// Who asked under which number, as the report of the request has it.
        key: Key,
        packets: Listed<Packet<A>, A>,
    },
}

impl<A: Allocator> TransactionCall<A> {
    pub(crate) fn ranges(&self)
        ensures { IsTransactionCall self.now }
    {
        match self {
            TransactionCall::Ask {
                node,
                socket,
                user,
                data_,
                wanted,
                ..
            } => {
                let _who = (*node, *socket);
                ranges_of_bytes(user);
                ranges_of_bytes(data_.as_slice());
                wanted.get();
            }
            TransactionCall::Answer { key, packets } => {
                ranges_of_key(*key);
                ranges_of(packets.as_slice());
            }
        }
    }
}

// Who asked, under which number.
fn ranges_of_key(key: Key)
    ensures { IsKey key }
{
    let _key = (key.from.net, key.from.node, key.from.socket, key.tid);
}

/// A timer of a transaction.
#[derive(Clone, Copy, Debug, PartialEq, Eq)]
pub enum TransactionTimer {
    /// The answer to a transaction has not come in time.
    Retry {
        tid: u16,
    },
    /// The record of an exactly-once request is to go, which the socket `own` answered, 6 or 129.
    Release {
        own: u8,
        /// Who asked, under which number.
        key: Key,
    },
}

/// How the words of a call or a timer of transactions must be.
#[derive(Clone, Copy, Debug, PartialEq, Eq)]
pub enum TransactionRule {
    /// `call N ask NODE SOCKET USER DATA WANTED alo|xo RETRIES`
    Ask,
    /// `call N answer NODE SOCKET T USER:DATA ..`
    Answer,
    /// `timer N retry T`
    Retry,
    /// `timer N release OWN NODE SOCKET T`
    Release,
}

impl TransactionRule {
    pub(crate) fn sentence(self) -> &'static str
        ensures { result.now ≡ transaction_sentence self }
    {
        match self {
            TransactionRule::Ask => {
                "`ask` takes a node, a socket, user bytes, data, 1 to 8 packets, `alo` or `xo`, and retries, \
        as in \"call 5 ask 7 129 00000000 AA 1 alo 3\""
            }
            TransactionRule::Answer => {
                "`answer` takes a node, a socket, a transaction's number and packets, \
        as in \"call 7 answer 5 128 0 00000000:BB\""
            }
            TransactionRule::Retry =>
                "`retry` takes a transaction's number, 0 to 65535, as in \"timer 5 retry 0\"",
            TransactionRule::Release => {
                "`release` takes socket 6 or 129, and a request's node, socket and number, \
        as in \"timer 7 release 129 5 128 0\""
            }
        }
    }
}

/// What transactions report.
#[derive(Drop)]
pub enum TransactionReport<A: Allocator = Global> {
    /// A transaction began under this number.
    Begun(u16),
    /// A request was answered, and so many packets were sent.
    Answered(u8),
    /// The release timer removed the record of a request.
    Expired,
    /// A new request was delivered to the service: who asked under which number, and what.
    Asked {
        key: Key,
        user: [u8; 4],
        data_: Bytes<A>,
    },
    /// A packet of an answer was kept. Others are still wanted.
    Kept,
    /// A transaction ended with these packets.
    Response {
        tid: u16,
        packets: Listed<Packet<A>, A>,
    },
    /// A transaction ended without an answer, since no retry was left.
    Failed(u16),
    /// The answer to an exactly-once request arrived complete, and is no longer kept.
    Released,
}

/// The fault of ATP that has this number.
pub(crate) fn transaction_fault(number: u8) -> Option<AtpFault>
    ensures found { IfSome result (λ fault. number_of fault ≡ Some number) }
    ensures known { (fault : Why) → number_of fault ≡ Some number → IsSome result }
{
    match number {
        10 => Some(AtpFault::ShortAtp),
        11 => Some(AtpFault::BadFunction),
        12 => Some(AtpFault::BadSequence),
        13 => Some(AtpFault::AtpTooLong),
        14 => Some(AtpFault::Full),
        15 => Some(AtpFault::NoSuch),
        16 => Some(AtpFault::EmptyAnswer),
        17 => Some(AtpFault::StillPending),
        18 => Some(AtpFault::Gone),
        _ => None,
    }
}
