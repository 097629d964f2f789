//! Laws of recordings. The functions do nothing: each contract is a law.
ghost use Rattle.std.specs.Prelude.{◌≡◌, [], All, List, None, ℕ};
ghost use Rattle.at_ddp.specs.Datagram.{canonical};
ghost use Rattle.at_ddp.specs.declared.address.Address.{Address};
ghost use Rattle.at_frames.specs.Carries.{Carries};
ghost use Rattle.at_frames.specs.EtherTalk.{ethertalk_load};
ghost use Rattle.at_pcap.specs.Readings.{IsCapture};
ghost use Rattle.at_recording.specs.Frames.{IsSending, Sending, carried, frame_of, node_address, receiver, sender};
ghost use Rattle.at_recording.specs.Recordings.{front, recording, records_of};

/// A recording is a classic capture of its records, to its end.
pub fn what_is_recorded_is_read()
    ensures { (sent : List Sending) → All IsSending sent → IsCapture (recording sent) front (records_of sent) [] None }
{
    at_pcap::laws::what_is_written_is_read();
}

/// The frame of a datagram carries that datagram, from the address of its sender to that of its receiver.
pub fn a_frame_carries_its_datagram()
    ensures { (to : ℕ) (bytes : List ℕ) → Carries 1 (frame_of to bytes)
        (ethertalk_load (receiver to) (sender bytes) (carried bytes)) }
{
    at_frames::laws::what_is_written_is_carried();
}

/// A datagram as it is spelled names the node of its sender where it is looked for.
pub fn a_datagram_names_its_sender()
    ensures { (to from : Address) (kind : ℕ) (bytes : List ℕ)
        → sender (canonical to from kind bytes) ≡ node_address from.node }
{}
