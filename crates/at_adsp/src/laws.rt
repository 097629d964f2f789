//! The laws of a network of ends of streams. The functions do nothing: each contract is a law.
ghost use Rattle.std.specs.Prelude.{◌≡◌, ℕ, ◌+◌, ◌<◌, ◌≤◌, ◌^◌, true, List, [], ◌∷◌, length, Some, None, Ok};
ghost use Rattle.std.specs.List.{AllByRecursion};
ghost use Rattle.at_adsp.specs.Cables.{few_segments, wire_numbered};
ghost use Rattle.at_adsp.specs.Connections.{ChangesStreams, streams};
ghost use Rattle.at_adsp.specs.Lawfully.{IsInRange, IsLawfulSetting, IsLawfullySent};
ghost use Rattle.at_adsp.specs.Meetings.{NamesPeer, OpensWith, ReadsWith};
ghost use Rattle.at_adsp.specs.Moving.{NeverMovesBack};
ghost use Rattle.at_adsp.specs.Nearness.{AllNear, HasWindows};
ghost use Rattle.at_ddp.specs.Posts.{AllSent, packet_at};
ghost use Rattle.at_adsp.specs.Network.{Setting, Sent, Happening, Reads, Takes, AllTimely, after};
ghost use Rattle.at_adsp.specs.Network.{done};
ghost use Rattle.at_adsp.specs.Orders.{IsNoReset, ReadsBeginnings, ReadsInOrder, whole_numbered};
ghost use Rattle.at_adsp.specs.Pairs.{GivesPairs, HappensHere};
ghost use Rattle.at_adsp.specs.Wires.{wired, wired_number, wired_outcome};
ghost use Rattle.at_adsp.specs.Numbered.{numbered_within};
ghost use Rattle.at_adsp_end.specs.Ends.{EndState, free, has_opened};
ghost use Rattle.at_adsp_end.specs.Hearing.{Told, heard, rest, taken};
ghost use Rattle.at_adsp_end.specs.Positions.{whole, wire};
ghost use Rattle.at_adsp_end.specs.declared.change.EndChange.TheVariants.{Opened};
ghost use Rattle.at_adsp_end.specs.declared.item.Item.{Item};
ghost use Rattle.at_adsp_ends.specs.Calls.{read_at};
ghost use Rattle.at_adsp_ends.specs.Receiving.{received};
ghost use Rattle.at_adsp_ends.specs.Tables.{Done, EndTable, IdsDiffer, by_id};
ghost use Rattle.at_ddp.specs.declared.address.Address.{Address};

pub use at_adsp_frame::laws::{what_is_written_fits, what_is_written_is_read};

/// Segments may be lost, repeated or reordered, but none outlives an identifier that it carries. No identifier is drawn
/// while an end that exists names it. Then ends that open are paired: each names the other's address and identifier,
/// and one was made by listening at the address that the other asked. An end that has a peer was opened with it. The
/// peer of one that listening made has it as its peer. Two ends with one peer are one. All this holds whatever comes
/// from other addresses, whatever the numbers of segments are, and also of two ends at one address.
pub fn ends_that_are_open_are_paired()
    ensures { (setting : Setting) (history : List Happening) → AllTimely setting history
        → GivesPairs setting (after setting history) }
{}

/// Where all happens at our addresses, an end that is open, or was, asked one of them, or was asked from one. So it is
/// paired, by the law above, if the history is timely. This law needs no timely one, and holds whatever the numbers of
/// segments are.
pub fn an_end_that_opened_asked_one_of_ours()
    ensures { (setting : Setting) (history : List Happening) → AllByRecursion (HappensHere setting) history
        → (at : Address) (id : ℕ) (e : EndState) → by_id ((after setting history).tables at) id ≡ Some e
        → has_opened e.phase ≡ true → setting.ours e.asked ≡ true }
{}

/// All that is sent can be spelled, if what is called is in range.
pub fn what_is_sent_is_lawful()
    ensures { (setting : Setting) (history : List Happening)
        → IsLawfulSetting setting → AllByRecursion IsInRange history
        → AllSent IsLawfullySent (after setting history).sent }
{}

/// Each happening leaves the ends as their users see them, or makes one without a peer, or opens one, which may have a
/// peer then. The step of a segment says which.
pub fn streams_change_by_one()
    ensures { (setting : Setting) (history : List Happening) (h : Happening) → AllTimely setting history
        → ChangesStreams setting (after setting history) h }
{}

/// Where all happens at our addresses, an end that a segment opens had no peer, and has one from then on. If it asked,
/// listening made the peer where it asked, and no other end has that peer. If listening made it, the peer asked, and
/// has it as its peer. All this holds of timely histories, whatever the numbers of segments are.
pub fn an_end_that_opens_has_a_peer()
    ensures { (setting : Setting) (history : List Happening) (datagram id : ℕ) (s : Sent)
        → AllTimely setting (Takes datagram ∷ history) → AllByRecursion (HappensHere setting) history
        → packet_at (after setting history).sent datagram ≡ Some s
        → (received setting.numbers ((after setting history).tables s.to) s.from s.packet).answer ≡ Opened id
        → OpensWith (streams (after setting history)) (streams (done setting (after setting history) (Takes datagram)))
        s.to id }
{}

/// Where all happens at our addresses, an end that opened names its peer. Its remote is the address and the identifier
/// of that end, and no end got them since. All this holds of timely histories, whatever the numbers of segments are.
pub fn an_end_that_opened_names_its_peer()
    ensures { (setting : Setting) (history : List Happening) → AllTimely setting history
        → AllByRecursion (HappensHere setting) history → (at : Address) (id : ℕ) (e : EndState)
        → by_id ((after setting history).tables at) id ≡ Some e → has_opened e.phase ≡ true
        → NamesPeer (streams (after setting history)) at e }
{}

/// What is read from an end that has a peer was written at the peer, in this order. Only a reset of the writer may be
/// passed, with what was written before it. All this holds where segments are lost, repeated or reordered, whatever
/// comes from other addresses, and also of ends that are closed or freed, and of two ends at one address. The numbers
/// of segments are as large as they need to be.
pub fn what_is_read_was_written_in_order()
    ensures { (setting : Setting) (history : List Happening) → AllTimely (whole_numbered setting) history
        → ReadsInOrder (after (whole_numbered setting) history) }
{}

/// Where no stream is reset, what is read from an end that has a peer begins what was written at the peer.
pub fn what_is_read_begins_what_was_written()
    ensures { (setting : Setting) (history : List Happening) → AllTimely (whole_numbered setting) history
        → AllByRecursion IsNoReset history → ReadsBeginnings (after (whole_numbered setting) history) }
{}

/// On the cable numbers come round. There, too, what is read from an end that has a peer was written at the peer, in
/// this order, and streams may be of any length. But each segment of an end that is for one of our addresses comes
/// before that end has given 2^31 more items numbers, or received 2^31 more. Resets may be passed as above. All this
/// holds whatever comes from other addresses, with any numbers, and also of two ends at one address.
pub fn what_is_read_on_the_cable_was_written_in_order()
    ensures { (setting : Setting) (history : List Happening) → HasWindows setting
        → AllTimely (wire_numbered setting) history → AllNear (wire_numbered setting) history
        → ReadsInOrder (after (wire_numbered setting) history) }
{}

/// Where no stream is reset, what is read on the cable, too, begins what was written.
pub fn what_is_read_on_the_cable_begins_what_was_written()
    ensures { (setting : Setting) (history : List Happening) → HasWindows setting
        → AllTimely (wire_numbered setting) history → AllNear (wire_numbered setting) history
        → AllByRecursion IsNoReset history → ReadsBeginnings (after (wire_numbered setting) history) }
{}

/// Where few segments are sent, each comes as near its end as the two laws above require.
pub fn few_segments_are_near()
    ensures { (setting : Setting) (history : List Happening) → HasWindows setting
        → AllTimely (wire_numbered setting) history
        → length (after (wire_numbered setting) history).sent ≤ few_segments
        → AllNear (wire_numbered setting) history }
{}

/// Where all happens at our addresses, an end that is read has a peer. If what is read from ends that have peers was
/// written at the peers in order, as by the laws above, all that was read of this end so far, and what is read of it
/// now, reads from what was written at its peer.
pub fn what_is_read_reads_from_a_peer()
    ensures { (setting : Setting) (history : List Happening) (at : Address) (id count : ℕ) (d : Done (List Item))
        → AllTimely setting history → AllByRecursion (HappensHere setting) history
        → read_at setting.numbers ((after setting history).tables at) count
        (by_id ((after setting history).tables at) id) ≡ Ok d
        → ReadsInOrder (after setting (Reads at id count ∷ history))
        → ReadsWith (streams (after setting history)) at id d.answer }
{}

/// An end takes an item of a segment if and only if the item's number is not before the next that it expects, and lies
/// within its free room. Of a segment that begins past the expected number it takes none.
pub fn items_are_taken_by_their_numbers()
    ensures taken { (e : EndState) (first : ℕ) (items : List Item) → first ≤ e.receiver.received
        → taken e (rest items (whole.ahead first e.receiver.received))
        ≡ numbered_within e.receiver.received (free e) first items }
    ensures beyond { (e : EndState) (first : ℕ) (items : List Item) → e.receiver.received < first
        → taken e (rest items (whole.ahead first e.receiver.received)) ≡ [] }
{}

/// Once it is known how far the numbers of a segment lie from those of an end, hearing it is the same with the numbers
/// of the cable as with numbers of any size.
pub fn what_is_heard_is_the_same_on_the_cable()
    ensures { (e : EndState) (t : Told) → heard wire (wired e) t ≡ wired_outcome (heard whole e t) }
{}

/// Numbers that are less than 2^31 apart are told apart on the cable: one that lies ahead is ahead by as much, and one
/// that lies behind is not ahead.
pub fn near_numbers_are_told_apart_on_the_cable()
    ensures ahead { (a d : ℕ) → d < 2 ^ 31 → wire.ahead (wired_number a) (wired_number (a + d)) ≡ Some d }
    ensures behind { (b d : ℕ) → 0 < d → d < 2 ^ 31 → wire.ahead (wired_number (b + d)) (wired_number b) ≡ None }
{}

/// No segment, call or tick moves the numbers of an end back: the number of the first item that is not acknowledged,
/// that of the first that may not be sent yet, and that of the next that is expected. On the cable numbers come round;
/// but none goes on by more than was queued, than the segment's window, and than was free. A new end may have the
/// identifier of one that was freed.
pub fn ends_never_move_back()
    ensures whole { (t : EndTable) → IdsDiffer t.ends → NeverMovesBack whole t }
    ensures cable { (t : EndTable) → IdsDiffer t.ends → NeverMovesBack wire t }
{}
