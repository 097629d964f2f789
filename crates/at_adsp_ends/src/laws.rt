//! Laws of a table of ends. The functions do nothing: each contract is a law.
ghost use Rattle.std.specs.Prelude.{◌≡◌, ◌≤◌, ℕ, IfOk, List, length, None};
ghost use Rattle.std.specs.List.{AllByRecursion};
ghost use Rattle.at_ddp.specs.declared.address.Address.{Address};
ghost use Rattle.at_adsp_frame.specs.Segments.{Content};
ghost use Rattle.at_adsp_end.specs.Ends.{FitsRooms};
ghost use Rattle.at_adsp_end.specs.Positions.{wire};
ghost use Rattle.at_adsp_end.specs.declared.item.Item.{Item as Entry};
ghost use Rattle.at_adsp_end.specs.declared.change.EndChange.TheVariants.{Ignored};
ghost use Rattle.at_adsp_end.specs.declared.tick.Tick.{Tick as Timer};
ghost use Rattle.at_adsp_ends.specs.Calls.{closed_at, connected, read_at, reset_at, ticked_at, wrote};
ghost use Rattle.at_adsp_ends.specs.Openings.{ignored};
ghost use Rattle.at_adsp_ends.specs.Receiving.{received};
ghost use Rattle.at_adsp_ends.specs.Tables.{EndTable, IsId, SendsFew, by_id, next_id};

/// A table has no identifier to give only if it has 16 ends.
pub fn below_16_an_identifier_is_free()
    ensures { (t : EndTable) → IsId t.next → next_id t ≡ None → 16 ≤ length t.ends }
{}

/// A segment that is ignored changes nothing and sends nothing.
pub fn what_is_ignored_does_nothing()
    ensures { (t : EndTable) (from : Address) (segment : Content)
        → (received wire t from segment).answer ≡ Ignored → received wire t from segment ≡ ignored t }
{}

/// A segment makes a table send no more segments than the queues of one end have room for items, twice.
pub fn few_segments_are_sent()
    ensures { (t : EndTable) (from : Address) (segment : Content) → AllByRecursion FitsRooms t.ends
        → SendsFew (received wire t from segment) }
{}

/// So does each call, and each timer.
pub fn few_segments_are_sent_by_calls()
    ensures connected { (t : EndTable) (to : Address) → IfOk (connected t to (next_id t)) SendsFew }
    ensures closed { (t : EndTable) (id : ℕ) → IfOk (closed_at wire t (by_id t id)) SendsFew }
    ensures read { (t : EndTable) (id count : ℕ) → IfOk (read_at wire t count (by_id t id)) SendsFew }
    ensures reset { (t : EndTable) (id : ℕ) → IfOk (reset_at wire t (by_id t id)) SendsFew }
    ensures wrote { (t : EndTable) (id : ℕ) (items : List Entry) → AllByRecursion FitsRooms t.ends
        → IfOk (wrote wire t items (by_id t id)) SendsFew }
    ensures ticked { (t : EndTable) (id : ℕ) (tick : Timer) → AllByRecursion FitsRooms t.ends
        → IfOk (ticked_at wire t tick (by_id t id)) SendsFew }
{}
