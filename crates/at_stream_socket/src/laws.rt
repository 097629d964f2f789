//! The law of what makes an end. The function does nothing: its contract is the law.
ghost use Rattle.std.specs.Prelude.{◌≡◌, ◌↔◌, ℕ, Some};
ghost use Rattle.at_ddp.specs.declared.address.Address.{Address};
ghost use Rattle.at_adsp_frame.specs.Segments.{Content};
ghost use Rattle.at_adsp_end.specs.Positions.{wire};
ghost use Rattle.at_adsp_ends.specs.Receiving.{made_id, received};
ghost use Rattle.at_adsp_ends.specs.Tables.{EndTable};
ghost use Rattle.at_stream_socket.specs.Hearing.{Requests};

/// A request for a connection makes an end, and no other segment does.
pub fn requests_alone_make_ends()
    ensures { (t : EndTable) (from : Address) (s : Content) (id : ℕ)
        → made_id (received wire t from s).answer ≡ Some id ↔ Requests t from s id }
{}
