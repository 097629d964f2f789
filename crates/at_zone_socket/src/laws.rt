//! Laws of what the part that speaks ATP receives. The functions only call the laws of the layers below: each contract
//! is a law.
ghost use Rattle.std.specs.Prelude.{◌≡◌, ◌⊎◌, ℕ, ◌^◌, ◌<◌, ◌≤◌, Bool, List};
ghost use Rattle.at_ddp.specs.Datagram.{Content as Datagram};
ghost use Rattle.at_ddp.specs.declared.address.Address.{Address};
ghost use Rattle.at_atp_frame.specs.Frames.{Request};
ghost use Rattle.at_atp_requester.specs.Requests.{Heard};
ghost use Rattle.at_zip.specs.Page.{Page, IsLawful as IsLawfulPage, page_user, page_data};
ghost use Rattle.at_zip.specs.Request.{request_user};
ghost use Rattle.at_zip.specs.Tables.{Tables, table_of};
ghost use Rattle.at_zip.specs.declared.request.TableChoice.{TableChoice};
ghost use Rattle.at_event.specs.Kinds.{Atp, Nobody, reporter_of};
ghost use Rattle.at_event.specs.Outcomes.{Outcome};
ghost use Rattle.at_event.specs.declared.Report.TheVariants.{Transactions};
ghost use Rattle.at_event.specs.declared.transactions.TransactionReport.TheVariants.{Begun};
ghost use Rattle.at_event.specs.declared.seat.Seat.{Seat};
ghost use Rattle.at_event.specs.declared.service.Reply.{Reply};
ghost use Rattle.at_zone_socket.specs.AtpHearing.{HearsAtp};
ghost use Rattle.at_zone_socket.specs.AtpParts.{AtpState};
ghost use Rattle.at_zone_socket.specs.Turning.{HasTurn};
ghost use Rattle.at_zone_socket.specs.ZoneReading.{ReadsPage, TakesPage};
ghost use Rattle.at_zone_socket.specs.ZoneSocket.{AtZones, zone_asked};
ghost use Rattle.at_zone_socket.specs.ZoneSockets.{ZoneState};

use std::alloc::Allocator;

/// A request for the page of a table from a place on is answered with that page, and no other. The page that was
/// written is the page that a reading takes.
pub fn pages_are_served_and_taken<A: Allocator>()
    ensures served { (s : Seat) (a : ZoneState) (from : Address) (tables : Tables) (which : TableChoice) (mask : ℕ)
        (xo : Bool) (timer tid start : ℕ) (bytes : List ℕ) (o : Outcome A ZoneState) → 1 ≤ start → start < 2 ^ 16
        → AtZones s a from tables (Request mask xo timer tid (request_user which start) bytes) o
        → o ≡ zone_asked s a from (Request mask xo timer tid (request_user which start) bytes)
        (table_of which tables) start }
    ensures received { (s : Seat) (a : AtpState) (h : Heard A) (from : Address) (names : List (List ℕ)) (p : Page)
        (o : Outcome A AtpState) → IsLawfulPage p
        → ReadsPage s a h from names (record { user = page_user p; data_ = page_data p }) o
        → TakesPage s a h from names p o }
{
    at_zip::laws::what_is_written_is_read();
    at_zip::laws::one_page_a_spelling();
}

/// A page of a zone table may begin a transaction, which asks for the next page, and no other datagram begins one. What
/// the part reports of a datagram is of its own protocols, or of none.
pub fn pages_alone_begin_transactions<A: Allocator>()
    ensures begins { (said : Reply A) (s : Seat) (a : AtpState) (d : Datagram) (tid : ℕ) → HasTurn a d tid
        → (o : Outcome A AtpState) × HearsAtp said s a d o
        × (o.report ≡ Transactions (Begun tid)) }
    ensures only { (said : Reply A) (s : Seat) (a : AtpState) (d : Datagram) (o : Outcome A AtpState) (tid : ℕ)
        → HearsAtp said s a d o → o.report ≡ Transactions (Begun tid) → HasTurn a d tid }
    ensures own { (said : Reply A) (s : Seat) (a : AtpState) (d : Datagram) (o : Outcome A AtpState)
        → HearsAtp said s a d o → (reporter_of o.report ≡ Atp) ⊎ (reporter_of o.report ≡ Nobody) }
{}
