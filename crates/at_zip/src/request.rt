//! Requests for a page, which are in the user bytes of an ATP request.
ghost use Rattle.std.specs.Prelude.{◌≡◌, ◌≤◌, ℕ, length, IfOk, IfErr};
ghost use Rattle.at_zip.specs.Request.{RequestSpells, code_of, request_user};
ghost use Rattle.at_zip.specs.declared.request.TableChoice.{TableChoice};

use crate::fault::ZipFault;
use byteorder::{BigEndian, ByteOrder};

/// Which of a router's two zone tables a request asks for.
#[derive(Clone, Copy, Debug, PartialEq, Eq)]
pub enum TableChoice {
    /// All zones of the internet (GetZoneList).
    All,
    /// The zones of the router's own cable (GetLocalZones).
    Local,
}

// The codes of the requests for a page.
const GET_ZONE_LIST: u8 = 8;

const GET_LOCAL_ZONES: u8 = 9;

/// The table and the place, 1 to 65,535, that a request's user bytes ask for.
pub fn read_request(user: [u8; 4]) -> Result<(TableChoice, u16), ZipFault>
    // What is read is spelled there.
    ensures found { IfOk result (λ r. RequestSpells user r.0 r.1) }
    // What is spelled there is read.
    ensures only { (which : TableChoice) (start : ℕ) → RequestSpells user which start → result ≡ Ok (which, start) }
    ensures fault { IfErr result (λ fault. fault ≡ ZipFault.NotZip) }
{
    parse(&user)
}

fn parse(user: &[u8]) -> Result<(TableChoice, u16), ZipFault>
    requires { length user.now ≡ 4 }
    ensures found { IfOk result (λ r. RequestSpells user.now r.0 r.1) }
    ensures only { (which : TableChoice) (start : ℕ) → RequestSpells user.now which start → result ≡ Ok (which, start) }
    ensures fault { IfErr result (λ fault. fault ≡ ZipFault.NotZip) }
{
    let which = match user[0] {
        GET_ZONE_LIST => TableChoice::All,
        GET_LOCAL_ZONES => TableChoice::Local,
        _ => return Err(ZipFault::NotZip),
    };
    let start = BigEndian::read_u16(&user[2..]);
    if start == 0 {
        return Err(ZipFault::NotZip);
    }
    Ok((which, start))
}

/// The user bytes of a request for the page of a table that begins at a place, 1 to 65,535.
pub fn request_user(which: TableChoice, start: u16) -> [u8; 4]
    requires { 1 ≤ start }
    ensures { result ≡ request_user which start }
{
    let [high, low] = start.to_be_bytes();
    [code_of(which), 0, high, low]
}

fn code_of(which: TableChoice) -> u8
    ensures { result ≡ code_of which }
{
    match which {
        TableChoice::All => GET_ZONE_LIST,
        TableChoice::Local => GET_LOCAL_ZONES,
    }
}
