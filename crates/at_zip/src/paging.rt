//! The page of a table from a place on: as many names as fit one packet.
ghost use Rattle.std.specs.Prelude.{◌≡◌, ◌+◌, ◌≤◌, ◌++◌, length, IfOk, IfErr, vec_capacity};
ghost use Rattle.at_zip.specs.Names.{name_spelling, spelled};
ghost use Rattle.at_zip.specs.Page.{page_of, page_user, page_data, longest_run};

use crate::fault::ZipFault;
use crate::zones::Zones;
use at_ddp::{Bytes, Pascal};
use std::alloc::{Allocator, Global};

/// The most bytes of names in a page.
pub const MAX_PAGE_DATA: usize = 578;

/// A page as it is sent: the user bytes and the data of an ATP packet.
#[derive(Drop)]
pub struct PageBytes<A: Allocator = Global> {
    pub user: [u8; 4],
    pub data_: Bytes<A>,
}

/// The page of a table that begins at a place. The first place is 1.
pub fn page<A: Allocator, B: Allocator>(
    alloc: A,
    zones: &Zones<B>,
    start: u16,
) -> Result<PageBytes<A>, ZipFault>
    requires { 1 ≤ start }
    ensures user { IfOk result (λ page. page.user ≡ page_user (page_of zones.now start)) }
    ensures names { IfOk result (λ page. page.data_ ≡ page_data (page_of zones.now start)) }
    ensures fits { IfOk result (λ page. length page.data_ ≤ 578) }
    ensures memory { IfErr result (λ fault. fault ≡ ZipFault.NoMemory) }
{
    let names = zones.names();
    let passed = (usize::from(start) - 1).min(names.len());
    let (_, left) = names.split_at(passed);
    let run = run_of(left);
    let bytes = spelled_names(alloc, run)?;
    let last = run.len() == left.len();
    let [high, low] = (run.len() as u16).to_be_bytes();
    Ok(PageBytes {
        user: [u8::from(last), 0, high, low],
        data_: Bytes::from_vec(bytes),
    })
}

/// The longest run of names, from the first on, that fits a page.
fn run_of(names: &[Pascal]) -> &[Pascal]
    ensures { result.now ≡ longest_run 578 names.now }
{
    let mut room = MAX_PAGE_DATA;
    for (index, name) in names.iter().enumerate() {
        let size = name.bytes().len() + 1;
        if size > room {
            return &names[..index];
        }
        room -= size;
    }
    names
}

/// These names as a page spells them. All memory is requested first.
fn spelled_names<A: Allocator>(alloc: A, names: &[Pascal]) -> Result<Vec<u8, A>, ZipFault>
    requires { length (spelled names.now) ≤ 578 }
    ensures ok { IfOk result (λ bytes. bytes.items ≡ spelled names.now) }
    ensures memory { IfErr result (λ fault. fault ≡ ZipFault.NoMemory) }
{
    let mut bytes = Vec::with_capacity(alloc, MAX_PAGE_DATA)?;
    for name in names {
        push_name(&mut bytes, name.bytes());
    }
    Ok(bytes)
}

/// Appends a name as a page spells it. The vector has room for it.
fn push_name<A: Allocator>(bytes: &mut Vec<u8, A>, name: &[u8])
    requires short { length name.now ≤ 32 }
    requires room { length bytes.old.items + length (name_spelling name.now) ≤ vec_capacity bytes.old }
    ensures items { bytes.new.items ≡ bytes.old.items ++ name_spelling name.now }
    ensures room { vec_capacity bytes.old ≤ vec_capacity bytes.new }
{
    bytes.push(name.len() as u8).unwrap();
    bytes.extend_from_slice(name).unwrap();
}
