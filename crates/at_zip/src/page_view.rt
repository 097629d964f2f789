//! A page that was read. Its names stay in the data that came.
ghost use Rattle.std.specs.Prelude.{◌≡◌, ◌+◌, ◌≤◌, ◌++◌, length, IfOk, IfErr, vec_capacity};
ghost use Rattle.at_zip.specs.Fault.{IsFirstFault};
ghost use Rattle.at_zip.specs.Page.{Page, Spells, IsLawful};
ghost use Rattle.at_zip.specs.declared.fault.ZipFault.{ZipFault};

use crate::fault::ZipFault;
use crate::names::{check_names, take_name};
use at_ddp::{Listed, Pascal};
use byteorder::{BigEndian, ByteOrder};
use std::alloc::{AllocError, Allocator};
use std::marker::Model;

/// A page that was read. Its names stay in the data that it was read from.
#[derive(Drop)]
pub struct PageView<'a> {
    last: bool,
    count: u16,
    bytes: &'a [u8],
}

impl<'a> Model for PageView<'a> {
    ghost use Rattle.at_zip.specs.Page.{Page as Names};

    ghost Value = { Names };

    ghost use Rattle.at_zip.specs.PageView.{cut, IsFront};

    ghost view = { λ v. record { last = v.last; names = cut v.count v.bytes.now } };

    ghost invariant = { λ v. IsFront (record { last = v.last; names = cut v.count v.bytes.now }) v.count v.bytes.now };
}

impl<'a> PageView<'a> {
    /// Whether this is the last page of the table.
    pub fn is_last(&self) -> bool
        ensures { result ≡ self.now.last }
    {
        self.last
    }

    /// How many names the page has.
    pub fn count(&self) -> usize
        ensures count { result ≡ length self.now.names }
        ensures lawful { IsLawful self.now }
    {
        usize::from(self.count)
    }

    /// A list of the names, in order. All memory is requested first.
    pub fn to_list<A: Allocator>(&self, alloc: A) -> Result<Listed<Pascal, A>, AllocError>
        ensures { IfOk result (λ list. list ≡ self.now.names) }
    {
        let mut list = Vec::with_capacity(alloc, self.count())?;
        self.push_names(&mut list);
        Ok(Listed::from_vec(list))
    }

    // Appends the names, in order. The vector has room for them.
    pub(crate) fn push_names<A: Allocator>(&self, list: &mut Vec<Pascal, A>)
        requires { length list.old.items + length self.now.names ≤ vec_capacity list.old }
        ensures names { list.new.items ≡ list.old.items ++ self.now.names }
        ensures lawful { IsLawful self.now }
    {
        let mut rest = self.bytes;
        for _ in 0..self.count {
            let (name, after) = take_name(rest).unwrap();
            list.push(Pascal::new(name).unwrap()).unwrap();
            rest = after;
        }
    }
}

/// Reads the page in an answer's user bytes and data. Bytes after the counted names are not read.
pub fn read_page(user: [u8; 4], bytes: &[u8]) -> Result<PageView<'_>, ZipFault>
    // What is read is spelled there.
    ensures found { IfOk result (Spells user bytes.now) }
    // What is spelled there is read.
    ensures only { (p : Page) → Spells user bytes.now p → result ≡ Ok p }
    // The refusal is the first fault of these bytes, and bytes with a fault are refused.
    ensures fault { IfErr result (λ fault. IsFirstFault fault user bytes.now) }
    ensures refused { (fault : ZipFault) → IsFirstFault fault user bytes.now → result ≡ Err fault }
{
    parse(&user, bytes)
}

fn parse<'a>(user: &[u8], bytes: &'a [u8]) -> Result<PageView<'a>, ZipFault>
    requires { length user.now ≡ 4 }
    ensures found { IfOk result (Spells user.now bytes.now) }
    ensures fault { IfErr result (λ fault. IsFirstFault fault user.now bytes.now) }
{
    let last = user[0] != 0;
    let count = BigEndian::read_u16(&user[2..]);
    if !last && count == 0 {
        return Err(ZipFault::EmptyPage);
    }
    check_names(count, bytes)?;
    Ok(PageView { last, count, bytes })
}
