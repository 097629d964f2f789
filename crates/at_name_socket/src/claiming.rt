//! Claims of names, and the end of lookups.
ghost use Rattle.std.specs.Prelude.{◌≡◌, ◌≢◌, ◌≤◌, ◌<◌, ◌↔◌, ◌||◌, ◌∷◌, [], length, find, Option, IfOk, IfErr};
ghost use Rattle.std.specs.Prelude.{IfSome, OnErr, IsErrOf, IsSome, Some, None, Err, true, false};
ghost use Rattle.std.specs.List.{position_from};
ghost use Rattle.at_ddp.specs.Sending.{Sends};
ghost use Rattle.at_name_socket.specs.NameSockets.{IsEnding, any_pattern, claim_begun, closing, finish, taker};
ghost use Rattle.at_name_socket.specs.NameSockets.{finds_told, finish_fault, is_claim};
ghost use Rattle.at_name_socket.specs.declared.claim.Claim.{Claim as Claimed};
ghost use Rattle.at_nbp.specs.Lookups.{beginning, finds_in, next_id, search_of, sent_question};
ghost use Rattle.at_nbp.specs.NameTables.{is_no_text};

use crate::claim::Claim;
use crate::socket::NameSocket;
use crate::step::Finished;
use at_ddp::{Listed, Outbox, Pascal};
use at_nbp::{Find, Name, NbpFault, Owner, copy_of, is_no_name};
use std::alloc::{AllocError, Allocator};

impl<A: Allocator + Copy> NameSocket<A> {
    /// Begins to claim a name of a socket: looks it up in every zone, and returns the identifier of the lookup.
    pub fn claim(
        &mut self,
        object: Pascal,
        kind: Pascal,
        socket: u8,
        out: &mut Outbox<A>,
    ) -> Result<u8, NbpFault>
        ensures drawn { IfOk result (λ id. next_id self.old.lookups ≡ Some id) }
        ensures state { IfOk result (λ id. self.new ≡ claim_begun self.old id object kind socket) }
        ensures sent { IfOk result (λ id. Sends out.old out.new
            (sent_question self.old.lookups (beginning id (any_pattern object kind)) ∷ [])) }
        ensures empty { IsErrOf result NbpFault.EmptyName ↔ ((is_no_text object || is_no_text kind) ≡ true) }
        ensures full { IsErrOf result NbpFault.LookupsFull
            ↔ (((is_no_text object || is_no_text kind) ≡ false) × (8 ≤ length self.old.lookups.searches)) }
        ensures free { IfErr result (λ fault. fault ≢ NbpFault.EmptyName → fault ≢ NbpFault.LookupsFull
            → IsSome (next_id self.old.lookups)) }
        ensures memory { IfErr result (λ fault. fault ≢ NbpFault.EmptyName → fault ≢ NbpFault.LookupsFull
            → fault ≡ NbpFault.NoMemory) }
        ensures unchanged { OnErr result (self.new ≡ self.old) }
        ensures nothing_sent { OnErr result (Sends out.old out.new []) }
    {
        if is_no_name(&object, &kind) {
            return Err(NbpFault::EmptyName);
        }
        let pattern = any_pattern(&object, &kind);
        if self.next_id().is_some() {
            self.claims.reserve(1)?;
        }
        let id = self.lookups.start(pattern, out)?;
        self.claims.push_reserved(Claim {
            id,
            object,
            kind,
            socket,
        });
        Ok(id)
    }

    /// Closes a lookup. A claim registers its name, if none like it was found and this node has none.
    pub fn finish(&mut self, id: u8) -> Result<Finished<A>, NbpFault>
        ensures ok { IfOk result (λ r. IsEnding (finish self.old id) r self.new) }
        ensures refuses { IfSome (finish_fault self.old id) (λ fault. result ≡ Err fault) }
        ensures memory { IfErr result (λ fault. finish_fault self.old id ≡ None → fault ≡ NbpFault.NoMemory) }
        ensures unchanged { OnErr result (self.new ≡ self.old) }
    {
        let count = self.lookups.count(id)?;
        match index_of(&self.claims, id) {
            None => {
                let finds = self.finds(id, count)?;
                self.lookups.finish(id).unwrap();
                Ok(Finished::Found(finds))
            }
            Some(index) => self.end_claim(index, id, count),
        }
    }

    /// A copy of what a lookup found so far, if it is open and no claim. The error is out of memory.
    pub fn finds_told(&self, id: u8) -> Result<Option<Listed<Find, A>>, AllocError>
        ensures copy { IfOk result (λ finds. finds ≡ finds_told self.now id) }
        ensures memory { OnErr result (IsSome (finds_told self.now id)) }
    {
        let Ok(count) = self.lookups.count(id) else {
            return Ok(None);
        };
        match index_of(&self.claims, id) {
            Some(_) => Ok(None),
            None => {
                let finds = self.finds(id, count)?;
                Ok(Some(finds))
            }
        }
    }

    // The finds of an open lookup, which has so many.
    fn finds(&self, id: u8, count: usize) -> Result<Listed<Find, A>, AllocError>
        requires { count ≡ length (finds_in (search_of self.now.lookups id)) }
        ensures { IfOk result (λ finds. finds ≡ finds_in (search_of self.now.lookups id)) }
    {
        let mut finds = Vec::with_capacity(self.alloc, count)?;
        for place in 0..count {
            finds.push(self.lookups.find(id, place).copy()).unwrap();
        }
        Ok(Listed::from_vec(finds))
    }

    // Ends the claim at an index, whose lookup has so many finds.
    fn end_claim(&mut self, index: usize, id: u8, count: usize) -> Result<Finished<A>, NbpFault>
        requires open { IsSome (search_of self.old.lookups id) }
        requires claim { position_from (is_claim id) 0 self.old.claims ≡ Some index }
        requires count { count ≡ length (finds_in (search_of self.old.lookups id)) }
        ensures ok { IfOk result (λ r. IsEnding (finish self.old id) r self.new) }
        ensures refuses { IfSome (finish_fault self.old id) (λ fault. result ≡ Err fault) }
        ensures memory { IfErr result (λ fault. finish_fault self.old id ≡ None → fault ≡ NbpFault.NoMemory) }
        ensures unchanged { OnErr result (self.new ≡ self.old) }
    {
        if let Some(find) = self.taker(&self.claims[index], count) {
            let owner = Owner::new(self.alloc, find)?;
            self.close(index, id);
            return Ok(Finished::Taken(owner));
        }
        let claim = &self.claims[index];
        let (object, kind) = (copy_of(&claim.object), copy_of(&claim.kind));
        let socket = claim.socket;
        match self.register(object, kind, socket) {
            Err(fault) => Err(fault),
            Ok(()) => {
                self.close(index, id);
                Ok(Finished::Claimed)
            }
        }
    }

    // Who has the name of a claim: the first find, or a name of the node's own.
    fn taker(&self, claim: &Claim, count: usize) -> Option<Find>
        requires { count ≡ length (finds_in (search_of self.now.lookups claim.now.id)) }
        ensures { result ≡ taker self.now (finds_in (search_of self.now.lookups claim.now.id)) claim.now }
    {
        if count > 0 {
            Some(self.lookups.find(claim.id, 0).copy())
        } else {
            self.names.find(&claim.object, &claim.kind)
        }
    }

    // Closes the lookup of the claim at an index.
    fn close(&mut self, index: usize, id: u8)
        requires open { IsSome (search_of self.old.lookups id) }
        requires claim { position_from (is_claim id) 0 self.old.claims ≡ Some index }
        ensures { self.new ≡ closing self.old id }
    {
        self.lookups.finish(id).unwrap();
        drop(self.claims.remove(index));
    }
}

// A pattern of names in every zone.
fn any_pattern(object: &Pascal, kind: &Pascal) -> Name
    ensures { result ≡ any_pattern object.now kind.now }
{
    Name {
        object: copy_of(object),
        kind: copy_of(kind),
        zone: Pascal::new(b"*").unwrap(),
    }
}

fn index_of(claims: &[Claim], id: u8) -> Option<usize>
    ensures { result ≡ position_from (is_claim id) 0 claims.now }
{
    claims.iter().position(|claim| claim.id == id)
}
