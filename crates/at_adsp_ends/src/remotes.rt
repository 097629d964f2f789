//! The index of remotes, which has the identifier of each end that has a remote.
ghost use Rattle.std.specs.Prelude.{◌≡◌, ◌≤◌, ◌+◌, Some, None, if◌then◌else◌};
ghost use Rattle.indexmap.specs.IndexMap.{spare};
ghost use Rattle.at_adsp_end.specs.Ends.{same_remote};
ghost use Rattle.at_adsp_end.specs.declared.remote.Remote.{Remote as Other};
ghost use Rattle.at_adsp_ends.specs.Filed.{named};

use at_adsp_end::Remote;
use at_ddp::Address;
use indexmap::IndexMap;
use std::alloc::Allocator;
use std::hash::{BuildHasherDefault, FoldHasher};

/// Identifiers of ends, each under the address and the identifier of its remote.
pub(crate) type Remotes<A> = IndexMap<(Address, u16), u16, BuildHasherDefault<FoldHasher>, A>;

// The identifier of the end that has this remote.
pub(crate) fn id_under<A: Allocator>(remotes: &Remotes<A>, remote: Remote) -> Option<u16>
    ensures { result ≡ named remotes.now remote }
{
    remotes.get(&(remote.address, remote.id)).copied()
}

// Puts an identifier under a remote, which needs no memory.
pub(crate) fn note<A: Allocator>(remotes: &mut Remotes<A>, remote: Remote, id: u16)
    requires { 1 ≤ spare remotes.old }
    ensures under { (r : Other) → named remotes.new r
        ≡ (if same_remote r remote then Some id else named remotes.old r) }
    ensures room { spare remotes.old ≤ spare remotes.new + 1 }
{
    remotes.insert((remote.address, remote.id), id).unwrap();
}

// Takes out what is under a remote, which needs no memory.
pub(crate) fn forget<A: Allocator>(remotes: &mut Remotes<A>, remote: Remote)
    ensures under { (r : Other) → named remotes.new r
        ≡ (if same_remote r remote then None else named remotes.old r) }
    ensures room { spare remotes.old ≤ spare remotes.new }
{
    remotes.shift_remove(&(remote.address, remote.id));
}
