//! Entries, posted to a server in order.
ghost use Rattle.std.specs.Prelude.{◌≡◌, IfOk, IfSome, IsErrOf, ⊤};
ghost use Rattle.box_server.specs.Servers.{new_server};
ghost use Rattle.box_server.specs.Keeping.{Keeps};
ghost use Rattle.box_server.specs.inner.Loading.{Loads, Accepted};

use crate::entry::Entry;
use crate::keeper::Keeper;
use crate::store_fault::{GetFault, OpenFault};
use crate::{PostFault, Server};
use std::alloc::AllocError;
use tl_base::Memory;

// Sets an entry's date and posts its posts. Tells whether they were accepted.
fn accept(server: &mut Server, entry: &Entry) -> Result<bool, Memory>
    ensures { IfOk result (λ b. Accepted b server.old entry.now server.new) }
{
    if entry.date < server.state().date || entry.date >= 1 << 31 {
        return Ok(false);
    }
    server.set_date(entry.date);
    match server.post(entry.random_id, entry.posts.as_slice()) {
        Ok(posted) => Ok(posted.push.is_some()),
        Err(PostFault::Memory) => Err(AllocError),
        Err(_) => Ok(false),
    }
}

/// Posts all entries to an empty server.
pub fn load<K: Keeper>(keeper: &mut K, server: &mut Server) -> Result<(), OpenFault>
    requires { server.old ≡ new_server }
    ensures loads { IfSome (K.state keeper.old).entries (λ es. Loads es server.new result) }
    ensures entries { (K.state keeper.new).entries ≡ (K.state keeper.old).entries }
    ensures used { Keeps (K.state keeper.old) (K.state keeper.new) (IsErrOf result OpenFault.Failed) (λ _. ⊤) }
{
    let count = keeper.count()?;
    let mut n = 0u32;
    while n < count {
        let entry = match keeper.get(n) {
            Ok(entry) => entry,
            Err(GetFault::Failed) => return Err(OpenFault::Failed),
            Err(GetFault::Memory) => return Err(OpenFault::Memory),
        };
        if !accept(server, &entry)? {
            return Err(OpenFault::BadEntry { n });
        }
        n += 1;
    }
    Ok(())
}
