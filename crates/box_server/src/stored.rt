//! A server beside the keeper of its posts.
ghost use Rattle.std.specs.Prelude.{◌≡◌, ◌<◌, ◌≤◌, ◌^◌, ◌++◌, Ok, Err, IfSome, IsErrOf, length, ⊤};
ghost use Rattle.box_server.specs.Servers.{dated_at};
ghost use Rattle.box_server.specs.Keeping.{Keeps, with_more};
ghost use Rattle.box_server.specs.Rebuilding.{kept_of};
ghost use Rattle.box_server.specs.Sound.{IsSound};
ghost use Rattle.box_server.specs.Storing.{Tells};
ghost use Rattle.box_server.specs.Answering.{Opens, opened_keeper, IsOpenFailed, TakesPosts, kept_after};
ghost use Rattle.box_server.specs.declared.store_fault.StoreFault.TheVariants.{Failed};
ghost use Rattle.box_server.specs.inner.Taking.{store_answer};

use crate::entry::{Entry, Posts};
use crate::keeper::Keeper;
use crate::loading::load;
use crate::no_keeper::NoKeeper;
use crate::prepared::Prepared;
use crate::store_fault::{KeepFault, StoreFault, Unopened};
use crate::{PostFault, Posted, Server};
use std::alloc::Global;
use std::marker::Model;

/// A server, each of whose posts is kept before it is answered. The keeper's entries rebuild it, its date aside.
pub struct Stored<K: Keeper> {
    keeper: K,
    server: Server,
}

// By hand, so that each exit of an owner has one call to prove.
impl<K: Keeper + Drop> Drop for Stored<K> {
    fn drop(self) {
        let Stored {
            keeper: _,
            server: _,
        } = self;
    }
}

impl<K: Keeper> Model for Stored<K> {
    ghost use Rattle.box_server.specs.Storing.{StoredView, stored_code, Tells};

    ghost Value = { StoredView K };

    ghost coded = { stored_code K.code };

    ghost view = { λ s. record { keeper = s.keeper; server = s.server } };

    ghost invariant = { λ s. Tells (K.state s.keeper).entries s.server };
}

impl<K: Keeper> Stored<K> {
    /// Opens a store: the server that the keeper's entries rebuild. An entry that isn't accepted is told by its number.
    pub fn open(alloc: Global, keeper: K) -> Result<Stored<K>, Unopened<K>>
        ensures opens { IfSome (K.state keeper).entries (λ es. Opens es result) }
        ensures entries { (K.state (opened_keeper result)).entries ≡ (K.state keeper).entries }
        ensures used { Keeps (K.state keeper) (K.state (opened_keeper result)) (IsOpenFailed result) (λ _. ⊤) }
    {
        let mut keeper = keeper;
        let mut server = Server::new(alloc);
        match load(&mut keeper, &mut server) {
            Ok(()) => Ok(Stored { keeper, server }),
            Err(fault) => Err(Unopened { keeper, fault }),
        }
    }

    /// Takes posts as the server does. New ones are kept first, once nothing else can fail: where the keeper fails, or memory runs out, the server is
    /// as before, and nothing is answered. A keeper that tells no entries may have the new one although it failed: open it anew then, and take no more
    /// posts by this store.
    pub fn post(&mut self, random_id: i64, posts: Posts) -> Result<Posted, StoreFault>
        ensures posts { TakesPosts self.old random_id posts result self.new }
        ensures sound { IsSound self.old.server }
        ensures entries { (K.state self.new.keeper).entries ≡ with_more (kept_after self.old random_id posts result) (K.state self.old.keeper).entries }
        ensures used { Keeps (K.state self.old.keeper) (K.state self.new.keeper) (IsErrOf result Failed) (λ es. length (es ++ kept_of self.old.server random_id posts) ≤ (K.state self.old.keeper).room) }
    {
        let prepared = match self.server.prepare(random_id, posts.as_slice()) {
            Ok(prepared) => prepared,
            Err(PostFault::Memory) => return Err(StoreFault::Memory),
            Err(fault) => return Err(StoreFault::Refused { fault }),
        };
        match prepared {
            Prepared::Known { receipt } => Ok(Posted {
                receipt,
                push: None,
            }),
            Prepared::New { keys, draft } => {
                let entry = Entry {
                    date: self.server.state().date,
                    random_id,
                    posts,
                };
                store_answer(self.server.take(keys, draft, &mut self.keeper, entry))
            }
        }
    }

    /// The clock shows a date, in seconds. It is not kept.
    pub fn set_date(&mut self, date: u32)
        requires { date < 2 ^ 31 }
        ensures server { self.new.server ≡ dated_at self.old.server date }
        ensures keeper { self.new.keeper ≡ self.old.keeper }
    {
        self.server.set_date(date);
    }

    /// The server.
    pub fn server(&self) -> &Server
        ensures server { result.now ≡ self.now.server }
        ensures rebuilt { Tells (K.state self.now.keeper).entries self.now.server }
    {
        &self.server
    }

    /// The keeper alone.
    pub fn into_keeper(self) -> K
        ensures keeper { result ≡ self.keeper }
        ensures rebuilt { Tells (K.state self.keeper).entries self.server }
    {
        let Stored { keeper, server: _ } = self;
        keeper
    }
}

// What a store answers where its server took a draft, or didn't.
fn store_answer(taken: Result<Posted, KeepFault>) -> Result<Posted, StoreFault>
    ensures { result ≡ store_answer taken }
{
    match taken {
        Ok(posted) => Ok(posted),
        Err(KeepFault::Failed) => Err(StoreFault::Failed),
        Err(KeepFault::Memory) => Err(StoreFault::Memory),
    }
}

impl Stored<NoKeeper> {
    /// A server whose posts aren't kept.
    pub fn over(server: Server) -> Stored<NoKeeper>
        ensures { result.server ≡ server }
    {
        Stored {
            keeper: NoKeeper,
            server,
        }
    }

    /// The server alone.
    pub fn into_server(self) -> Server
        ensures { result ≡ self.server }
    {
        let Stored { keeper: _, server } = self;
        server
    }
}
