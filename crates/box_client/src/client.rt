//! Clients.
ghost use Rattle.std.specs.Prelude.{◌≡◌, ◌≤◌, OnOk, OnErr, IfOk, IfErr};
ghost use Rattle.channel_box.specs.States.{states};
ghost use Rattle.box_client.specs.States.{ClientState, new_client, HasOneMode};
ghost use Rattle.box_client.specs.Pushes.{pushed};
ghost use Rattle.box_client.specs.Replies.{replied};
ghost use Rattle.box_client.specs.Asking.{ticks, wakes, restarted, is_one_asking};
ghost use Rattle.box_client.specs.Ranges.{IsPushInRange, IsReplyInRange, IsSavedInRange};
ghost use Rattle.box_client.specs.Saving.{saved_of};
ghost use Rattle.box_client.specs.Loads.{IsLoadedAs, IsCauseOf, IsRestartOf};
ghost use Rattle.box_client.specs.Messages.{HasMessages};
ghost use Rattle.box_client.specs.declared.loading.TheConstants.{MAX_NEXT};
ghost use Rattle.box_client.specs.Calls.{Answers, WatchesOne};

use crate::fault::{ClientFault, LoadFault, ReplyOutcome};
use crate::parts::ClientParts;
use crate::{asking, loading, pushing, replying, saving};
use box_events::{Asks, Event, Push, Reply, Saved};
use channel_box::{Channels, WatchFault};
use pts_machine::{Lane, Mode, Settings};
use std::alloc::Global;
use std::marker::Model;
use tl_base::{Fault, Memory};

/// A client: what it has of the common box, of the secret box and of the settings, and the channels that it watches.
pub struct Client {
    parts: ClientParts,
}

// By hand, so that each exit of an owner has one call to prove.
impl Drop for Client {
    fn drop(self) {
        let Client { parts: _ } = self;
    }
}

impl Model for Client {
    ghost use Rattle.box_client.specs.States.{ClientState, client_code};
    ghost use Rattle.box_client.specs.Insides.{view_of, IsWhole};

    ghost Value = { ClientState };

    ghost coded = { client_code };

    ghost view = { view_of };

    ghost invariant = { IsWhole };
}

impl Client {
    /// A client that has heard of nothing. Its first request has number 1.
    pub fn new(alloc: Global) -> Client
        ensures { result ≡ new_client }
    {
        Client {
            parts: ClientParts {
                next: 1,
                common: Lane::new(alloc),
                secret: Lane::new(alloc),
                settings: Settings::new(alloc),
                flag: false,
                channels: Channels::new(alloc),
            },
        }
    }

    /// Watches a channel from now on, last in order.
    pub fn watch(&mut self, alloc: Global, id: i64) -> Result<(), WatchFault>
        ensures step { WatchesOne self.old id result self.new }
    {
        self.parts.channels.watch(alloc, id)
    }

    /// A push comes. All memory is taken first.
    pub fn hear_push(&mut self, alloc: Global, push: Push) -> Result<(), Memory>
        requires range { IsPushInRange push }
        ensures ok { OnOk result (self.new ≡ pushed self.old push) }
        ensures err { OnErr result (self.new ≡ self.old) }
    {
        pushing::hear_push(&mut self.parts, alloc, push)
    }

    /// The answer to the request of a number comes. All memory is taken first.
    pub fn hear_reply(
        &mut self,
        alloc: Global,
        number: u32,
        reply: Reply,
    ) -> Result<ReplyOutcome, Fault<ClientFault>>
        requires range { IsReplyInRange reply }
        ensures step { Answers self.old (replied self.old number reply) result self.new }
    {
        replying::hear_reply(&mut self.parts, alloc, number, reply)
    }

    /// Puts the requests of all that is due in place of those that stand in `asks`: 65 at most.
    pub fn tick(&mut self, asks: &mut Asks)
        requires limit { self.old.next ≤ 2147483582 }
        ensures step { self.new ≡ (ticks self.old).client }
        ensures asks { asks.new ≡ (ticks self.old).asks }
    {
        asking::tick(&mut self.parts, asks);
    }

    /// All is to be asked about.
    pub fn wake(&mut self)
        ensures step { self.new ≡ wakes self.old }
    {
        asking::wake(&mut self.parts);
    }

    /// What is held goes, no answer is waited for, and all is to be asked about. Request numbers go on.
    pub fn restart(&mut self)
        ensures step { self.new ≡ restarted self.old }
    {
        asking::restart(&mut self.parts);
    }

    /// Whether an answer is waited for.
    pub fn asking(&self) -> bool
        ensures { result ≡ is_one_asking self.now }
    {
        let group = match self.parts.common.mode() {
            Mode::Asking(_) => true,
            Mode::Live => false,
            Mode::Again => false,
        };
        group || self.parts.channels.asking()
    }

    /// The number of the next request.
    pub fn next(&self) -> u32
        ensures value { result ≡ self.now.next }
        ensures low { 1 ≤ result }
        ensures mode { HasOneMode self.now }
    {
        self.parts.next
    }

    pub fn common(&self) -> &Lane<Event>
        ensures { result.now.state ≡ self.now.common }
    {
        &self.parts.common
    }

    pub fn secret(&self) -> &Lane<Event>
        ensures value { result.now.state ≡ self.now.secret }
        ensures messages { HasMessages self.now.secret }
    {
        &self.parts.secret
    }

    pub fn settings(&self) -> &Settings
        ensures { result.now.state ≡ self.now.settings }
    {
        &self.parts.settings
    }

    pub fn channels(&self) -> &Channels
        ensures { states result.now ≡ self.now.channels }
    {
        &self.parts.channels
    }

    /// What the client saves: all but what it holds, its modes and its flags. Loaded it is the client after a restart, as long as the
    /// next number isn't too high for that.
    pub fn save(&self, alloc: Global) -> Result<Saved, Memory>
        ensures value { IfOk result (λ saved. saved ≡ saved_of self.now) }
        ensures range { IfOk result IsSavedInRange }
        ensures loads { self.now.next ≤ MAX_NEXT → IfOk result (IsRestartOf self.now) }
    {
        saving::save(&self.parts, alloc)
    }

    /// A client of what was saved, or the first cause why there is none: the next number, a lane, the order of settings, the channels.
    /// What a client saved is that client after a restart. Where there would be 2^31 settings, there is no memory.
    pub fn load(alloc: Global, saved: Saved) -> Result<Client, LoadFault>
        requires range { IsSavedInRange saved }
        ensures ok { IfOk result (IsLoadedAs saved) }
        ensures err { IfErr result (IsCauseOf saved) }
        ensures restarts { (c : ClientState) → saved ≡ saved_of c → IfOk result (λ loaded. loaded ≡ restarted c) }
    {
        let parts = loading::load(alloc, saved)?;
        Ok(Client { parts })
    }
}
