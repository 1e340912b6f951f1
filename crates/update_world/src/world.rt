//! Worlds.
ghost use Rattle.std.specs.Prelude.{◌≡◌, ◌<◌, ◌≤◌, [], IfOk, Option, length, slice_get};
ghost use Rattle.box_server.specs.Servers.{new_server, state_of};
ghost use Rattle.box_wire.specs.StepReading.{IsDated};
ghost use Rattle.wire_profile.specs.Profiles.{IsProfile};
ghost use Rattle.box_world.specs.Worlds as worlds;
ghost use Rattle.box_world.specs.Worlds.{new_clients};
ghost use Rattle.update_world.specs.Shown.{IsOfRun, StandsFor, bytes_of};
ghost use Rattle.update_world.specs.Stepping.{AnswersAgain, Happens};
ghost use Rattle.update_world.specs.declared.limits.TheConstants.{MAX_CLIENTS, MAX_POOL_BYTES};
ghost use Rattle.update_world.specs.inner.Making.{IsSteady, Makes, shown_by, spoil_of};

use crate::client_steps::{hear, restart, tick, wake, watch};
use crate::limits::MAX_CLIENTS;
use crate::outcome::Outcome;
use crate::parts::WorldParts;
use crate::pool::Pool;
use crate::sent::SentPacket;
use crate::server_steps::{channel_too_long, date, post, serve, too_long};
use box_client::Client;
use box_events::{State, Step};
use box_server::Server;
use box_world::StepFault;
use std::alloc::{AllocError, Global};
use std::marker::Model;
use tl_base::{Fault, Memory};
use wire_profile::Profile;

/// The world of a replay: a server, its clients, and the bytes of every message that was sent. It stands for the run of some possible steps,
/// until `PoolFull` or `Memory` spoils it.
pub struct World<'s> {
    profile: Profile<'s>,
    parts: WorldParts,
    spoiled: Option<Fault<StepFault>>,
}

// By hand, so that each exit of an owner has one call to prove.
impl Drop for World<'_> {
    fn drop(self) {
        let World {
            profile: _,
            parts: _,
            spoiled: _,
        } = self;
    }
}

impl<'s> Model for World<'s> {
    ghost use Rattle.update_world.specs.Shown.{Shown};
    ghost use Rattle.update_world.specs.inner.Codes.{shown_code};
    ghost use Rattle.update_world.specs.inner.Insides.{IsWorld, shown_of};

    ghost Value = { Shown };

    ghost coded = { shown_code };

    ghost view = { shown_of };

    ghost invariant = { IsWorld };
}

impl<'s> World<'s> {
    /// A new server and so many new clients, 1 to 16, over a schema's bytes. Nothing was sent.
    pub fn new(alloc: Global, profile: Profile<'s>, clients: u32) -> Result<World<'s>, AllocError>
        requires some { 1 ≤ clients }
        requires few { clients ≤ MAX_CLIENTS }
        ensures { IfOk result (λ w. w ≡ record { profile = profile.entry; server = new_server; clients = new_clients clients; pool = []; spoiled = Option.None }) }
    {
        // Read for the proof alone: that the schema has the protocol's forms.
        let _schema = profile.schema();
        let parts = WorldParts {
            server: Server::new(alloc),
            clients: new_clients(alloc, clients)?,
            pool: Pool::new(alloc),
        };
        Ok(World {
            profile,
            parts,
            spoiled: None,
        })
    }

    /// Makes a step, and answers what came of it; or refuses it by the first cause, and then all is as before. After `PoolFull` and `Memory` the
    /// world is spoiled, and answers the same again.
    pub fn step(&mut self, alloc: Global, step: Step) -> Result<Outcome, Fault<StepFault>>
        requires date { IsDated step }
        ensures again { AnswersAgain self.old result self.new self.old.spoiled }
        ensures happens { (w : worlds.World) → self.old.spoiled ≡ Option.None → StandsFor self.old w → Happens self.old step w result self.new }
        ensures profile { self.new.profile ≡ self.old.profile }
        ensures clients { length self.new.clients ≡ length self.old.clients }
    {
        if let Some(fault) = self.spoiled {
            return Err(fault);
        }
        let result = make(alloc, &self.profile, &mut self.parts, step);
        self.spoiled = spoil_of(&result);
        result
    }

    /// The schema by which messages are bytes.
    pub fn profile(&self) -> &Profile<'s>
        ensures value { result.now ≡ self.now.profile }
        ensures sound { IsProfile self.now.profile }
    {
        &self.profile
    }

    /// A client, by its number.
    pub fn client(&self, n: u32) -> &Client
        requires { n < length self.now.clients }
        ensures { slice_get self.now.clients n ≡ Option.Some result.now }
    {
        &self.parts.clients[n as usize]
    }

    /// A packet, by its number.
    pub fn packet(&self, m: u32) -> &SentPacket
        requires { m < length self.now.pool }
        ensures { slice_get self.now.pool m ≡ Option.Some result.now }
    {
        match self.parts.pool.get(m) {
            Some(sent) => sent,
            None => unreachable!(),
        }
    }

    /// Where the server is.
    pub fn state(&self) -> State
        ensures { result ≡ state_of self.now.server }
    {
        self.parts.server.state()
    }

    /// How many packets were sent.
    pub fn packets(&self) -> u32
        ensures value { result ≡ length self.now.pool }
        ensures run { self.now.spoiled ≡ Option.None → IsOfRun self.now }
    {
        self.parts.pool.len()
    }

    /// How many bytes they have.
    pub fn bytes(&self) -> u32
        ensures value { result ≡ bytes_of self.now.pool }
        ensures most { result ≤ MAX_POOL_BYTES }
    {
        self.parts.pool.bytes()
    }

    /// How many clients there are, 1 to 16.
    pub fn clients(&self) -> u32
        ensures value { result ≡ length self.now.clients }
        ensures some { 1 ≤ result }
        ensures few { result ≤ MAX_CLIENTS }
    {
        self.parts.clients.len() as u32
    }
}

// So many new clients.
fn new_clients(alloc: Global, number: u32) -> Result<Vec<Client>, Memory>
    ensures { IfOk result (λ clients. clients.items ≡ new_clients number) }
{
    let mut clients = Vec::with_capacity(alloc, number as usize)?;
    for _ in 0..number {
        clients.push(Client::new(alloc))?;
    }
    Ok(clients)
}

// Makes a step of the parts of a world.
fn make(
    alloc: Global,
    profile: &Profile,
    parts: &mut WorldParts,
    step: Step,
) -> Result<Outcome, Fault<StepFault>>
    requires steady { IsSteady (shown_by profile.now parts.old) }
    requires date { IsDated step }
    ensures step { Makes profile.now step parts.old result parts.new }
    ensures clients { length parts.new.clients.items ≡ length parts.old.clients.items }
{
    match step {
        Step::Post { random_id, posts } => post(alloc, profile, parts, random_id, posts),
        Step::Date { date: seconds } => date(parts, seconds),
        Step::Serve { packet } => serve(alloc, profile, parts, packet),
        Step::Hear { client, packet } => hear(alloc, profile, parts, client, packet),
        Step::Tick { client } => tick(alloc, profile, parts, client),
        Step::Wake { client } => wake(parts, client),
        Step::Watch { client, channel_id } => watch(alloc, parts, client, channel_id),
        Step::Restart { client } => restart(parts, client),
        Step::TooLong => too_long(alloc, profile, parts),
        Step::ChannelTooLong { channel_id } => channel_too_long(alloc, profile, parts, channel_id),
    }
}

// What an answer spoils a world by.
fn spoil_of(answer: &Result<Outcome, Fault<StepFault>>) -> Option<Fault<StepFault>>
    ensures { result ≡ spoil_of answer.now }
{
    match answer {
        Err(Fault::Refused(StepFault::PoolFull { bytes })) => {
            let bytes = *bytes;
            Some(Fault::Refused(StepFault::PoolFull { bytes }))
        }
        Err(Fault::Memory) => Some(Fault::Memory),
        _ => None,
    }
}
