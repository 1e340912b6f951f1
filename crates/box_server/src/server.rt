//! Servers.
ghost use Rattle.std.specs.Prelude.{◌≡◌, ◌<◌, ◌≤◌, ◌^◌, IfOk, MatchOption, Option, eqb, ltb, false};
ghost use Rattle.std.specs.FinMap as map;
ghost use Rattle.std.specs.List.{list_any};
ghost use Rattle.box_events.specs.Events.{count_of};
ghost use Rattle.box_events.specs.declared.limits.TheConstants.{MAX_IDS, MAX_KEYS};
ghost use Rattle.box_server.specs.Entries.{entries_of, is_event};
ghost use Rattle.box_server.specs.LastEntries.{keys_in};
ghost use Rattle.box_server.specs.Receiving.{Receives};
ghost use Rattle.box_server.specs.inner.Drafted.{Drafts, IsBlank};
ghost use Rattle.box_server.specs.inner.Taking.{Adds, CountsKeys, IsReady, Prepares, Takes, TakesUnkept};
ghost use Rattle.box_server.specs.Answers.{IsAnswered, answer, difference_of, channel_difference};
ghost use Rattle.box_server.specs.Servers.{new_server, dated_at, state_of, channel_in, empty_channel};
ghost use Rattle.box_server.specs.Sound.{IsSound};
ghost use Rattle.box_server.specs.inner.Carrying.{boxed};

use crate::answers::{are_whole, channel_reply, difference, is_at, number_of, refusal};
use crate::channel::{Channel, append_all};
use crate::checking::check;
use crate::draft::Draft;
use crate::entry::Entry;
use crate::fault::PostFault;
use crate::keeper::Keeper;
use crate::no_keeper::NoKeeper;
use crate::opening::opens_too_many;
use crate::posted::Posted;
use crate::prepared::Prepared;
use crate::receipts::keep;
use crate::room::{blank_tails, grow, numbers, room_for};
use crate::runs::run_from;
use crate::setting_list::SettingList;
use crate::store_fault::KeepFault;
use crate::tail::Tail;
use box_events::{EventBox, ListOf, MAX_KEYS, Post, Push, Receipt, Reply, Request, State};
use std::alloc::Global;
use std::collections::BTreeMap;
use std::marker::Model;
use tl_base::Memory;

/// A server of updates: a common box, a secret box, a box for each channel, and settings ("Working with Updates", core.telegram.org/api/updates).
pub struct Server {
    // In seconds.
    date: u32,
    common: EventBox,
    secret: EventBox,
    // In the order of their first posts.
    channels: Vec<Channel>,
    settings: SettingList,
    receipts: BTreeMap<i64, Receipt>,
}

// By hand, so that each exit of an owner has one call to prove.
impl Drop for Server {
    fn drop(self) {
        let Server {
            date: _,
            common: _,
            secret: _,
            channels: _,
            settings: _,
            receipts: _,
        } = self;
    }
}

impl Model for Server {
    ghost use Rattle.box_server.specs.Servers.{ServerState};
    ghost use Rattle.box_server.specs.inner.ServerCodes.{server_code};
    ghost use Rattle.box_server.specs.inner.Insides.{server_view, IsServer};

    ghost Value = { ServerState };

    ghost coded = { server_code };

    ghost view = { server_view };

    ghost invariant = { IsServer };
}

impl Server {
    /// A server to which nothing was posted, at date 0. No memory is taken.
    pub fn new(alloc: Global) -> Server
        ensures { result ≡ new_server }
    {
        Server {
            date: 0,
            common: EventBox::new(alloc),
            secret: EventBox::new(alloc),
            channels: Vec::new(alloc),
            settings: SettingList::new(alloc),
            receipts: BTreeMap::new(alloc),
        }
    }

    /// The clock shows a date, in seconds. The server's date is the greater of the two.
    pub fn set_date(&mut self, date: u32)
        requires { date < 2 ^ 31 }
        ensures { self.new ≡ dated_at self.old date }
    {
        self.date = self.date.max(date);
    }

    /// Where the server is.
    pub fn state(&self) -> State
        ensures value { result ≡ state_of self.now }
        ensures sound { IsSound self.now }
    {
        State {
            pts: self.common.end(),
            qts: self.secret.end(),
            date: self.date,
            seq: self.settings.len() as u32,
        }
    }

    /// Answers a request for the state or for a difference ("Working with Updates", core.telegram.org/api/updates: updates.getState,
    /// updates.getDifference, updates.getChannelDifference). It is an error 400, `PERSISTENT_TIMESTAMP_INVALID`, where a position isn't one.
    pub fn answer(&self, alloc: Global, request: &Request) -> Result<Reply, Memory>
        requires { IsAnswered request.now }
        ensures { IfOk result (λ r. r ≡ answer self.now request.now) }
    {
        match request {
            Request::State => Ok(Reply::State(self.state())),
            Request::Difference { pts, qts, date } => self.difference(alloc, *pts, *qts, *date),
            Request::Channel { id, pts } => self.channel_difference(alloc, *id, *pts),
            Request::Post { .. } => unreachable!(),
        }
    }

    fn difference(&self, alloc: Global, pts: i32, qts: i32, date: u32) -> Result<Reply, Memory>
        ensures { IfOk result (λ r. r ≡ difference_of self.now pts qts date) }
    {
        let (Some(pts), Some(qts)) = (number_of(pts), number_of(qts)) else {
            return refusal(alloc);
        };
        let Some(news) = run_from(alloc, &self.common, pts)? else {
            return refusal(alloc);
        };
        let Some(secrets) = run_from(alloc, &self.secret, qts)? else {
            return refusal(alloc);
        };
        let state = State {
            pts: news.end,
            qts: secrets.end,
            ..self.state()
        };
        if !are_whole(&news, &secrets) {
            return Ok(difference(news, secrets, ListOf::new(alloc), state, false));
        }
        let settings = self.settings.changed_since(alloc, date)?;
        if is_at(&state, pts, qts, &settings) {
            return Ok(Reply::Empty {
                date: state.date,
                seq: state.seq,
            });
        }
        Ok(difference(news, secrets, settings, state, true))
    }

    fn channel_difference(&self, alloc: Global, id: i64, pts: i32) -> Result<Reply, Memory>
        ensures { IfOk result (λ r. r ≡ channel_difference (channel_in self.now.channels id) pts) }
    {
        match self.channel(id) {
            Some(events) => channel_reply(alloc, events, pts),
            None => channel_reply(alloc, &EventBox::new(alloc), pts),
        }
    }

    /// Takes posts under a random id, all or none of them. Under an id that was received before nothing is posted: the answer is the receipt that it
    /// had, and there is no push. After a post each channel keeps its last 500 events. Where memory runs out nothing changes.
    pub fn post(&mut self, random_id: i64, posts: &[Post]) -> Result<Posted, PostFault>
        ensures { Receives self.old random_id posts.now result self.new }
    {
        match self.prepare(random_id, posts)? {
            Prepared::Known { receipt } => Ok(Posted {
                receipt,
                push: None,
            }),
            Prepared::New { keys, draft } => self.take_unkept(random_id, keys, draft),
        }
    }

    /// What the server would do with posts under a random id.
    pub(crate) fn prepare(&self, random_id: i64, posts: &[Post]) -> Result<Prepared, PostFault>
        ensures prepares { Prepares self.now random_id posts.now result }
        ensures sound { IsSound self.now }
    {
        if let Some(receipt) = self.receipts.get(&random_id) {
            return Ok(Prepared::Known { receipt: *receipt });
        }
        check(posts)?;
        let keys = self.keys_with(posts)?;
        let draft = self.draft(posts)?;
        Ok(Prepared::New { keys, draft })
    }

    // How many keys have a setting with these posts. It refuses them where too much would be kept.
    fn keys_with(&self, posts: &[Post]) -> Result<usize, PostFault>
        ensures { CountsKeys self.now posts.now result }
    {
        let alloc = *self.channels.allocator();
        if opens_too_many(alloc, &self.channels, posts)? {
            return Err(PostFault::TooManyChannels);
        }
        let keys = self.settings.keys_with(posts)?;
        if keys > MAX_KEYS {
            return Err(PostFault::TooManySettings);
        }
        Ok(keys)
    }

    // A draft of what posts bring.
    fn draft(&self, posts: &[Post]) -> Result<Draft, PostFault>
        requires some { list_any (is_event (λ e. eqb (count_of e) 0)) (entries_of posts.now) ≡ false }
        requires few { list_any (is_event (λ e. ltb MAX_IDS (count_of e))) (entries_of posts.now) ≡ false }
        ensures { Drafts self.now posts.now result }
    {
        let mut draft = self.blank_draft()?;
        draft.add_all(posts)?;
        Ok(draft)
    }

    fn blank_draft(&self) -> Result<Draft, Memory>
        ensures { IfOk result (IsBlank self.now) }
    {
        let alloc = *self.channels.allocator();
        Ok(Draft {
            date: self.date,
            common: Tail::new(alloc, 0, self.common.end()),
            secret: Tail::new(alloc, 0, self.secret.end()),
            channels: blank_tails(alloc, &self.channels)?,
            seq: self.settings.len() as u32,
            settings: Vec::new(alloc),
            updates: ListOf::new(alloc),
        })
    }

    // Takes what a draft brings, and it is kept nowhere.
    fn take_unkept(
        &mut self,
        random_id: i64,
        keys: usize,
        draft: Draft,
    ) -> Result<Posted, PostFault>
        requires { IsReady self.old random_id keys draft }
        ensures { TakesUnkept self.old random_id draft result self.new }
    {
        let entry = Entry {
            date: self.date,
            random_id,
            posts: ListOf::new(*self.channels.allocator()),
        };
        match self.take(keys, draft, &mut NoKeeper, entry) {
            Ok(posted) => Ok(posted),
            // A keeper that keeps nothing never fails.
            Err(_) => Err(PostFault::Memory),
        }
    }

    /// Takes what a draft brings, keeps the receipt of it, and has a keeper add its entry. All memory is taken before the keeper is asked, and nothing
    /// fails after it.
    pub(crate) fn take<K: Keeper>(
        &mut self,
        keys: usize,
        draft: Draft,
        keeper: &mut K,
        entry: Entry,
    ) -> Result<Posted, KeepFault>
        requires { IsReady self.old entry.random_id keys draft }
        ensures takes { Takes self.old entry.random_id draft result self.new }
        ensures adds { Adds K.state keeper.old keeper.new entry result }
    {
        let opened = room_for(
            &mut self.common,
            &mut self.secret,
            &mut self.channels,
            &draft,
        )?;
        let Draft {
            date,
            common,
            secret,
            channels,
            seq,
            settings,
            updates,
        } = draft;
        let receipt = Receipt {
            pts: common.end(),
            qts: secret.end(),
            date,
            seq,
        };
        let (first, last) = numbers(self.settings.len() as u32, seq);
        keep(
            &mut self.receipts,
            receipt,
            &mut self.settings,
            settings,
            keys,
            keeper,
            entry,
        )?;
        append_all(&mut self.common, common.into_events());
        append_all(&mut self.secret, secret.into_events());
        grow(&mut self.channels, opened, channels);
        Ok(Posted {
            receipt,
            push: Some(Push::Container {
                updates,
                date,
                seq_start: first,
                seq: last,
            }),
        })
    }

    // The box of a channel, where it has one.
    fn channel(&self, id: i64) -> Option<&EventBox>
        ensures { MatchOption result (channel_in self.now.channels id ≡ empty_channel id) (λ b. channel_in self.now.channels id ≡ boxed id b.now) }
    {
        for channel in &self.channels {
            if channel.id == id {
                return Some(&channel.events);
            }
        }
        None
    }
}
