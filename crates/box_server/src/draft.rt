//! What posts bring to a server, apart from it.
ghost use Rattle.std.specs.Prelude.{◌≡◌, false, eqb, ltb};
ghost use Rattle.std.specs.List.{list_any};
ghost use Rattle.box_events.specs.Events.{count_of};
ghost use Rattle.box_events.specs.declared.limits.TheConstants.{MAX_IDS};
ghost use Rattle.box_server.specs.Entries.{entry_of, entries_of, is_event, to_common, to_secret, to_channel, to_settings};
ghost use Rattle.box_server.specs.Servers.{ServerState};
ghost use Rattle.box_server.specs.inner.Drafted.{Fits, Adds, AddsAll, HasIds};

use crate::dated::DatedSetting;
use crate::fault::PostFault;
use crate::tail::{Tail, add_to};
use box_events::{Event, LaneName, ListOf, MAX_END, Post, Setting, Update};
use tl_base::Bytes;

/// What posts append to a server's boxes and to its settings, and the updates that tell of it. The tails of channels begin with those of
/// the server's, in their order.
#[derive(Drop)]
pub struct Draft {
    // The server's date, in seconds.
    pub date: u32,
    pub common: Tail,
    pub secret: Tail,
    pub channels: Vec<Tail>,
    // How many settings there will be.
    pub seq: u32,
    pub settings: Vec<DatedSetting>,
    pub updates: ListOf<Update>,
}

impl Draft {
    /// Adds what posts do, in order.
    pub fn add_all(&mut self, posts: &[Post]) -> Result<(), PostFault>
        requires some { list_any (is_event (λ e. eqb (count_of e) 0)) (entries_of posts.now) ≡ false }
        requires few { list_any (is_event (λ e. ltb MAX_IDS (count_of e))) (entries_of posts.now) ≡ false }
        ensures { (s : ServerState) → Fits s self.old → AddsAll s self.old self.new posts.now result }
    {
        for post in posts {
            self.add(post)?;
        }
        Ok(())
    }

    /// Adds what a post does.
    pub fn add(&mut self, post: &Post) -> Result<(), PostFault>
        requires { HasIds (entry_of post.now) }
        ensures { (s : ServerState) → Fits s self.old → Adds s self.old self.new (entry_of post.now) result }
    {
        match post {
            Post::Message { body } => self.add_common(Event::new_message(body.copy()?)),
            Post::Edit { body } => self.add_common(Event::edit(body.copy()?)),
            Post::Delete { ids } => self.add_common(Event::delete(ids.copy()?)),
            Post::Secret { body } => self.add_secret(body.copy()?),
            Post::ChannelMessage { id, body } => {
                self.add_channel(*id, Event::new_message(body.copy()?))
            }
            Post::ChannelEdit { id, body } => self.add_channel(*id, Event::edit(body.copy()?)),
            Post::ChannelDelete { id, ids } => self.add_channel(*id, Event::delete(ids.copy()?)),
            Post::Setting { key, value } => self.add_setting(Setting {
                key: key.copy()?,
                value: value.copy()?,
            }),
            Post::Read { max_id } => self.add_common(Event::read(*max_id)),
            Post::ChannelRead { id, max_id } => self.add_channel(*id, Event::read(*max_id)),
        }
    }

    fn add_common(&mut self, event: Event) -> Result<(), PostFault>
        ensures { (s : ServerState) → Fits s self.old → Adds s self.old self.new (to_common event) result }
    {
        let copy = event.copy()?;
        let pts = self.common.add(LaneName::Common, event)?;
        self.updates.push(Update::Common { event: copy, pts })?;
        Ok(())
    }

    fn add_secret(&mut self, body: Bytes) -> Result<(), PostFault>
        ensures { (s : ServerState) → Fits s self.old → Adds s self.old self.new (to_secret body) result }
    {
        let copy = body.copy()?;
        let qts = self.secret.add(LaneName::Secret, Event::new_message(body))?;
        self.updates.push(Update::Secret { body: copy, qts })?;
        Ok(())
    }

    fn add_channel(&mut self, id: i64, event: Event) -> Result<(), PostFault>
        ensures { (s : ServerState) → Fits s self.old → Adds s self.old self.new (to_channel id event) result }
    {
        let copy = event.copy()?;
        let pts = add_to(&mut self.channels, id, event)?;
        self.updates.push(Update::Channel {
            id,
            event: copy,
            pts,
        })?;
        Ok(())
    }

    fn add_setting(&mut self, setting: Setting) -> Result<(), PostFault>
        ensures { (s : ServerState) → Fits s self.old → Adds s self.old self.new (to_settings setting) result }
    {
        if self.seq >= MAX_END {
            return Err(PostFault::BoxFull {
                lane: LaneName::Seq,
                at: self.seq,
            });
        }
        let copy = setting.copy()?;
        self.settings.push(DatedSetting {
            setting,
            date: self.date,
        })?;
        self.updates.push(Update::Setting { setting: copy })?;
        self.seq += 1;
        Ok(())
    }
}
