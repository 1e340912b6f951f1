//! Answers.
ghost use Rattle.std.specs.Prelude.{◌≡◌, ◌≤◌, ◌<◌, ◌^◌, length, OnOk, OnErr};
ghost use Rattle.box_events.specs.Refusal.{AreOthers};
ghost use Rattle.box_events.specs.DifferenceLaws.{AreCountedOthers};
ghost use Rattle.pts_machine.specs.SeqStates.{overlaid};
ghost use Rattle.channel_box.specs.Steps.{is_asking, asks_number};
ghost use Rattle.box_client.specs.Replies.{brings, group_replied, channel_replied, replied};
ghost use Rattle.box_client.specs.Ranges.{IsReplyInRange};
ghost use Rattle.box_client.specs.Calls.{Answers};
ghost use Rattle.box_client.specs.Views.{client_of};

use crate::fault::{ClientFault, ReplyOutcome, of_weave};
use crate::parts::ClientParts;
use crate::received::Received;
use box_events::{ListOf, MAX_END, Reply, Setting, State};
use channel_box::weave_onto;
use pts_machine::{Mode, Settings};
use std::alloc::{AllocError, Global};
use tl_base::{Fault, Memory};

/// The answer to the request of a number comes.
pub fn hear_reply(
    parts: &mut ClientParts,
    alloc: Global,
    number: u32,
    reply: Reply,
) -> Result<ReplyOutcome, Fault<ClientFault>>
    requires range { IsReplyInRange reply }
    ensures step { Answers (client_of parts.old) (replied (client_of parts.old) number reply) result (client_of parts.new) }
{
    if asks(parts.common.mode(), number) {
        return reply_to_group(parts, alloc, reply);
    }
    if parts.channels.asks(number) {
        return reply_to_channel(parts, alloc, number, reply);
    }
    Ok(ReplyOutcome::Stale)
}

fn asks(mode: Mode, number: u32) -> bool
    ensures { result ≡ is_asking number mode }
{
    match mode {
        Mode::Asking(n) => n == number,
        Mode::Live => false,
        Mode::Again => false,
    }
}

// An answer comes that the common group asked for.
fn reply_to_group(
    parts: &mut ClientParts,
    alloc: Global,
    reply: Reply,
) -> Result<ReplyOutcome, Fault<ClientFault>>
    requires range { IsReplyInRange reply }
    ensures step { Answers (client_of parts.old) (group_replied (client_of parts.old) reply) result (client_of parts.new) }
{
    match reply {
        Reply::Error { code, .. } => Err(Fault::Refused(ClientFault::PeerError { code })),
        Reply::Empty { date, seq } => {
            let state = State {
                pts: parts.common.at(),
                qts: parts.secret.at(),
                date,
                seq,
            };
            let nothing = Received {
                news: ListOf::new(alloc),
                secrets: ListOf::new(alloc),
                others: ListOf::new(alloc),
                settings: ListOf::new(alloc),
                state,
                last: true,
            };
            take(parts, alloc, nothing)
        }
        Reply::Difference {
            news,
            secrets,
            others,
            settings,
            state,
            last,
        } => {
            let received = Received {
                news,
                secrets,
                others,
                settings,
                state,
                last,
            };
            take(parts, alloc, received)
        }
        Reply::State(_) | Reply::Channel(_) | Reply::Receipt(_) => {
            Err(Fault::Refused(ClientFault::WrongKind))
        }
    }
}

// The events of an answer are woven and all memory is taken before anything changes.
fn take(
    parts: &mut ClientParts,
    alloc: Global,
    received: Received,
) -> Result<ReplyOutcome, Fault<ClientFault>>
    requires pts { received.state.pts ≤ MAX_END }
    requires qts { received.state.qts ≤ MAX_END }
    requires few { length received.news < 2 ^ 31 }
    requires few_secrets { length received.secrets < 2 ^ 31 }
    requires others { AreOthers received.others }
    requires counted { AreCountedOthers received.others }
    ensures step { Answers (client_of parts.old) (brings (client_of parts.old) received) result (client_of parts.new) }
{
    let Received {
        news,
        secrets,
        others,
        settings,
        state,
        last,
    } = received;
    let at = parts.settings.at();
    let events = match weave_onto(alloc, &mut parts.common, state.pts, news, others) {
        Ok(events) => events,
        Err(fault) => return Err(of_weave(fault)),
    };
    let none = ListOf::new(alloc);
    let messages = match weave_onto(alloc, &mut parts.secret, state.qts, secrets, none) {
        Ok(messages) => messages,
        Err(fault) => return Err(of_weave(fault)),
    };
    if !last {
        parts.settings.again();
        parts.common.extend(events, false);
        parts.secret.extend(messages, false);
        return Ok(ReplyOutcome::Reply);
    }
    if state.seq < at {
        return Err(Fault::Refused(ClientFault::SeqBack { at, seq: state.seq }));
    }
    overlay_settings(&mut parts.settings, settings, state)?;
    parts.common.extend(events, true);
    parts.secret.extend(messages, true);
    Ok(ReplyOutcome::Reply)
}

// The settings of a final answer are laid over the others.
fn overlay_settings(
    settings: &mut Settings,
    more: ListOf<Setting>,
    state: State,
) -> Result<(), Memory>
    requires order { settings.old.state.at ≤ state.seq }
    ensures ok { OnOk result (settings.new.state ≡ overlaid settings.old.state more state.seq state.date) }
    ensures err { OnErr result (settings.new.state ≡ settings.old.state) }
{
    let more = more.into_vec();
    if more.len() > u32::MAX as usize {
        return Err(AllocError);
    }
    settings.reserve(more.len() as u32)?;
    settings.overlay(more, state.seq, state.date);
    Ok(())
}

// An answer comes that a channel asked for.
fn reply_to_channel(
    parts: &mut ClientParts,
    alloc: Global,
    number: u32,
    reply: Reply,
) -> Result<ReplyOutcome, Fault<ClientFault>>
    requires range { IsReplyInRange reply }
    ensures step { Answers (client_of parts.old) (channel_replied (client_of parts.old) number reply) result (client_of parts.new) }
{
    match reply {
        Reply::Error { code, .. } => Err(Fault::Refused(ClientFault::PeerError { code })),
        Reply::Channel(reply) => match parts.channels.reply(alloc, number, reply) {
            Ok(true) => Ok(ReplyOutcome::Reply),
            Ok(false) => Ok(ReplyOutcome::Stale),
            Err(fault) => Err(of_weave(fault)),
        },
        Reply::State(_) | Reply::Empty { .. } | Reply::Difference { .. } | Reply::Receipt(_) => {
            Err(Fault::Refused(ClientFault::WrongKind))
        }
    }
}
