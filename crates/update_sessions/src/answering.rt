//! What is sent for a call, and the store after it.
ghost use Rattle.std.specs.Prelude.{◌≤◌, ◌++◌, Ok, Err, IfOk, IfSome, IsErrOf, OnOk, length};
ghost use Rattle.box_world.specs.Sizes.{frame_size};
ghost use Rattle.box_events.specs.declared.limits.TheConstants.{MAX_FRAME_BYTES};
ghost use Rattle.box_events.specs.declared.replies.Frame.TheVariants.{Push as PushFrame};
ghost use Rattle.box_events.specs.declared.requests.Numbered.{Numbered};
ghost use Rattle.box_events.specs.declared.requests.Request.TheVariants.{Post as PostRequest};
ghost use Rattle.box_server.specs.Answers.{IsAnswered};
ghost use Rattle.box_server.specs.Keeping.{Keeps};
ghost use Rattle.box_server.specs.Rebuilding.{kept_of};
ghost use Rattle.update_sessions.specs.Kept.{kept_for};
ghost use Rattle.update_sessions.specs.Packed.{MeansCall, Packed, SpellsFrame};
ghost use Rattle.update_sessions.specs.Serving.{posted_frames, sent_for};
ghost use Rattle.update_sessions.specs.Turns.{AnswersPacket};
ghost use Rattle.update_sessions.specs.inner.StoreSteps.{AreShort, Sends, TakesCall, frames_in};

use crate::fault::SessionFault;
use crate::packing::put_frame;
use crate::storing::StoreSession;
use box_events::{Frame, Numbered, Reply, Request};
use box_server::{KeepFault, Keeper, PostFault, Posted, Posts, Server, StoreFault, Stored};
use box_wire::{Fault, read_call};
use std::alloc::Global;
use std::mem::drop;
use tl_base::{Bytes, Memory};
use wire_profile::Profile;

/// What is sent for a call: a reply, and then the push of a new post.
#[derive(Drop)]
pub struct CallAnswer {
    reply: Frame,
    push: Option<Frame>,
}

/// Answers the call that a packet's bytes mean. A new post is kept before anything is to be sent for it. Puts the packets of all that is sent for the call
/// in place of what stands in `out`.
/// Where a packet is refused, or the keeper fails, the store is as it was, and nothing is to be sent, nor where memory runs out.
#[inline(never)]
pub fn answer_packet<K: Keeper>(
    alloc: Global,
    profile: &Profile,
    store: &mut Stored<K>,
    packet: &[u8],
    out: &mut Bytes,
) -> Result<(), StoreSession>
    ensures answers { AnswersPacket profile.now store.old.server packet.now out.new (K.state store.old.keeper).entries (K.state store.new.keeper).entries store.new.server result }
    ensures kept { Keeps (K.state store.old.keeper) (K.state store.new.keeper) (IsErrOf result StoreSession.Failed) (λ es. (c : Numbered) → MeansCall profile.now c packet.now → length (es ++ kept_for store.old.server c.request) ≤ (K.state store.old.keeper).room) }
{
    let call = match read_call(alloc, profile, packet) {
        Ok(call) => call,
        Err(Fault::Refused(cause)) => {
            return Err(StoreSession::Session {
                fault: SessionFault::Wire(cause),
            });
        }
        Err(Fault::Memory) => return Err(StoreSession::Memory),
    };
    let sent = match take_call(alloc, store, call) {
        Ok(sent) => sent,
        Err(KeepFault::Memory) => return Err(StoreSession::Memory),
        Err(KeepFault::Failed) => return Err(StoreSession::Failed),
    };
    let put = put_sent(alloc, profile, &sent, out);
    // Dropped here, and not at each end: for the proof alone.
    drop(sent);
    match put {
        Ok(()) => Ok(()),
        Err(_) => Err(StoreSession::Memory),
    }
}

// Takes a call. Nothing is taken where memory runs out or the keeper fails.
fn take_call<K: Keeper>(
    alloc: Global,
    store: &mut Stored<K>,
    call: Numbered,
) -> Result<CallAnswer, KeepFault>
    ensures takes { TakesCall store.old.server call.number call.request (K.state store.old.keeper).entries (K.state store.new.keeper).entries store.new.server result }
    ensures kept { Keeps (K.state store.old.keeper) (K.state store.new.keeper) (IsErrOf result KeepFault.Failed) (λ es. length (es ++ kept_for store.old.server call.request) ≤ (K.state store.old.keeper).room) }
{
    let Numbered { number, request } = call;
    match request {
        Request::Post { random_id, posts } => take_post(alloc, store, number, random_id, posts),
        request => match answer(alloc, store.server(), number, &request) {
            Ok(sent) => Ok(sent),
            Err(_) => Err(KeepFault::Memory),
        },
    }
}

// Takes posts.
fn take_post<K: Keeper>(
    alloc: Global,
    store: &mut Stored<K>,
    number: u32,
    random_id: i64,
    posts: Posts,
) -> Result<CallAnswer, KeepFault>
    ensures takes { TakesCall store.old.server number (PostRequest random_id posts) (K.state store.old.keeper).entries (K.state store.new.keeper).entries store.new.server result }
    ensures kept { Keeps (K.state store.old.keeper) (K.state store.new.keeper) (IsErrOf result KeepFault.Failed) (λ es. length (es ++ kept_of store.old.server random_id posts) ≤ (K.state store.old.keeper).room) }
{
    match store.post(random_id, posts) {
        Ok(posted) => Ok(receipt(number, posted)),
        Err(StoreFault::Refused { fault }) => match refusal(alloc, number, fault) {
            Ok(sent) => Ok(sent),
            Err(_) => Err(KeepFault::Memory),
        },
        Err(StoreFault::Failed) => Err(KeepFault::Failed),
        Err(StoreFault::Memory) => Err(KeepFault::Memory),
    }
}

// The answer to a request but for posts.
fn answer(
    alloc: Global,
    server: &Server,
    number: u32,
    request: &Request,
) -> Result<CallAnswer, Memory>
    requires { IsAnswered request.now }
    ensures { IfOk result (λ x. Sends x (sent_for server.now number request.now)) }
{
    // Read for the proof alone: that the server is sound.
    let _state = server.state();
    Ok(CallAnswer {
        reply: Frame::Reply {
            number,
            reply: server.answer(alloc, request)?,
        },
        push: None,
    })
}

// The receipt of posts, and their push.
fn receipt(number: u32, posted: Posted) -> CallAnswer
    requires { IfSome posted.push (λ push. frame_size (PushFrame push) ≤ MAX_FRAME_BYTES) }
    ensures { Sends result (posted_frames number (Ok posted)) }
{
    let Posted { receipt, push } = posted;
    let reply = Frame::Reply {
        number,
        reply: Reply::Receipt(receipt),
    };
    match push {
        Some(push) => CallAnswer {
            reply,
            push: Some(Frame::Push(push)),
        },
        None => CallAnswer { reply, push: None },
    }
}

// The refusal of posts by its name.
fn refusal(alloc: Global, number: u32, fault: PostFault) -> Result<CallAnswer, Memory>
    ensures { IfOk result (λ x. Sends x (posted_frames number (Err fault))) }
{
    Ok(CallAnswer {
        reply: Frame::Reply {
            number,
            reply: Reply::Error {
                code: 400,
                text: Bytes::from_slice(alloc, fault.name().as_bytes())?,
            },
        },
        push: None,
    })
}

// Puts the packets of what is sent in place of what stands in `out`.
fn put_sent(
    alloc: Global,
    profile: &Profile,
    sent: &CallAnswer,
    out: &mut Bytes,
) -> Result<(), Memory>
    requires { AreShort sent.now }
    ensures { OnOk result (Packed (SpellsFrame profile.now) (frames_in sent.now) out.new) }
{
    out.clear();
    put_frame(alloc, profile, &sent.reply, out)?;
    match &sent.push {
        Some(push) => put_frame(alloc, profile, push, out),
        None => Ok(()),
    }
}
