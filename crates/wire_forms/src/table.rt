//! The forms, one after the other.
ghost use Rattle.std.specs.Prelude.{◌≡◌, map};
ghost use Rattle.wire_forms.specs.Forms as defined;
ghost use Rattle.wire_forms.specs.Forms.{form_view};

use crate::form::{Cell, Form, Part};
use crate::numbers::{
    CHANNEL, CHANNEL_DIFFERENCE_TYPE, CHANNEL_TYPE, CLIENT_TYPE, DIFFERENCE_TYPE, EVENT_TYPE,
    FRAME_TYPE, LANE, LANE_TYPE, POST_TYPE, RECEIPT, RECEIPT_TYPE, SETTING, SETTING_TYPE, STATE,
    STATE_TYPE, STEP_TYPE, UPDATE_TYPE, UPDATES_TYPE,
};

#[rattlefmt::skip]
const FORMS: [Form; 61] = [
    Form { name: "updateNewMessage", function: false, result: Some(UPDATE_TYPE), parts: &[
        Part { name: "body", cell: Cell::Body }, Part { name: "pts", cell: Cell::Whole },
        Part { name: "pts_count", cell: Cell::Whole },
    ] },
    Form { name: "updateEditMessage", function: false, result: Some(UPDATE_TYPE), parts: &[
        Part { name: "body", cell: Cell::Body }, Part { name: "pts", cell: Cell::Whole },
        Part { name: "pts_count", cell: Cell::Whole },
    ] },
    Form { name: "updateDeleteMessages", function: false, result: Some(UPDATE_TYPE), parts: &[
        Part { name: "ids", cell: Cell::Ids }, Part { name: "pts", cell: Cell::Whole },
        Part { name: "pts_count", cell: Cell::Whole },
    ] },
    Form { name: "updateNewEncryptedMessage", function: false, result: Some(UPDATE_TYPE), parts: &[
        Part { name: "body", cell: Cell::Body }, Part { name: "qts", cell: Cell::Whole },
    ] },
    Form { name: "updateNewChannelMessage", function: false, result: Some(UPDATE_TYPE), parts: &[
        Part { name: "channel_id", cell: Cell::Long }, Part { name: "body", cell: Cell::Body },
        Part { name: "pts", cell: Cell::Whole }, Part { name: "pts_count", cell: Cell::Whole },
    ] },
    Form { name: "updateEditChannelMessage", function: false, result: Some(UPDATE_TYPE), parts: &[
        Part { name: "channel_id", cell: Cell::Long }, Part { name: "body", cell: Cell::Body },
        Part { name: "pts", cell: Cell::Whole }, Part { name: "pts_count", cell: Cell::Whole },
    ] },
    Form { name: "updateDeleteChannelMessages", function: false, result: Some(UPDATE_TYPE), parts: &[
        Part { name: "channel_id", cell: Cell::Long }, Part { name: "ids", cell: Cell::Ids },
        Part { name: "pts", cell: Cell::Whole }, Part { name: "pts_count", cell: Cell::Whole },
    ] },
    Form { name: "updateChannelTooLong", function: false, result: Some(UPDATE_TYPE), parts: &[
        Part { name: "channel_id", cell: Cell::Long },
    ] },
    Form { name: "updateSetting", function: false, result: Some(UPDATE_TYPE), parts: &[
        Part { name: "key", cell: Cell::Key }, Part { name: "value", cell: Cell::Body },
    ] },
    Form { name: "updateReadHistory", function: false, result: Some(UPDATE_TYPE), parts: &[
        Part { name: "max_id", cell: Cell::Signed }, Part { name: "pts", cell: Cell::Whole },
        Part { name: "pts_count", cell: Cell::Whole },
    ] },
    Form { name: "updateReadChannelHistory", function: false, result: Some(UPDATE_TYPE), parts: &[
        Part { name: "channel_id", cell: Cell::Long }, Part { name: "max_id", cell: Cell::Signed },
        Part { name: "pts", cell: Cell::Whole }, Part { name: "pts_count", cell: Cell::Whole },
    ] },
    Form { name: "updatesTooLong", function: false, result: Some(UPDATES_TYPE), parts: &[] },
    Form { name: "updates", function: false, result: Some(UPDATES_TYPE), parts: &[
        Part { name: "updates", cell: Cell::Many { head: UPDATE_TYPE } }, Part { name: "date", cell: Cell::Whole },
        Part { name: "seq", cell: Cell::Whole },
    ] },
    Form { name: "updatesCombined", function: false, result: Some(UPDATES_TYPE), parts: &[
        Part { name: "updates", cell: Cell::Many { head: UPDATE_TYPE } }, Part { name: "date", cell: Cell::Whole },
        Part { name: "seq_start", cell: Cell::Whole }, Part { name: "seq", cell: Cell::Whole },
    ] },
    Form { name: "updates.state", function: false, result: Some(STATE_TYPE), parts: &[
        Part { name: "pts", cell: Cell::Whole }, Part { name: "qts", cell: Cell::Whole },
        Part { name: "date", cell: Cell::Whole }, Part { name: "seq", cell: Cell::Whole },
    ] },
    Form { name: "updates.differenceEmpty", function: false, result: Some(DIFFERENCE_TYPE), parts: &[
        Part { name: "date", cell: Cell::Whole }, Part { name: "seq", cell: Cell::Whole },
    ] },
    Form { name: "updates.difference", function: false, result: Some(DIFFERENCE_TYPE), parts: &[
        Part { name: "new_messages", cell: Cell::Bodies }, Part { name: "new_encrypted_messages", cell: Cell::Bodies },
        Part { name: "other_updates", cell: Cell::Many { head: UPDATE_TYPE } },
        Part { name: "state", cell: Cell::One { head: STATE_TYPE } },
    ] },
    Form { name: "updates.differenceSlice", function: false, result: Some(DIFFERENCE_TYPE), parts: &[
        Part { name: "new_messages", cell: Cell::Bodies }, Part { name: "new_encrypted_messages", cell: Cell::Bodies },
        Part { name: "other_updates", cell: Cell::Many { head: UPDATE_TYPE } },
        Part { name: "intermediate_state", cell: Cell::One { head: STATE_TYPE } },
    ] },
    Form { name: "updates.channelDifferenceEmpty", function: false, result: Some(CHANNEL_DIFFERENCE_TYPE), parts: &[
        Part { name: "flags", cell: Cell::Flags }, Part { name: "final", cell: Cell::Final },
        Part { name: "pts", cell: Cell::Whole },
    ] },
    Form { name: "updates.channelDifference", function: false, result: Some(CHANNEL_DIFFERENCE_TYPE), parts: &[
        Part { name: "flags", cell: Cell::Flags }, Part { name: "final", cell: Cell::Final },
        Part { name: "pts", cell: Cell::Whole }, Part { name: "new_messages", cell: Cell::Bodies },
        Part { name: "other_updates", cell: Cell::Many { head: UPDATE_TYPE } },
    ] },
    Form { name: "updates.channelDifferenceTooLong", function: false, result: Some(CHANNEL_DIFFERENCE_TYPE), parts: &[
        Part { name: "flags", cell: Cell::Flags }, Part { name: "final", cell: Cell::Final },
        Part { name: "pts", cell: Cell::Whole }, Part { name: "messages", cell: Cell::Bodies },
    ] },
    Form { name: "peer.push", function: false, result: Some(FRAME_TYPE), parts: &[
        Part { name: "updates", cell: Cell::One { head: UPDATES_TYPE } },
    ] },
    Form { name: "peer.stateReply", function: false, result: Some(FRAME_TYPE), parts: &[
        Part { name: "number", cell: Cell::Whole }, Part { name: "state", cell: Cell::Bare { form: STATE } },
    ] },
    Form { name: "peer.differenceReply", function: false, result: Some(FRAME_TYPE), parts: &[
        Part { name: "number", cell: Cell::Whole },
        Part { name: "difference", cell: Cell::One { head: DIFFERENCE_TYPE } },
    ] },
    Form { name: "peer.channelReply", function: false, result: Some(FRAME_TYPE), parts: &[
        Part { name: "number", cell: Cell::Whole },
        Part { name: "difference", cell: Cell::One { head: CHANNEL_DIFFERENCE_TYPE } },
    ] },
    Form { name: "peer.receiptReply", function: false, result: Some(FRAME_TYPE), parts: &[
        Part { name: "number", cell: Cell::Whole }, Part { name: "receipt", cell: Cell::Bare { form: RECEIPT } },
    ] },
    Form { name: "peer.errorReply", function: false, result: Some(FRAME_TYPE), parts: &[
        Part { name: "number", cell: Cell::Whole }, Part { name: "code", cell: Cell::Signed },
        Part { name: "text", cell: Cell::Key },
    ] },
    Form { name: "peer.receipt", function: false, result: Some(RECEIPT_TYPE), parts: &[
        Part { name: "pts", cell: Cell::Whole }, Part { name: "qts", cell: Cell::Whole },
        Part { name: "date", cell: Cell::Whole }, Part { name: "seq", cell: Cell::Whole },
    ] },
    Form { name: "peer.postMessage", function: false, result: Some(POST_TYPE), parts: &[
        Part { name: "body", cell: Cell::Body },
    ] },
    Form { name: "peer.postEdit", function: false, result: Some(POST_TYPE), parts: &[
        Part { name: "body", cell: Cell::Body },
    ] },
    Form { name: "peer.postDelete", function: false, result: Some(POST_TYPE), parts: &[
        Part { name: "ids", cell: Cell::Ids },
    ] },
    Form { name: "peer.postSecret", function: false, result: Some(POST_TYPE), parts: &[
        Part { name: "body", cell: Cell::Body },
    ] },
    Form { name: "peer.postChannelMessage", function: false, result: Some(POST_TYPE), parts: &[
        Part { name: "channel_id", cell: Cell::Long }, Part { name: "body", cell: Cell::Body },
    ] },
    Form { name: "peer.postChannelEdit", function: false, result: Some(POST_TYPE), parts: &[
        Part { name: "channel_id", cell: Cell::Long }, Part { name: "body", cell: Cell::Body },
    ] },
    Form { name: "peer.postChannelDelete", function: false, result: Some(POST_TYPE), parts: &[
        Part { name: "channel_id", cell: Cell::Long }, Part { name: "ids", cell: Cell::Ids },
    ] },
    Form { name: "peer.postSetting", function: false, result: Some(POST_TYPE), parts: &[
        Part { name: "key", cell: Cell::Key }, Part { name: "value", cell: Cell::Body },
    ] },
    Form { name: "peer.postRead", function: false, result: Some(POST_TYPE), parts: &[
        Part { name: "max_id", cell: Cell::Signed },
    ] },
    Form { name: "peer.postChannelRead", function: false, result: Some(POST_TYPE), parts: &[
        Part { name: "channel_id", cell: Cell::Long }, Part { name: "max_id", cell: Cell::Signed },
    ] },
    Form { name: "replay.post", function: false, result: Some(STEP_TYPE), parts: &[
        Part { name: "random_id", cell: Cell::Long }, Part { name: "posts", cell: Cell::Many { head: POST_TYPE } },
    ] },
    Form { name: "replay.date", function: false, result: Some(STEP_TYPE), parts: &[
        Part { name: "date", cell: Cell::Whole },
    ] },
    Form { name: "replay.serve", function: false, result: Some(STEP_TYPE), parts: &[
        Part { name: "packet", cell: Cell::Whole },
    ] },
    Form { name: "replay.hear", function: false, result: Some(STEP_TYPE), parts: &[
        Part { name: "client", cell: Cell::Whole }, Part { name: "packet", cell: Cell::Whole },
    ] },
    Form { name: "replay.tick", function: false, result: Some(STEP_TYPE), parts: &[
        Part { name: "client", cell: Cell::Whole },
    ] },
    Form { name: "replay.wake", function: false, result: Some(STEP_TYPE), parts: &[
        Part { name: "client", cell: Cell::Whole },
    ] },
    Form { name: "replay.watch", function: false, result: Some(STEP_TYPE), parts: &[
        Part { name: "client", cell: Cell::Whole }, Part { name: "channel_id", cell: Cell::Long },
    ] },
    Form { name: "replay.restart", function: false, result: Some(STEP_TYPE), parts: &[
        Part { name: "client", cell: Cell::Whole },
    ] },
    Form { name: "replay.tooLong", function: false, result: Some(STEP_TYPE), parts: &[] },
    Form { name: "replay.channelTooLong", function: false, result: Some(STEP_TYPE), parts: &[
        Part { name: "channel_id", cell: Cell::Long },
    ] },
    Form { name: "state.new", function: false, result: Some(EVENT_TYPE), parts: &[
        Part { name: "body", cell: Cell::Body },
    ] },
    Form { name: "state.edit", function: false, result: Some(EVENT_TYPE), parts: &[
        Part { name: "body", cell: Cell::Body },
    ] },
    Form { name: "state.delete", function: false, result: Some(EVENT_TYPE), parts: &[
        Part { name: "ids", cell: Cell::Ids },
    ] },
    Form { name: "state.read", function: false, result: Some(EVENT_TYPE), parts: &[
        Part { name: "max_id", cell: Cell::Signed },
    ] },
    Form { name: "state.lane", function: false, result: Some(LANE_TYPE), parts: &[
        Part { name: "restart", cell: Cell::Whole }, Part { name: "at", cell: Cell::Whole },
        Part { name: "events", cell: Cell::Many { head: EVENT_TYPE } },
    ] },
    Form { name: "state.setting", function: false, result: Some(SETTING_TYPE), parts: &[
        Part { name: "key", cell: Cell::Key }, Part { name: "value", cell: Cell::Body },
    ] },
    Form { name: "state.channel", function: false, result: Some(CHANNEL_TYPE), parts: &[
        Part { name: "channel_id", cell: Cell::Long }, Part { name: "lane", cell: Cell::Bare { form: LANE } },
        Part { name: "recent", cell: Cell::Bodies },
    ] },
    Form { name: "state.client", function: false, result: Some(CLIENT_TYPE), parts: &[
        Part { name: "version", cell: Cell::Whole }, Part { name: "next", cell: Cell::Whole },
        Part { name: "common", cell: Cell::Bare { form: LANE } },
        Part { name: "secret", cell: Cell::Bare { form: LANE } }, Part { name: "date", cell: Cell::Whole },
        Part { name: "seq", cell: Cell::Whole }, Part { name: "settings", cell: Cell::ManyBare { form: SETTING } },
        Part { name: "channels", cell: Cell::ManyBare { form: CHANNEL } },
    ] },
    Form { name: "updates.getState", function: true, result: Some(STATE_TYPE), parts: &[] },
    Form { name: "updates.getDifference", function: true, result: Some(DIFFERENCE_TYPE), parts: &[
        Part { name: "pts", cell: Cell::Signed }, Part { name: "qts", cell: Cell::Signed },
        Part { name: "date", cell: Cell::Whole },
    ] },
    Form { name: "updates.getChannelDifference", function: true, result: Some(CHANNEL_DIFFERENCE_TYPE), parts: &[
        Part { name: "channel_id", cell: Cell::Long }, Part { name: "pts", cell: Cell::Signed },
    ] },
    Form { name: "peer.invoke", function: true, result: None, parts: &[
        Part { name: "number", cell: Cell::Whole }, Part { name: "query", cell: Cell::Query },
    ] },
    Form { name: "peer.post", function: true, result: Some(RECEIPT_TYPE), parts: &[
        Part { name: "random_id", cell: Cell::Long }, Part { name: "posts", cell: Cell::Many { head: POST_TYPE } },
    ] },
];

const TYPES: [&str; 14] = [
    "Update",
    "Updates",
    "updates.State",
    "updates.Difference",
    "updates.ChannelDifference",
    "peer.Frame",
    "peer.Receipt",
    "peer.Post",
    "replay.Step",
    "state.Event",
    "state.Lane",
    "state.Setting",
    "state.Channel",
    "state.Client",
];

/// The forms in the order of their numbers.
pub fn forms() -> &'static [Form]
    ensures { map form_view result.now ≡ defined.forms }
{
    &FORMS
}

/// The names of the types in the order of their numbers.
pub fn type_names() -> &'static [&'static str]
    ensures { map (λ s. s.now) result.now ≡ defined.type_names }
{
    &TYPES
}
