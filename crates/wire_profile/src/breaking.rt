//! What one record breaks: one function for each rule.
ghost use Rattle.std.specs.Prelude.{◌≡◌};
ghost use Rattle.tl_types.specs.Seen.{view, views};
ghost use Rattle.wire_profile.specs.Causes as causes;
ghost use Rattle.wire_profile.specs.Rules as rules;
ghost use Rattle.wire_forms.specs.Forms as forms;

use crate::ranges::{bad_date, bad_end, bad_ids, bad_number, bad_seq, not_of_ids, not_one, unless};
use crate::rule::Rule;
use crate::standing::stands_among;
use crate::updates::{bad_pack, unordered, wrong_update};
use crate::wire_fault::WireFault;
use tl_types::Value;
use wire_forms::numbers::{
    CHANNEL_DIFFERENCE, CHANNEL_DIFFERENCE_EMPTY, CHANNEL_DIFFERENCE_TOO_LONG, CHANNEL_REPLY,
    CLIENT, DIFFERENCE, DIFFERENCE_EMPTY, DIFFERENCE_REPLY, DIFFERENCE_SLICE, ERROR_REPLY,
    EVENT_DELETE, EVENT_READ, GET_CHANNEL_DIFFERENCE, GET_DIFFERENCE, GET_STATE, INVOKE, LANE,
    POST, RECEIPT, RECEIPT_REPLY, STATE, STATE_REPLY, STEP_DATE, STEP_HEAR, STEP_RESTART,
    STEP_SERVE, STEP_TICK, STEP_WAKE, STEP_WATCH, UPDATE_DELETE_CHANNEL_MESSAGES,
    UPDATE_DELETE_MESSAGES, UPDATE_EDIT_CHANNEL_MESSAGE, UPDATE_EDIT_MESSAGE,
    UPDATE_NEW_CHANNEL_MESSAGE, UPDATE_NEW_ENCRYPTED_MESSAGE, UPDATE_NEW_MESSAGE,
    UPDATE_READ_CHANNEL_HISTORY, UPDATE_READ_HISTORY, UPDATES, UPDATES_COMBINED,
};
use wire_forms::{entry_in, entry_of, int_in, parts_of, word_in};

// Whether a saved client of this version may have these fields.
fn is_known(version: u32, fields: &[Value]) -> bool
    ensures { result ≡ rules.is_known version (views fields.now) }
{
    match version {
        1 => !stands_among(EVENT_READ, fields),
        2 => true,
        _ => false,
    }
}

fn version_fault(form: u32, fields: &[Value]) -> Option<WireFault>
    ensures { result ≡ rules.version_fault form (views fields.now) }
{
    match form {
        CLIENT => unless(
            is_known(word_in(fields, 0), fields),
            WireFault::BadVersion {
                version: int_in(fields, 0),
            },
        ),
        _ => None,
    }
}

fn number_fault(form: u32, fields: &[Value]) -> Option<WireFault>
    ensures { result ≡ rules.number_fault form (views fields.now) }
{
    match form {
        STATE_REPLY | DIFFERENCE_REPLY | CHANNEL_REPLY | RECEIPT_REPLY | ERROR_REPLY | INVOKE => {
            bad_number(1, fields, 0)
        }
        STEP_SERVE | STEP_TICK | STEP_WAKE | STEP_WATCH | STEP_RESTART => bad_number(0, fields, 0),
        STEP_HEAR => bad_number(0, fields, 0).or(bad_number(0, fields, 1)),
        CLIENT => bad_number(0, fields, 1),
        _ => None,
    }
}

fn update_fault(form: u32, fields: &[Value]) -> Option<WireFault>
    ensures { result ≡ rules.update_fault form (views fields.now) }
{
    match form {
        DIFFERENCE => wrong_update(true, fields, 2),
        DIFFERENCE_SLICE => wrong_update(false, fields, 2),
        CHANNEL_DIFFERENCE => wrong_update(false, fields, 4),
        _ => None,
    }
}

fn count_fault(form: u32, fields: &[Value]) -> Option<WireFault>
    ensures { result ≡ rules.count_fault form (views fields.now) }
{
    match form {
        UPDATE_NEW_MESSAGE | UPDATE_EDIT_MESSAGE | UPDATE_READ_HISTORY => not_one(fields, 1, 2),
        UPDATE_DELETE_MESSAGES => not_of_ids(fields, 0, 1, 2),
        UPDATE_NEW_CHANNEL_MESSAGE | UPDATE_EDIT_CHANNEL_MESSAGE | UPDATE_READ_CHANNEL_HISTORY => {
            not_one(fields, 2, 3)
        }
        UPDATE_DELETE_CHANNEL_MESSAGES => not_of_ids(fields, 1, 2, 3),
        EVENT_DELETE => bad_ids(fields, 0),
        _ => None,
    }
}

fn end_fault(form: u32, fields: &[Value]) -> Option<WireFault>
    ensures { result ≡ rules.end_fault form (views fields.now) }
{
    match form {
        UPDATE_NEW_MESSAGE | UPDATE_EDIT_MESSAGE | UPDATE_DELETE_MESSAGES | UPDATE_READ_HISTORY => {
            bad_end(word_in(fields, 2), fields, 1)
        }
        UPDATE_NEW_ENCRYPTED_MESSAGE => bad_end(1, fields, 1),
        UPDATE_NEW_CHANNEL_MESSAGE
        | UPDATE_EDIT_CHANNEL_MESSAGE
        | UPDATE_DELETE_CHANNEL_MESSAGES
        | UPDATE_READ_CHANNEL_HISTORY => bad_end(word_in(fields, 3), fields, 2),
        STATE | RECEIPT | LANE => bad_end(0, fields, 0).or(bad_end(0, fields, 1)),
        CHANNEL_DIFFERENCE_EMPTY | CHANNEL_DIFFERENCE | CHANNEL_DIFFERENCE_TOO_LONG => {
            bad_end(0, fields, 2)
        }
        _ => None,
    }
}

fn date_fault(form: u32, fields: &[Value]) -> Option<WireFault>
    ensures { result ≡ rules.date_fault form (views fields.now) }
{
    match form {
        DIFFERENCE_EMPTY | STEP_DATE => bad_date(fields, 0),
        UPDATES | UPDATES_COMBINED => bad_date(fields, 1),
        STATE | RECEIPT | GET_DIFFERENCE => bad_date(fields, 2),
        CLIENT => bad_date(fields, 4),
        _ => None,
    }
}

fn setting_fault(form: u32, fields: &[Value]) -> Option<WireFault>
    ensures { result ≡ rules.setting_fault form (views fields.now) }
{
    match form {
        UPDATES => unordered(fields, 0, 2),
        UPDATES_COMBINED => unordered(fields, 0, 3),
        _ => None,
    }
}

fn seq_fault(form: u32, fields: &[Value]) -> Option<WireFault>
    ensures { result ≡ rules.seq_fault form (views fields.now) }
{
    match form {
        UPDATES => bad_pack(fields, 0, 2, 2),
        UPDATES_COMBINED => bad_pack(fields, 0, 2, 3),
        DIFFERENCE_EMPTY => bad_seq(fields, 1),
        STATE | RECEIPT => bad_seq(fields, 3),
        CLIENT => bad_seq(fields, 5),
        _ => None,
    }
}

/// What a record of this form breaks of a rule.
pub fn broken(rule: Rule, form: u32, fields: &[Value]) -> Option<WireFault>
    ensures { result ≡ causes.broken rule form (views fields.now) }
{
    match rule {
        Rule::Version => version_fault(form, fields),
        Rule::Number => number_fault(form, fields),
        Rule::Update => update_fault(form, fields),
        Rule::Count => count_fault(form, fields),
        Rule::End => end_fault(form, fields),
        Rule::Date => date_fault(form, fields),
        Rule::Setting => setting_fault(form, fields),
        Rule::Seq => seq_fault(form, fields),
    }
}

// Whether a server answers calls of this form.
fn is_request(form: u32) -> bool
    ensures { result ≡ forms.is_request form }
{
    matches!(
        form,
        GET_STATE | GET_DIFFERENCE | GET_CHANNEL_DIFFERENCE | POST
    )
}

/// `NotServed`, where a call isn't one by which a client asks a server.
pub fn not_served(call: &Value) -> Option<WireFault>
    ensures { result ≡ rules.not_served (view call.now) }
{
    unless(entry_of(call) == INVOKE, WireFault::NotServed { place: 0 }).or(unless(
        is_request(entry_in(parts_of(call), 1)),
        WireFault::NotServed { place: 8 },
    ))
}
