//! The first cause in a message, which is found in one walk over its value.
ghost use Rattle.std.specs.Prelude.{◌≡◌};
ghost use Rattle.tl_types.specs.Seen.{view, views};
ghost use Rattle.tl_types.specs.Values.{node};
ghost use Rattle.wire_profile.specs.Causes as defined;
ghost use Rattle.wire_profile.specs.Causes.{broken};
ghost use Rattle.wire_profile.specs.inner.Walks as walks;
ghost use Rattle.wire_profile.specs.declared.rule.Root.TheVariants.{Frame, Step, Saved};

use crate::breaking::{broken, not_served};
use crate::rule::{Root, Rule, rules_of};
use crate::wire_fault::WireFault;
use tl_types::Value;

// The rules before the first that a record breaks. What it breaks becomes the cause.
fn before<'r>(
    rules: &'r [Rule],
    form: u32,
    fields: &[Value],
    cause: &mut Option<WireFault>,
) -> &'r [Rule]
    ensures rules { result.now ≡ walks.unbroken (λ rule. broken rule form (views fields.now)) rules.now }
    ensures cause { cause.new ≡ walks.found_here (λ rule. broken rule form (views fields.now)) rules.now cause.old }
{
    for (index, rule) in rules.iter().enumerate() {
        if let Some(fault) = broken(*rule, form, fields) {
            *cause = Some(fault);
            return &rules[..index];
        }
    }
    rules
}

// The rules before the first that is broken in a value. What is broken of it becomes the cause.
#[cycle(walk)]
#[inline(always)]
fn walk<'r>(rules: &'r [Rule], value: &Value, cause: &mut Option<WireFault>) -> &'r [Rule]
    ensures rules { result.now ≡ walks.left rules.now (view value.now) }
    ensures cause { cause.new ≡ walks.found rules.now (view value.now) cause.old }
{
    match value {
        Value::List(items) => walk_each(rules, items, cause),
        Value::Node { entry, fields } => walk_record(rules, *entry, fields, cause),
        Value::Call { entry, fields } => walk_record(rules, *entry, fields, cause),
        _ => rules,
    }
}

// Likewise in a record or call, and then in its fields.
#[cycle(walk)]
fn walk_record<'r>(
    rules: &'r [Rule],
    form: u32,
    fields: &[Value],
    cause: &mut Option<WireFault>,
) -> &'r [Rule]
    ensures rules { result.now ≡ walks.left rules.now (node form (views fields.now)) }
    ensures cause { cause.new ≡ walks.found rules.now (node form (views fields.now)) cause.old }
{
    walk_each(before(rules, form, fields, cause), fields, cause)
}

// Likewise in values, of which each is looked at once.
#[cycle(walk)]
fn walk_each<'r>(rules: &'r [Rule], values: &[Value], cause: &mut Option<WireFault>) -> &'r [Rule]
    ensures rules { result.now ≡ walks.left_among rules.now (views values.now) }
    ensures cause { cause.new ≡ walks.found_among rules.now (views values.now) cause.old }
{
    let mut left = rules;
    for value in values {
        left = walk(left, value, cause);
    }
    left
}

fn cause_of(root: Root, value: &Value) -> Option<WireFault>
    ensures { result ≡ defined.cause_of root (view value.now) }
{
    let mut cause = None;
    walk(rules_of(root), value, &mut cause);
    cause
}

/// Why a frame of a server is no message, if it isn't. The value's records have the numbers of forms.
pub fn frame_cause(frame: &Value) -> Option<WireFault>
    ensures { result ≡ defined.cause_of Frame (view frame.now) }
{
    cause_of(Root::Frame, frame)
}

/// Why a call is no request, if it isn't. The value's records have the numbers of forms, and what is no form a greater one.
pub fn call_cause(call: &Value) -> Option<WireFault>
    ensures { result ≡ defined.call_cause (view call.now) }
{
    match not_served(call) {
        Some(fault) => Some(fault),
        None => cause_of(Root::Call, call),
    }
}

/// Why a replay's step is no message, if it isn't. The value's records have the numbers of forms.
pub fn step_cause(step: &Value) -> Option<WireFault>
    ensures { result ≡ defined.cause_of Step (view step.now) }
{
    cause_of(Root::Step, step)
}

/// Why a saved client is no message, if it isn't. The value's records have the numbers of forms.
pub fn saved_cause(saved: &Value) -> Option<WireFault>
    ensures { result ≡ defined.cause_of Saved (view saved.now) }
{
    cause_of(Root::Saved, saved)
}
