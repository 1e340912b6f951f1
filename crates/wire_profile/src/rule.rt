//! The rules, and the values that they are for.
ghost use Rattle.std.specs.Prelude.{◌≡◌};
ghost use Rattle.wire_profile.specs.inner.Walks as walks;

/// A rule of a message, one for each cause.
#[derive(Clone, Copy)]
pub enum Rule {
    Version,
    Number,
    Update,
    Count,
    End,
    Date,
    Setting,
    Seq,
}

/// What a message is.
#[derive(Clone, Copy)]
pub enum Root {
    Frame,
    Call,
    Step,
    Saved,
}

/// A frame's rules, in the order in which their causes are answered.
const FRAME_RULES: [Rule; 7] = [
    Rule::Number,
    Rule::Update,
    Rule::Count,
    Rule::End,
    Rule::Date,
    Rule::Setting,
    Rule::Seq,
];

/// Likewise those of a call or a step.
const STEP_RULES: [Rule; 2] = [Rule::Number, Rule::Date];

/// Likewise those of a saved client.
const SAVED_RULES: [Rule; 6] = [
    Rule::Version,
    Rule::Number,
    Rule::Count,
    Rule::End,
    Rule::Date,
    Rule::Seq,
];

/// The rules for this root, in the order in which their causes are answered.
pub fn rules_of(root: Root) -> &'static [Rule]
    ensures { result.now ≡ walks.rules_of root }
{
    match root {
        Root::Frame => &FRAME_RULES,
        Root::Call | Root::Step => &STEP_RULES,
        Root::Saved => &SAVED_RULES,
    }
}
