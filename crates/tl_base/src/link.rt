//! Links: a source and a sink in one.
ghost use Rattle.std.specs.Prelude.{◌≡◌};
ghost use Rattle.tl_base.specs.Using.{Aside};

use crate::sink::Sink;
use crate::source::Source;

/// A link to somebody else, from which bytes come and to which bytes go. It has no call of its own.
pub trait Link: Source + Sink {
    /// What it stands for other than the link itself.
    ghost beside: { Self → Aside };

    /// It counts its faults once.
    ghost one_count: { (x : Self) → (Self.Source.state x).faults ≡ (Self.Sink.state x).faults };

    /// It is sound as a source where it is sound as a sink.
    ghost one_truth: { (x : Self) → (Self.Source.state x).sound ≡ (Self.Sink.state x).sound };

    /// What stands beside it as a source says what was written.
    ghost reading_keeps_written: { (x y : Self) → (Self.Source.state x).aside ≡ (Self.Source.state y).aside → (Self.Sink.state x).written ≡ (Self.Sink.state y).written };

    /// What stands beside it as a source says its room.
    ghost reading_keeps_room: { (x y : Self) → (Self.Source.state x).aside ≡ (Self.Source.state y).aside → (Self.Sink.state x).room ≡ (Self.Sink.state y).room };

    /// What stands beside it as a source says what stands beside the link.
    ghost reading_keeps_beside: { (x y : Self) → (Self.Source.state x).aside ≡ (Self.Source.state y).aside → beside x ≡ beside y };

    /// What stands beside it as a sink says what is left.
    ghost writing_keeps_left: { (x y : Self) → (Self.Sink.state x).aside ≡ (Self.Sink.state y).aside → (Self.Source.state x).left ≡ (Self.Source.state y).left };

    /// What stands beside it as a sink says what stands beside the link.
    ghost writing_keeps_beside: { (x y : Self) → (Self.Sink.state x).aside ≡ (Self.Sink.state y).aside → beside x ≡ beside y };
}
