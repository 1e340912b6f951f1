//! Laws of spellings, each carried by a function that does nothing.
ghost use Rattle.std.specs.Prelude.{⊤};
ghost use Rattle.wire_values.specs.Calls.{call_tree};
ghost use Rattle.wire_values.specs.Carried.{FitsCall, FitsSaved, FitsStep, IsSaved};
ghost use Rattle.wire_values.specs.CarriedFrames.{FitsFrame, IsFrame};
ghost use Rattle.wire_values.specs.Frames.{frame_tree};
ghost use Rattle.wire_values.specs.SavedClients.{saved_tree};
ghost use Rattle.wire_values.specs.Steps.{step_tree};
ghost use Rattle.box_wire.specs.Kinds.{calls, frames, saved_clients, steps};
ghost use Rattle.box_world.specs.SizeLaws.{CallsAreLong, FramesAreLong, MeantFit, SpelledAreMeant, SpelledAreOfTheKind, SpelledAreWhole, SpelledHaveTheirSize};

/// A frame that is spelled has a value of its kind, and its spelling has the frame's size, which is a multiple of 4; it means the frame where this has no cause. A frame that is meant has parts with a spelling.
pub fn frames_have_sizes()
    ensures kind { SpelledAreOfTheKind frames frame_tree }
    ensures size { SpelledHaveTheirSize frames frame_tree }
    ensures whole { SpelledAreWhole frames frame_tree }
    ensures meant { SpelledAreMeant frames frame_tree IsFrame }
    ensures fit { MeantFit frames frame_tree IsFrame FitsFrame }
    ensures least { FramesAreLong }
{}

/// Likewise a call.
pub fn calls_have_sizes()
    ensures kind { SpelledAreOfTheKind calls call_tree }
    ensures size { SpelledHaveTheirSize calls call_tree }
    ensures whole { SpelledAreWhole calls call_tree }
    ensures meant { SpelledAreMeant calls call_tree (λ _. ⊤) }
    ensures fit { MeantFit calls call_tree (λ _. ⊤) FitsCall }
    ensures least { CallsAreLong }
{}

/// Likewise a step.
pub fn steps_have_sizes()
    ensures kind { SpelledAreOfTheKind steps step_tree }
    ensures size { SpelledHaveTheirSize steps step_tree }
    ensures whole { SpelledAreWhole steps step_tree }
    ensures meant { SpelledAreMeant steps step_tree (λ _. ⊤) }
    ensures fit { MeantFit steps step_tree (λ _. ⊤) FitsStep }
{}

/// Likewise a saved client.
pub fn saved_clients_have_sizes()
    ensures kind { SpelledAreOfTheKind saved_clients saved_tree }
    ensures size { SpelledHaveTheirSize saved_clients saved_tree }
    ensures whole { SpelledAreWhole saved_clients saved_tree }
    ensures meant { SpelledAreMeant saved_clients saved_tree IsSaved }
    ensures fit { MeantFit saved_clients saved_tree IsSaved FitsSaved }
{}
