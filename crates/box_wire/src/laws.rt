//! Laws of messages and their bytes, each carried by a function that does nothing.
ghost use Rattle.std.specs.Prelude.{⊤};
ghost use Rattle.wire_values.specs.Calls.{call_tree};
ghost use Rattle.wire_values.specs.Carried.{FitsCall, FitsSaved, FitsStep, IsSaved};
ghost use Rattle.wire_values.specs.CarriedFrames.{FitsFrame, IsFrame};
ghost use Rattle.wire_values.specs.Frames.{frame_tree};
ghost use Rattle.wire_values.specs.SavedClients.{saved_tree};
ghost use Rattle.wire_values.specs.Steps.{step_tree};
ghost use Rattle.box_wire.specs.Kinds.{calls, frames, saved_clients, steps};
ghost use Rattle.box_wire.specs.Laws.{AreReadBack, AreSpelled};

/// By each profile each frame whose parts have a spelling has one, and that of a frame in range means the frame, so that it is read from it.
pub fn frames_and_bytes()
    ensures spelled { AreSpelled frames frame_tree FitsFrame }
    ensures read_back { AreReadBack frames frame_tree IsFrame FitsFrame }
{}

/// Likewise each call.
pub fn calls_and_bytes()
    ensures spelled { AreSpelled calls call_tree FitsCall }
    ensures read_back { AreReadBack calls call_tree (λ _. ⊤) FitsCall }
{}

/// Likewise each step.
pub fn steps_and_bytes()
    ensures spelled { AreSpelled steps step_tree FitsStep }
    ensures read_back { AreReadBack steps step_tree (λ _. ⊤) FitsStep }
{}

/// Likewise each saved client.
pub fn saved_clients_and_bytes()
    ensures spelled { AreSpelled saved_clients saved_tree FitsSaved }
    ensures read_back { AreReadBack saved_clients saved_tree IsSaved FitsSaved }
{}
