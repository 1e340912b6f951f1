//! Laws of the definitions, carried by functions that do nothing.
ghost use Rattle.wire_values.specs.Laws.{FramesAreSame, FramesComeBack, FramesAreRead, FramesFit, StepsAreSame, StepsComeBack, StepsFit, CallsAreSame, CallsComeBack, CallsAreServed, CallsFit, SavedAreSame, SavedComeBack, SavedAreRead, SavedFit};

/// Frames and values: of a value that is a frame's and of which all is kept, the frame has the same value again, made normal; and the frame of a frame's value is the frame.
pub fn frames_and_values()
    ensures same { FramesAreSame }
    ensures back { FramesComeBack }
    ensures read { FramesAreRead }
    ensures fit { FramesFit }
{}

/// Steps and values.
pub fn steps_and_values()
    ensures same { StepsAreSame }
    ensures back { StepsComeBack }
    ensures fit { StepsFit }
{}

/// Calls and values, where the call carries a request.
pub fn calls_and_values()
    ensures same { CallsAreSame }
    ensures back { CallsComeBack }
    ensures served { CallsAreServed }
    ensures fit { CallsFit }
{}

/// Saved clients and values: the version becomes the one that is written.
pub fn saved_clients_and_values()
    ensures same { SavedAreSame }
    ensures back { SavedComeBack }
    ensures read { SavedAreRead }
    ensures fit { SavedFit }
{}
