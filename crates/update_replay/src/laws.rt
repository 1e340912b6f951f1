//! Laws of the lines that are written of a world, each carried by a function that does nothing.
ghost use Rattle.update_replay.specs.LineLaws.{EndsAreTold, StepsAreTold};
ghost use Rattle.update_replay.specs.MadeLaws.{EachIsMade, MadeOffsetsAreLow, OneIsMade};

/// What is written of a world after a possible step of a run, and at its end, is what the report of the run is to have, which is told by numbers, by the server's boxes, and by the bytes of what was sent.
pub fn lines_are_told()
    ensures steps { StepsAreTold }
    ensures ends { EndsAreTold }
{}

/// Each number and count of steps has a made run, and one. Where its pool would be too full, that step's offset is 48 for each step at most.
pub fn runs_are_made()
    ensures each { EachIsMade }
    ensures one { OneIsMade }
    ensures low { MadeOffsetsAreLow }
{}
