//! Laws of the definitions, carried by a function that does nothing.
ghost use Rattle.channel_box.specs.Laws.{LeavesNoEvents};

/// A channel that was too far behind begins anew, without the events that it had.
pub fn channels_begin_anew()
    ensures { LeavesNoEvents }
{}
