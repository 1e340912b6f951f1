//! Laws of worlds, each carried by a function that does nothing.
ghost use Rattle.std.specs.Prelude.{ℤ};
ghost use Rattle.box_client.specs.States.{ClientState};
ghost use Rattle.box_client.specs.Asking.{ticks, wakes, restarted};
ghost use Rattle.box_world.specs.Laws.{NewClientsAgree, AgreeAsServersGrow, AgreeAsClientsGoOn, StillAsClientsGoOn, ClientsAgree, PacketsFit, RepliesAreTaken, ClientsCatchUp, ClientsStay, ChannelsCatchUp, KnownPostsChangeNothing, NextStaysBelow, NumbersStayBelow, PacketsAreInRange, PossibleGoOn, RefusedPostsChangeNothing, RunsGoOn, ServersKeepOrder, WorldsGrow};
ghost use Rattle.box_world.specs.NumberWorlds.{NumbersAlone};
ghost use Rattle.box_world.specs.Recovering.{FramesAreBounded};
ghost use Rattle.box_world.specs.Streams.{HonestStreamsAgree};
ghost use Rattle.box_world.specs.Worlds.{watches};

/// A new client agrees with every server, and one that agrees with a server does so as the server goes on.
pub fn servers_go_on()
    ensures new { NewClientsAgree }
    ensures grow { AgreeAsServersGrow }
{}

/// A client that asks, wakes, watches a channel or begins anew agrees with its server as before; where it asks no more it stands still.
pub fn clients_go_on()
    ensures ticks { AgreeAsClientsGoOn (λ c. (ticks c).client) }
    ensures wakes { AgreeAsClientsGoOn wakes }
    ensures watches { (id : ℤ) → AgreeAsClientsGoOn (watches id) }
    ensures restarts { AgreeAsClientsGoOn restarted }
    ensures wakes_still { StillAsClientsGoOn wakes }
    ensures watches_still { (id : ℤ) → StillAsClientsGoOn (watches id) }
    ensures restarts_still { StillAsClientsGoOn restarted }
{}

/// After every list of steps, where messages may be lost, repeated and reordered, each client agrees with the server, and takes each reply that it still awaits.
pub fn worlds_agree()
    ensures agree { ClientsAgree }
    ensures taken { RepliesAreTaken }
    ensures catch_up { ClientsCatchUp }
    ensures channels_catch_up { ChannelsCatchUp }
    ensures packets { PacketsFit }
    ensures numbers { NumbersStayBelow }
    ensures next { NextStaysBelow }
    ensures ranges { PacketsAreInRange }
    ensures order { ServersKeepOrder }
    ensures grow { WorldsGrow }
{}

/// A run with one more step is that step of the run; where both are possible all is; and no client comes or goes.
pub fn runs_go_on()
    ensures step { RunsGoOn }
    ensures possible { PossibleGoOn }
    ensures clients { ClientsStay }
{}

/// A post that the server knows, or refuses, changes nothing in a world.
pub fn posts_change_nothing()
    ensures known { KnownPostsChangeNothing }
    ensures refused { RefusedPostsChangeNothing }
{}

/// Over every honest stream of frames a client agrees with the server, before and after each frame, and refuses none.
pub fn honest_streams_agree()
    ensures { HonestStreamsAgree }
{}

/// After every list of steps the clients' numbers follow from numbers alone: no event, value or recent message says anything of them.
pub fn numbers_follow()
    ensures { NumbersAlone }
{}

/// A client that asks a server which doesn't change reads so many answers at most until it asks no more.
pub fn frames_are_bounded()
    ensures { FramesAreBounded }
{}
