//! Laws of the definitions, carried by a function that does nothing.
ghost use Rattle.box_events.specs.DifferenceLaws.{IsOneList, EachFits, EachThatFitsIsWoven, HasOthers, IsNotRefused, EachHasParts, Joins, IsMade, IsWovenOfOthers, Reaches, IsWhy, KeepsCounts, OthersKeepTheirNumbers};

/// Woven lists: a list is woven of its parts and of no others, and no other list of these; of parts that fit a list is woven, and of no others. What `woven_of` makes is that list, and why it makes none is the cause that `weave` answers. Messages never come before another event that stands first.
pub fn woven_lists()
    ensures one { IsOneList }
    ensures fits { EachFits }
    ensures woven { EachThatFitsIsWoven }
    ensures others { HasOthers }
    ensures taken { IsNotRefused }
    ensures parts { EachHasParts }
    ensures joins { Joins }
    ensures made { IsMade }
    ensures made_back { IsWovenOfOthers }
    ensures reaches { Reaches }
    ensures why { IsWhy }
    ensures counted { KeepsCounts }
    ensures numbered { OthersKeepTheirNumbers }
{}
