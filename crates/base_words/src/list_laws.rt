//! Laws of lists, and of writes to a list by place.

ghost use Rattle.base_words.specs.ListLaws.{HasJoined, HasPlace, OnceJoined, Filtered, WrittenJoined, WritesLand, TouchedAlike, TouchesJoined, StandsJoined, StandsStill, HoldsPartLaws};

/// An item of two lists in a row is an item of the first or of the second.
pub fn has_joined<T>()
    ensures { HasJoined T }
{}

/// An item is what stands at some place.
pub fn has_place<T>()
    ensures { HasPlace T }
{}

/// Two lists in a row have nothing twice exactly where neither has and they are apart.
pub fn once_joined<T>()
    ensures { OnceJoined T }
{}

/// What passes a test and what fails it are the parts of a list.
pub fn filtered<T>()
    ensures { Filtered T }
{}

/// Writes in a row are the first ones and then the others.
pub fn written_joined<T>()
    ensures { WrittenJoined T }
{}

/// Writes leave the length, and what stands where none of them is.
pub fn writes_land<T>()
    ensures { WritesLand T }
{}

/// Where a write is, the same stands after the writes whatever stood there before.
pub fn touched_alike<T>()
    ensures { TouchedAlike T }
{}

/// A place is touched by writes in a row where the first ones or the others touch it.
pub fn touches_joined<T>()
    ensures { TouchesJoined T }
{}

/// Items stand in a row where the first ones and the others stand.
pub fn stands_joined<T>()
    ensures { StandsJoined T }
{}

/// What stands where no write is stands there after the writes.
pub fn stands_still<T>()
    ensures { StandsStill T }
{}

/// A beginning of one of two lists in a row was added: it is a beginning of both in a row.
pub fn holds_part<T>()
    ensures { HoldsPartLaws T }
{}
