//! Laws of tracks and of the keys of worlds.

ghost use Rattle.wit_types.specs.Track.{TracksAreTheirOwn};
ghost use Rattle.wit_types.specs.WorldKey.{KeysAreLawful};

/// The track of a version's track is that track, and so is its text.
pub fn law_tracks_are_their_own()
    ensures { TracksAreTheirOwn }
{}

/// Two keys of a world are equal where both are names of one spelling or both are one interface, and then alone; and equal
/// keys hash alike.
pub fn law_world_keys_are_lawful()
    ensures { KeysAreLawful }
{}
