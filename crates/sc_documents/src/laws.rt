//! What holds of positions and offsets.

ghost use Rattle.sc_documents.specs.Positions.{PlacesComeBack};

/// The offset of the position of a place is that place, if no character and no line end is cut there.
pub fn places_come_back()
    ensures { PlacesComeBack }
{}
