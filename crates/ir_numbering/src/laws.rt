ghost use Rattle.ir_numbering.specs.Laws.{APlaceForEachSite, EachNameIsNumbered, PlacesAreWritten, NamesAreWritten, NextNameIsNext};

/// A function whose names are numbered has a position for each of its sites, and its names are in
/// its table. It does nothing.
pub fn has_all_places()
    ensures places { APlaceForEachSite }
    ensures names { EachNameIsNumbered }
{}

/// The number of a name at a site is that of the name that is written at the site's position. It
/// does nothing.
pub fn has_names_as_written()
    ensures places { PlacesAreWritten }
    ensures names { NamesAreWritten }
{}

/// The name of what is written without one is the next number: one more than the greatest before it,
/// or 0, without leading zeros. It does nothing.
pub fn is_next_number()
    ensures { NextNameIsNext }
{}
