ghost use Rattle.points.specs.Laws.{NumbersCompareFromFront, PlacesTellPoints, CodesTellPoints};
ghost use Rattle.points.specs.Tapes.{TapesHavePlainForms};

/// Codes are compared lexicographically: of two lists of the same length the one with the smaller
/// number at the first index where they differ comes first.
pub fn numbers_compare_from_front()
    ensures { NumbersCompareFromFront }
{}

/// No two points of a shape have the same position in the order.
pub fn places_tell_points()
    ensures { PlacesTellPoints }
{}

/// The codes of a shape and the points of that shape correspond one to one: each point has a code of
/// the shape, and each code of the shape is the code of exactly one point.
pub fn codes_tell_points()
    ensures { CodesTellPoints }
{}

/// A run reads at most as many words as its function needs, and the plain form of a tape gives the
/// same run.
pub fn tapes_have_plain_forms()
    ensures { TapesHavePlainForms }
{}
