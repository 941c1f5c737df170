// A place as C takes it.
ghost use Rattle.std.specs.Prelude.{◌≡◌};
ghost use Rattle.exports.specs.Place.{place_number};

// All ones: there is no place.
pub(crate) const NOWHERE: u64 = 0xffff_ffff_ffff_ffff;

// The index of a place, and all ones where there is none.
pub(crate) fn number(place: Option<usize>) -> u64
    ensures { result ≡ place_number place }
{
    place.map_or(NOWHERE, |at| at as u64)
}
