// Scaffold names: whether each is known as spelled, and the glues of the positions.
ghost use Rattle.std.specs.Prelude.{◌≡◌, ℕ, ◌/◌, ◌<◌, length, get_or, position};
ghost use Rattle.lists.specs.Build.{up_to};
ghost use Rattle.sdc_common.specs.Lent.{glue_of};
ghost use Rattle.sdc_common.specs.inner.Fit.{Fit, FitNames};
ghost use Rattle.sdc1d_params.specs.inner.Scaffold.{unknown_by, unknown_at};

use sdc_common::names::{LentName, rows, stars_of};

// A known name is a base or a base with one star.
const MOST_STARS: usize = 1;

// Whether a name is unknown as spelled, where its reduced name has this number.
#[tactic(auto, unfolding(crate::specs::inner::Scaffold::unknown_by))]
fn is_unknown(text: &[u8], name: LentName, number: usize) -> bool
    requires { Fit text.now name }
    ensures { result ≡ unknown_by number (glue_of text.now name) }
{
    name.bytes(text)
        .is_some_and(|name| number == 0 || MOST_STARS < stars_of(name))
}

// The first name that is unknown as spelled.
pub(crate) fn first_unknown(text: &[u8], scaffold: &[usize], numbers: &[usize]) -> Option<usize>
    requires fit_names { FitNames text.now scaffold.now }
    requires numbers_len { length numbers.now ≡ length scaffold.now / 3 }
    ensures { result ≡ position (unknown_at text.now scaffold.now numbers.now) (up_to (length scaffold.now / 3)) }
{
    rows(scaffold).iter().zip(numbers).position(|(row, number)| is_unknown(
        text,
        LentName::from(*row),
        *number,
    ))
}

// The glues of the positions. By place: after a `zip` of `iter_mut` nothing is known of what was written.
pub(crate) fn write_scaffold(numbers: &[usize], glues: &mut [u8])
    requires glues_len { length glues.old ≡ length numbers.now }
    requires by_index { (k : ℕ) → k < length numbers.now → get_or numbers.now k 0 < 64 }
    ensures { glues.new ≡ numbers.now }
{
    for (i, number) in numbers.iter().enumerate() {
        glues[i] = *number as u8;
    }
}
