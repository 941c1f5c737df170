// Names that end in two or more stars.
ghost use Rattle.std.specs.Prelude.{◌≡◌};
ghost use Rattle.lists.specs.Find.{any};
ghost use Rattle.sdc_common.specs.Names.{is_retired};
ghost use Rattle.sdc_common.specs.Lent.{names_of, glue_of, glues_of, is_retired_glue};
ghost use Rattle.sdc_common.specs.inner.Fit.{Fit, FitNames};

use crate::names::{LentName, rows, stars_of};

// The fewest stars of a name that retires.
const FEWEST_RETIRED: usize = 2;

// Whether a name retires.
pub fn retires(name: &[u8]) -> bool
    ensures { result ≡ is_retired name.now }
{
    FEWEST_RETIRED <= stars_of(name)
}

// Whether a name that is there does.
#[tactic(auto, unfolding(crate::specs::Lent::is_retired_glue))]
pub fn is_retired(text: &[u8], name: LentName) -> bool
    requires { Fit text.now name }
    ensures { result ≡ is_retired_glue (glue_of text.now name) }
{
    name.bytes(text).is_some_and(|name| retires(name))
}

// Whether some name of the rows does.
pub fn any_retired(text: &[u8], names: &[usize]) -> bool
    requires { FitNames text.now names.now }
    ensures { result ≡ any is_retired_glue (glues_of text.now (names_of names.now)) }
{
    rows(names)
        .iter()
        .any(|row| is_retired(text, LentName::from(*row)))
}
