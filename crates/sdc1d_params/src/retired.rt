// Names that end in two or more stars, which an ordinary build refuses.
ghost use Rattle.std.specs.Prelude.{◌≡◌, ◌&&◌, ◌||◌};
ghost use Rattle.lists.specs.Find.{any};
ghost use Rattle.sdc_common.specs.Lent.{is_retired_glue};
ghost use Rattle.sdc_common.specs.inner.Fit.{FitNames};
ghost use Rattle.sdc1d_params.specs.inner.Set.{set_of};
ghost use Rattle.sdc1d_params.specs.Params.{is_ordinary, is_retired_entry, strand_names};

use crate::Build;
use crate::entries::{first_entry, first_name};
use crate::fit::FitEntry;
use crate::set::ParameterSet;
use sdc_common::retired::{any_retired, is_retired};

impl FitEntry<'_> {
    // Whether a name of an entry retires.
    fn is_retired(&self) -> bool
        ensures { result ≡ is_retired_entry self.now.text.now self.now.entry }
    {
        is_retired(self.text, first_name(self.entry)) || is_retired(self.text, self.entry.second)
    }
}

// Whether a name of some entry does, whether or not the entry is passed over.
fn any_retired_entry(set: &ParameterSet) -> bool
    ensures { result ≡ any (is_retired_entry set.now.lent.text.now) (set_of set.now).entries.each }
{
    first_entry(&set.lent, |entry| set.fit(entry).is_retired()).is_some()
}

// Whether the build is an ordinary one, and a name of a strand or an entry retires.
pub(crate) fn refuses_names(build: Build, set: &ParameterSet) -> bool
    requires { FitNames set.now.lent.text.now set.now.lent.strands.now }
    ensures { result ≡ (is_ordinary build && (any is_retired_glue (strand_names (set_of set.now)) || any (is_retired_entry set.now.lent.text.now) (set_of set.now).entries.each)) }
{
    match build {
        Build::Archive => false,
        Build::Ordinary => {
            any_retired(set.lent.text, set.lent.strands) || any_retired_entry(set)
        }
    }
}
