// A parameter set whose entries were looked at.
ghost use Rattle.std.specs.Prelude.{◌≡◌, false, ◌<◌};
ghost use Rattle.sdc1d_params.specs.Entries.{unfit_entries};
ghost use Rattle.sdc1d_params.specs.Params.{params_lent};

use crate::entries::entry_at;
use crate::fit::FitEntry;
use crate::{Entry, LentParameters};

// A parameter set whose entries are fit.
#[derive(Drop)]
pub(crate) struct ParameterSet<'a> {
    pub(crate) lent: LentParameters<'a>,
    ghost fit: { unfit_entries lent.text.now (params_lent lent).entries ≡ false },
}

impl<'a> ParameterSet<'a> {
    ghost use Rattle.sdc1d_params.specs.Entries.{entry_at, entry_rows, unfit_entry};

    // An entry of the set with its text.
    pub(crate) fn fit(&self, entry: Entry) -> FitEntry<'a>
        requires { unfit_entry self.now.lent.text.now entry ≡ false }
        ensures { (result.text.now ≡ self.now.lent.text.now) × (result.entry ≡ entry) }
    {
        FitEntry {
            text: self.lent.text,
            entry,
        }
    }

    // Entry i.
    pub(crate) fn entry(&self, i: usize) -> FitEntry<'a>
        requires { i < entry_rows self.now.lent.entries.now }
        ensures { (result.text.now ≡ self.now.lent.text.now) × (result.entry ≡ entry_at self.now.lent.entries.now self.now.lent.energies.now i) }
    {
        self.fit(entry_at(self.lent.entries, self.lent.energies, i))
    }
}
