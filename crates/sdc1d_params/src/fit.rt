// Entries that are fit: their names and sequences lie in the text, and no sequence is too long.
ghost use Rattle.std.specs.Prelude.{◌≡◌, false, position};
ghost use Rattle.sdc1d_params.specs.Entries.{energy_of, unfit_entry, has_bad_base, is_short, entry_dg, entry_ds};
ghost use Rattle.sdc1d_params.specs.inner.Set.{set_of};
ghost use Rattle.sdc1d_params.specs.Params.{energies_of};

use crate::Entry;
use crate::entries::{GsOrSeq, first_entry, gs_or_seq};
use crate::set::ParameterSet;
use reply::Refusal;
use utils::DgDs;

// The shortest sequence.
const SHORTEST: usize = 2;

// An entry, and the text that its names and its sequence lie in. The energy stays in the entry's numbers, of which `gs_or_seq` tells it: a field for it
// is no plainer, since it would stand twice, beside the entry of which invariant and contracts speak.
#[derive(Clone, Copy)]
pub(crate) struct FitEntry<'a> {
    pub(crate) text: &'a [u8],
    pub(crate) entry: Entry,
    ghost fit: { unfit_entry text.now entry ≡ false },
}

impl FitEntry<'_> {
    // dG and dS that the entry gives.
    pub(crate) fn dg_ds(&self) -> DgDs
        ensures { (result.dg.0 ≡ entry_dg self.now.text.now (energy_of self.now.entry)) × (result.ds.0 ≡ entry_ds self.now.text.now (energy_of self.now.entry)) }
    {
        match gs_or_seq(self.entry) {
            GsOrSeq::Given(dg, ds) => DgDs::new(dg, ds),
            // A sequence without an energy was refused before.
            GsOrSeq::Sequence(part) => {
                utils::string_dna_dg_ds(part.bytes(self.text)).unwrap_or_default()
            }
        }
    }

    // Whether its sequence has a byte that is no base.
    fn has_bad_base(&self) -> bool
        ensures { result ≡ has_bad_base self.now.text.now (energy_of self.now.entry) }
    {
        match gs_or_seq(self.entry) {
            GsOrSeq::Given(_, _) => false,
            GsOrSeq::Sequence(part) => {
                utils::string_dna_dg_ds(part.bytes(self.text)).err() == Some(Refusal::NotABase)
            }
        }
    }

    // Whether its sequence has fewer than 2 bases.
    fn is_short(&self) -> bool
        ensures { result ≡ is_short self.now.text.now (energy_of self.now.entry) }
    {
        match gs_or_seq(self.entry) {
            GsOrSeq::Given(_, _) => false,
            GsOrSeq::Sequence(part) => part.size < SHORTEST,
        }
    }
}

// The first entry whose sequence has a byte that is no base, whether or not the entry is then passed over.
pub(crate) fn first_bad_base(set: &ParameterSet) -> Option<usize>
    ensures { result ≡ position (has_bad_base set.now.lent.text.now) (energies_of (set_of set.now)) }
{
    first_entry(&set.lent, |entry| set.fit(entry).has_bad_base())
}

// The first entry whose sequence is too short, whether or not the entry is then passed over.
pub(crate) fn first_short(set: &ParameterSet) -> Option<usize>
    ensures { result ≡ position (is_short set.now.lent.text.now) (energies_of (set_of set.now)) }
{
    first_entry(&set.lent, |entry| set.fit(entry).is_short())
}
