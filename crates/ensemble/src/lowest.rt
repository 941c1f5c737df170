// The search for the lowest configuration: the pass over the positions, and the configuration that is traced back from the lowest entry of the last
// (sdc1d.rs, `mfe_configuration`).
ghost use Rattle.std.specs.Prelude.{◌≡◌, ℕ, ◌<◌, length, get_or, Float};
ghost use Rattle.std.specs.Float.Ieee as Ieee;
ghost use Rattle.std.specs.Float.{binary64, nan};
ghost use Rattle.doubles.specs.Least.{first_least};
ghost use Rattle.model.specs.Model.{Model};
ghost use Rattle.ensemble.specs.Layout.{Found};
ghost use Rattle.ensemble.specs.Lends.{Lends};
ghost use Rattle.ensemble.specs.inner.Entries.{Chosen};

use super::attach::{Attached, Entries};
use super::choices::Choices;
use super::lent::LentModel;
use reply::limits::STRANDS;
use units::KcalPerMol;

// The entry of the last position with the smallest product, the first of several.
fn lowest_product(last: &Entries, rt: KcalPerMol) -> Attached
    ensures chosen { (key : ℕ → Float) → ((k : ℕ) → k < length last.now.options.now → Ieee.mul binary64 (get_or last.now.energies.now k nan) rt.0 ≡ key (get_or last.now.options.now k 0)) → Chosen key last.now.options.now (first_least key last.now.options.now) result }
    ensures known { result.strand < 64 }
{
    last.least(|_, energy| energy * rt.0, |kept, next| !(next < kept))
}

// Writes the lowest configuration, one occupant for each position, and gives its energy.
pub fn lowest(lent: &LentModel, rt: KcalPerMol, configuration: &mut [u8]) -> KcalPerMol
    requires configuration_len { length configuration.old ≡ length lent.now.options.counts.now }
    ensures { (m : Model) → Lends m lent.now → rt.0 ≡ m.rt → Found m configuration.new result.0 }
{
    let mut energies = [0.0; STRANDS];
    let mut choices = Choices::new();
    // To the left of position 0 there are no entries.
    let options = lent.pass(0, &[], &mut energies, &mut choices);
    let last = Entries {
        options,
        energies: &energies,
        bonds: lent.bonds.strand_bonds,
    };
    let lowest = lowest_product(&last, rt);
    choices.trace(lowest.strand, configuration);
    KcalPerMol(lowest.energy)
}
