// The search for the lowest ring: of each first occupant the chain's pass over the later positions, whose last step closes the ring.
ghost use Rattle.std.specs.Prelude.{◌≡◌, ℕ, ◌<◌, length, get_or, Float};
ghost use Rattle.std.specs.Float.Ieee as Ieee;
ghost use Rattle.std.specs.Float.{binary64, nan};
ghost use Rattle.doubles.specs.Least.{first_least};
ghost use Rattle.model.specs.Model.{Model};
ghost use Rattle.model.specs.Search.{options_at};
ghost use Rattle.ensemble.specs.Lends.{Lends};
ghost use Rattle.ensemble.specs.Ring.{ClosingCells, FoundRing};
ghost use Rattle.ensemble.specs.inner.Entries.{Chosen, choice_in, table_bond, traced_back};
ghost use Rattle.ensemble.specs.inner.Ring.{closed_in, first_entry, FoundFrom};

use super::attach::{Attached, Entries};
use super::bonds::StrandBonds;
use super::choices::Choices;
use super::lent::LentModel;
use reply::limits::STRANDS;
use units::KcalPerMol;

// A sum with the bond from the last to the first occupant, where both places are occupied.
pub fn closed(sum: f64, strand_bonds: &StrandBonds, last: u8, first: u8) -> f64
    requires last_known { last < strand_bonds.now.strands }
    requires first_known { first < strand_bonds.now.strands }
    ensures { result ≡ closed_in (table_bond strand_bonds.now.strands strand_bonds.now.cells.now) first last sum }
{
    if first == 0 || last == 0 {
        return sum;
    }
    sum + strand_bonds.between(last, usize::from(first))
}

// The entry of the last position with the smallest product of its closed sum, the first of several.
fn lowest_closed(last: &Entries, first: u8, rt: KcalPerMol) -> Attached
    requires { first < last.now.bonds.strands }
    ensures chosen { (key : ℕ → Float) → ((k : ℕ) → k < length last.now.options.now → Ieee.mul binary64 (closed_in (table_bond last.now.bonds.strands last.now.bonds.cells.now) first (get_or last.now.options.now k 0) (get_or last.now.energies.now k nan)) rt.0 ≡ key (get_or last.now.options.now k 0)) → Chosen key last.now.options.now (first_least key last.now.options.now) result }
    ensures known { result.strand < 64 }
{
    last.least(
        |strand, energy| closed(energy, &last.bonds, strand, first) * rt.0,
        |kept, next| !(next < kept),
    )
}

impl LentModel<'_, '_> {
    // The energy of a first occupant's entry.
    fn first_entry(&self, strand: u8) -> f64
        requires known { strand < self.now.options.strands }
        requires some { 0 < length self.now.options.counts.now }
        ensures { result ≡ first_entry self.now.bonds.scaffold_bonds.now self.now.bonds.potentials.now strand }
    {
        if strand == 0 {
            return 0.0;
        }
        let place = usize::from(strand);
        0.0 + self.bonds.scaffold_bonds[place] - self.bonds.potentials[place]
    }

    // The pass with one of the options of position 0: the last entry of its lowest configuration, with the ring energy, and the left choices by which that
    // is traced back. Those of a pass before may stand in `choices`: each that is read is written anew.
    fn ring_from(&self, option: usize, rt: KcalPerMol, choices: &mut Choices) -> Attached
        requires some { 0 < length self.now.options.counts.now }
        requires option_known { option < get_or self.now.options.counts.now 0 0 }
        ensures found { (m : Model) → Lends m self.now → ClosingCells m self.now.options.strands self.now.bonds.strand_bonds.cells.now → rt.0 ≡ m.rt → FoundFrom m (get_or (options_at m 0) option 0) (traced_back (choice_in choices.new.friends choices.new.empty) (length self.now.options.counts.now) result.strand) result.energy }
        ensures known { result.strand < 64 }
    {
        let occupant = self.options.rows[option];
        let mut energies = [0.0; STRANDS];
        // To the left of position 1 there is the one entry.
        energies[0] = self.first_entry(occupant);
        let options = self.pass(
            1,
            &self.options.rows[option..option + 1],
            &mut energies,
            choices,
        );
        let last = Entries {
            options,
            energies: &energies,
            bonds: self.bonds.strand_bonds,
        };
        lowest_closed(&last, occupant, rt)
    }
}

// Writes the lowest ring, one occupant for each position, and gives its energy. Each option of position 0 is tried in order, and the first smallest kept.
pub fn lowest_ring(lent: &LentModel, rt: KcalPerMol, configuration: &mut [u8]) -> KcalPerMol
    requires configuration_len { length configuration.old ≡ length lent.now.options.counts.now }
    requires counts_nonzero { 0 < length lent.now.options.counts.now }
    ensures { (m : Model) → Lends m lent.now → ClosingCells m lent.now.options.strands lent.now.bonds.strand_bonds.cells.now → rt.0 ≡ m.rt → FoundRing m configuration.new result.0 }
{
    let mut choices = Choices::new();
    let first = lent.ring_from(0, rt, &mut choices);
    choices.trace(first.strand, configuration);
    let mut least = first.energy;
    // By number: the pass with an option lends its place in the row, a slice of one.
    for option in 1..lent.options.of(0).len() {
        let next = lent.ring_from(option, rt, &mut choices);
        if next.energy < least {
            choices.trace(next.strand, configuration);
            least = next.energy;
        }
    }
    KcalPerMol(least)
}
