// The pass over the positions: the entries of each, worked out from those to its left, and the left choice of each entry.
ghost use Rattle.std.specs.Prelude.{◌≡◌, ℕ, ◌+◌, ◌*◌, ◌<◌, ◌≤◌, List, length, get_or, take, drop};
ghost use Rattle.std.specs.Float.{nan};
ghost use Rattle.model.specs.Model.{Model};
ghost use Rattle.model.specs.Search.{options_at};
ghost use Rattle.ensemble.specs.Lends.{Lends};
ghost use Rattle.ensemble.specs.inner.Entries.{Known, table_bond, Attachments, Low, settled_of, Energies};
ghost use Rattle.ensemble.specs.inner.Passed.{OptionsOf, Passed};

use super::attach::{Entries, attach_each};
use super::choices::Choices;
use super::lent::LentModel;
use super::sums::attach_all;
use reply::limits::STRANDS;

impl<'a> LentModel<'a, '_> {
    // Goes over the positions from one on. `left` and `energies` are the entries to its left; afterwards what is given and `energies` are those of the
    // last position, and `choices` has the left choices of all that were passed.
    pub(crate) fn pass(
        &self,
        first: usize,
        mut left: &'a [u8],
        energies: &mut [f64; STRANDS],
        choices: &mut Choices,
    ) -> &'a [u8]
        requires place { first ≤ length self.now.options.counts.now }
        requires few { length left.now ≤ 64 }
        requires known { Known self.now.options.strands left.now }
        ensures few { length result.now ≤ 64 }
        ensures known { Known self.now.options.strands result.now }
        ensures passed { (m : Model) (options : ℕ → List ℕ) → Lends m self.now → OptionsOf m options → ((i : ℕ) → first ≤ i → options i ≡ options_at m i) → Passed m options first left.now energies.old choices.old.friends choices.old.empty → Passed m options (length self.now.options.counts.now) result.now energies.new choices.new.friends choices.new.empty }
    {
        let mut best = [0.0; STRANDS];
        // By number: options and scaffold bonds are asked of a position.
        for position in first..self.options.counts.len() {
            let options = self.options.of(position);
            let friends = self.options.friends(position);
            let entries = Entries {
                options: left,
                energies: &energies[..],
                bonds: self.bonds.strand_bonds,
            };
            best_energies(&entries, friends, &mut best, &mut choices.friends[position]);
            let empty = entries.least_for_empty();
            mfe_next_vector(
                self.bonds.scaffold_bonds_at(position),
                self.bonds.potentials,
                friends,
                &best,
                energies,
            );
            energies[friends.len()] = empty.energy;
            choices.empty[position] = empty.strand;
            left = options;
        }
        left
    }
}

// The left choice of each friend, and the energy that it was compared with, by its strand.
fn best_energies(
    left: &Entries,
    friends: &[u8],
    best: &mut [f64; STRANDS],
    choice: &mut [u8; STRANDS],
)
    requires known { Known left.now.bonds.strands friends.now }
    requires low { Low choice.old }
    ensures { Attachments (table_bond left.now.bonds.strands left.now.bonds.cells.now) left.now.options.now left.now.energies.now friends.now (length friends.now) best.new choice.new }
{
    // Many friends pay for the sums of all right strands.
    if !left.options.is_empty()
        && 8 <= left.bonds.strands
        && 8 + left.bonds.strands / 8 <= friends.len()
    {
        attach_all(left, friends, best, choice)
    } else {
        attach_each(left, friends, best, choice)
    }
}

// The energies of a position's friends: to what was compared the scaffold bond is added, and the potential subtracted.
fn mfe_next_vector(
    scaffold_bonds: &[f64],
    potentials: &[f64],
    friends: &[u8],
    best: &[f64; STRANDS],
    energies: &mut [f64; STRANDS],
)
    requires known { Known (length potentials.now) friends.now }
    requires a_bond_each { length potentials.now ≤ length scaffold_bonds.now }
    requires few { length potentials.now ≤ 64 }
    requires room { length friends.now ≤ 64 }
    ensures { Energies (settled_of scaffold_bonds.now potentials.now best.now) friends.now (length friends.now) energies.new }
{
    // By number: after `energies.iter_mut().zip(friends)` nothing is known of what was written.
    for (k, friend) in friends.iter().enumerate() {
        let strand = usize::from(*friend);
        energies[k] = best[strand] + scaffold_bonds[strand] - potentials[strand];
    }
}
