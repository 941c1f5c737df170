// The energy of each job, over the options and bonds of a design and its lowest configuration, which are worked out once.
ghost use Rattle.std.specs.Prelude.{◌≡◌, ◌<◌, ◌≤◌, min};
ghost use Rattle.lists.specs.Build.{product};
ghost use Rattle.model.specs.States.{state_at};
ghost use Rattle.model.specs.Energy.{state_energy};
ghost use Rattle.ensemble.specs.Layout.{OptionRows};
ghost use Rattle.design.specs.Design.{strands, model_of};
ghost use Rattle.prepared.specs.Layout.{StateBonds};
ghost use Rattle.jobs.specs.inner.Settled.{energy_in};

use super::job::Job;
use design::passed::AdmittedDesign;
use ensemble::lent::LentModel;
use ensemble::states::{MOST_STATES, write_state};
use prepared::sums::state_energy;
use reply::limits::POSITIONS;
use units::KcalPerMol;

// A design with its options and the bonds that its states read; how many states there are, one past the limit where these are more; and the energy of
// the lowest configuration.
#[derive(Clone, Copy)]
pub(crate) struct Settled<'a, 'b> {
    pub admitted: &'a AdmittedDesign<'a>,
    pub lent: LentModel<'a, 'b>,
    pub states: u64,
    pub least: KcalPerMol,
    ghost same_strands: { lent.options.strands ≡ strands admitted.now },
    ghost option_rows: { OptionRows (model_of admitted.now) lent.options.rows.now lent.options.counts.now },
    ghost state_cells: { StateBonds (model_of admitted.now) lent.bonds },
    ghost counted: { states ≡ min (product lent.options.counts.now) 1048577 },
}

impl Settled<'_, '_> {
    // The state energy of the state at a rank.
    fn energy_at(&self, rank: u64) -> f64
        requires counted { self.now.states ≤ 1048576 }
        requires rank_lt_states { rank < self.now.states }
        ensures { result ≡ state_energy (model_of self.now.admitted.now) (state_at (model_of self.now.admitted.now) rank) }
    {
        let options = self.lent.options;
        let positions = options.counts.len();
        let mut state = [0; POSITIONS];
        let state = &mut state[..positions];
        write_state(options.rows, options.counts, self.states, rank, state);
        let admitted = self.admitted;
        state_energy(state, &self.lent.bonds, admitted.design.rt()).0
    }

    // The energy of a job: 0.0 for a rank that is too high, or where there are too many states to have ranks.
    pub(crate) fn energy(&self, asked: Option<Job>) -> f64
        ensures { result ≡ energy_in (model_of self.now.admitted.now) self.now.least.0 asked }
    {
        match asked {
            Some(Job::EnergyAt(rank)) => {
                if MOST_STATES < self.states || self.states <= rank {
                    return 0.0;
                }
                self.energy_at(rank)
            }
            Some(Job::Search) => self.least.0,
            Some(Job::Count) | None => 0.0,
        }
    }
}
