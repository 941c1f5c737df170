// A sheet of jobs on one design: state energies at ranks, the search, and the number of states. The design is judged once for the whole sheet, and its
// options, its bonds and its lowest configuration are worked out once.
#![tactic(auto)]

mod fill;
pub mod job;
mod judge;
mod settle;

ghost use Rattle.std.specs.Prelude.{◌≡◌, ◌||◌, not, map, ◌*◌, ◌≤◌, ltb, eqb, length};
ghost use Rattle.reply.specs.First.{bare};
ghost use Rattle.ensemble.specs.Layout.{OptionRows};
ghost use Rattle.design.specs.Design.{positions, strands, model_of};
ghost use Rattle.jobs.specs.Job.{job_energy, job_count};
ghost use Rattle.jobs.specs.Sheet.{sheet, stretches_of, sheet_reply, sheet_numbers, sheet_energies, sheet_counts, sheet_stretches};

use design::Design;
use design::options::OptionedDesign;
use design::passed::AdmittedDesign;
use ensemble::bonds::{Bonds, SCAFFOLD_BONDS, STRAND_BONDS};
use ensemble::lent::LentModel;
use ensemble::lowest::lowest;
use ensemble::options::OPTIONS;
use fill::{fill_counts, fill_energies, fill_numbers, fill_stretches};
use judge::{Judged, judge};
use prepared::bonds::fill_bonds;
use prepared::options::Counted;
use reply::limits::{POSITIONS, STRANDS};
use reply::{Refusal, refused_if};
use settle::Settled;

// The most jobs of a sheet.
const JOBS: usize = 64;

// Whether entries are other than so many for each of some jobs. A product that no number holds is the length of no slice.
fn wrong_stretches(jobs: usize, positions: usize, entries: usize) -> bool
    ensures { result ≡ not (eqb entries (jobs * positions)) }
{
    jobs.checked_mul(positions) != Some(entries)
}

// Whether there are too many jobs, or the replies of a kind or the stretches are not as many as these ask for.
fn wrong_sheet(
    jobs: usize,
    numbers: usize,
    energies: usize,
    counts: usize,
    positions: usize,
    stretches: usize,
) -> bool
    ensures { result ≡ (ltb 64 jobs || (not (eqb numbers jobs) || (not (eqb energies jobs) || (not (eqb counts jobs) || not (eqb stretches (jobs * positions)))))) }
{
    JOBS < jobs
        || numbers != jobs
        || energies != jobs
        || counts != jobs
        || wrong_stretches(jobs, positions, stretches)
}

// The figures of all jobs on an admitted design, over its options, and the stretches of its searches. The options come beside the design: an
// `OptionedDesign` is not known to be admitted.
fn answer_jobs(
    admitted: &AdmittedDesign,
    counted: &Counted,
    jobs: &[u32],
    energies: &mut [f64],
    counts: &mut [u64],
    stretches: &mut [u8],
)
    requires same_strands { counted.now.options.strands ≡ strands admitted.now }
    requires option_rows { OptionRows (model_of admitted.now) counted.now.options.rows.now counted.now.options.counts.now }
    requires jobs_len_bound { length jobs.now ≤ 64 }
    requires energies_len { length energies.old ≡ length jobs.now }
    requires counts_len { length counts.old ≡ length jobs.now }
    requires stretches_len { length stretches.old ≡ length jobs.now * positions admitted.now }
    ensures energies_after { energies.new ≡ map (job_energy admitted.now) jobs.now }
    ensures counts_after { counts.new ≡ map (job_count admitted.now) jobs.now }
    ensures stretches_after { stretches.new ≡ stretches_of admitted.now jobs.now stretches.old }
{
    let design = admitted.design;
    let Counted { options, states } = *counted;
    let mut strand_bonds = [0.0; STRAND_BONDS];
    let mut scaffold_bonds = [0.0; SCAFFOLD_BONDS];
    let mut configuration = [0; POSITIONS];
    let configuration = &mut configuration[..options.counts.len()];
    let optioned = OptionedDesign { design, options };
    fill_bonds(&optioned, &mut strand_bonds, &mut scaffold_bonds);
    let bonds = Bonds::new(&strand_bonds, &scaffold_bonds, admitted.potentials());
    let lent = LentModel { options, bonds };
    let least = lowest(&lent, design.rt(), configuration);
    let settled = Settled {
        admitted,
        lent,
        states,
        least,
    };
    fill_energies(jobs, &settled, energies);
    fill_counts(jobs, states, counts);
    fill_stretches(jobs, configuration, stretches);
}

// The jobs of a sheet, each answered as its direct call answers it: a number, an energy and a count for each, and the configuration of each search in
// its stretch, one entry for each position. A refused job does not stop the sheet. The slices for the replies are three, since C lends slices of numbers:
// out of a slice of answers they would be copied.
pub fn job_sheet(
    design: &Design,
    jobs: &[u32],
    numbers: &mut [u32],
    energies: &mut [f64],
    counts: &mut [u64],
    stretches: &mut [u8],
) -> Result<(), Refusal>
    ensures value { result ≡ bare (sheet_reply design.now (sheet jobs.now numbers.old energies.old counts.old stretches.old)) }
    ensures numbers_after { numbers.new ≡ sheet_numbers design.now (sheet jobs.now numbers.old energies.old counts.old stretches.old) }
    ensures energies_after { energies.new ≡ sheet_energies design.now (sheet jobs.now numbers.old energies.old counts.old stretches.old) }
    ensures counts_after { counts.new ≡ sheet_counts design.now (sheet jobs.now numbers.old energies.old counts.old stretches.old) }
    ensures stretches_after { stretches.new ≡ sheet_stretches design.now (sheet jobs.now numbers.old energies.old counts.old stretches.old) }
{
    let wrong = wrong_sheet(
        jobs.len(),
        numbers.len(),
        energies.len(),
        counts.len(),
        design.positions(),
        stretches.len(),
    );
    refused_if(Refusal::WrongSize, wrong)?;
    let mut rows = [0; OPTIONS];
    let mut options = [0; POSITIONS];
    let mut logarithms = [0.0; STRANDS];
    let judged = judge(design, &mut rows, &mut options, &mut logarithms);
    fill_numbers(jobs, &judged, numbers);
    if let Ok(
        Judged {
            counted,
            admitted: Ok(admitted),
        },
    ) = judged
    {
        answer_jobs(&admitted, &counted, jobs, energies, counts, stretches);
    } else {
        energies.fill(0.0);
        counts.fill(0);
    }
    Ok(())
}
