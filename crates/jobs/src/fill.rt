// The replies of all jobs, into lent slices, one for each job, and the stretches.
ghost use Rattle.std.specs.Prelude.{◌≡◌, map, ℕ, ◌*◌, ◌≤◌, length};
ghost use Rattle.design.specs.Design.{Design, model_of};
ghost use Rattle.jobs.specs.Job.{job_number};
ghost use Rattle.jobs.specs.inner.Judged.{JudgedRight};
ghost use Rattle.jobs.specs.inner.Settled.{energy_of_word, count_held, count_of_word, stretch_in, stretches_in};

use super::job::{Job, read};
use super::judge::{Judged, job_number};
use super::settle::Settled;
use ensemble::states::MOST_STATES;
use reply::Refusal;

// The cell of each job by a rule. Shared with no filler of `sheet` or `design`: each is a loop of one line whose rule is asked by another thing, here by a
// word, and after a shared one each would need a lemma to come back to `map`.
fn fill<T: Copy, F: Fn(u32) -> T>(jobs: &[u32], rule: F, cells: &mut [T])
    requires callable { F.IsAlwaysCallable rule }
    requires cells_len { length cells.old ≡ length jobs.now }
    ensures { (f : ℕ → T) → ((word : ℕ) (x : T) → F.post rule word x → x ≡ f word) → cells.new ≡ map f jobs.now }
{
    // Written by number: of cells that a zip lends to be written nothing is known afterwards.
    for (k, &word) in jobs.iter().enumerate() {
        cells[k] = rule(word);
    }
}

// The number of each job.
pub(crate) fn fill_numbers(jobs: &[u32], judged: &Result<Judged, Refusal>, numbers: &mut [u32])
    requires { length numbers.old ≡ length jobs.now }
    ensures { (d : Design) → JudgedRight d judged.now → numbers.new ≡ map (job_number d) jobs.now }
{
    fill(jobs, |word| job_number(read(word), judged), numbers);
}

// The energy of each job on an admitted design.
pub(crate) fn fill_energies(jobs: &[u32], settled: &Settled, energies: &mut [f64])
    requires { length energies.old ≡ length jobs.now }
    ensures { energies.new ≡ map (energy_of_word (model_of settled.now.admitted.now) settled.now.least.0) jobs.now }
{
    fill(jobs, |word| settled.energy(read(word)), energies);
}

// The count of a job on an admitted design: 0 where there are too many states.
fn job_count(asked: Option<Job>, states: u64) -> u64
    ensures { result ≡ count_held states asked }
{
    match asked {
        Some(Job::Count) if states <= MOST_STATES => states,
        _ => 0,
    }
}

// The count of each job on an admitted design.
pub(crate) fn fill_counts(jobs: &[u32], states: u64, counts: &mut [u64])
    requires { length counts.old ≡ length jobs.now }
    ensures { counts.new ≡ map (count_of_word states) jobs.now }
{
    fill(jobs, |word| job_count(read(word), states), counts);
}

// What a job leaves in its stretch: only a search fills it.
fn fill_stretch(asked: Option<Job>, configuration: &[u8], stretch: &mut [u8])
    requires { length stretch.old ≡ length configuration.now }
    ensures { stretch.new ≡ stretch_in configuration.now asked stretch.old }
{
    if asked == Some(Job::Search) {
        stretch.copy_from_slice(configuration);
    }
}

// The lowest configuration into the stretch of each search. A job's stretch begins where it would if all jobs before it had filled theirs.
pub(crate) fn fill_stretches(jobs: &[u32], configuration: &[u8], stretches: &mut [u8])
    requires jobs_len_bound { length jobs.now ≤ 64 }
    requires configuration_len_bound { length configuration.now ≤ 128 }
    requires stretches_len { length stretches.old ≡ length jobs.now * length configuration.now }
    ensures { stretches.new ≡ stretches_in configuration.now jobs.now stretches.old }
{
    let positions = configuration.len();
    // Slices by index: there may be no positions, and `chunks_mut` takes no size 0.
    for (k, word) in jobs.iter().enumerate() {
        let start = k * positions;
        let end = start + positions;
        fill_stretch(read(*word), configuration, &mut stretches[start..end]);
    }
}
