// What a design is judged for, once for all jobs of a sheet, and the number of each job by it.
ghost use Rattle.std.specs.Prelude.{◌≡◌, length, IfOk};
ghost use Rattle.ensemble.specs.Layout.{OptionRows};
ghost use Rattle.design.specs.Design.{Design, strands, model_of};
ghost use Rattle.jobs.specs.Job.{number_for};
ghost use Rattle.jobs.specs.inner.Judged.{JudgedRight, judged_reply};

use super::job::Job;
use design::Design;
use design::passed::{AdmittedDesign, tabled};
use ensemble::states::MOST_STATES;
use prepared::options::{Counted, count_options};
use reply::{Refusal, refused_if};

// What a design whose tables pass is judged for: its options and how many states these give, and itself as an admitted design, or why its concentrations,
// its ambient or its potentials are refused.
#[derive(Drop)]
pub(crate) struct Judged<'a> {
    pub counted: Counted<'a>,
    pub admitted: Result<AdmittedDesign<'a>, Refusal>,
}

// What a job replies.
fn job_reply(asked: Option<Job>, judged: &Result<Judged, Refusal>) -> Result<(), Refusal>
    ensures { result ≡ judged_reply judged.now asked }
{
    let job = asked.ok_or(Refusal::NotAJob)?;
    let judged = judged.as_ref().map_err(|refusal| *refusal)?;
    let states = judged.counted.states;
    match job {
        Job::EnergyAt(rank) => {
            refused_if(Refusal::TooManyStates, MOST_STATES < states)?;
            refused_if(Refusal::RankTooHigh, states <= rank)?;
        }
        Job::Search => {}
        Job::Count => refused_if(Refusal::TooManyStates, MOST_STATES < states)?,
    }
    judged.admitted.as_ref().map_err(|refusal| *refusal)?;
    Ok(())
}

// The number of a job.
pub(crate) fn job_number(asked: Option<Job>, judged: &Result<Judged, Refusal>) -> u32
    ensures { (d : Design) → JudgedRight d judged.now → result ≡ number_for d asked }
{
    reply::number(job_reply(asked, judged))
}

// Judges a design: a job's reply has no place.
pub(crate) fn judge<'a>(
    design: &'a Design<'a>,
    rows: &'a mut [u8],
    counts: &'a mut [u8],
    logarithms: &'a mut [f64],
) -> Result<Judged<'a>, Refusal>
    requires rows_len { length rows.old ≡ 8192 }
    requires counts_len { length counts.old ≡ 128 }
    requires logarithms_len { length logarithms.old ≡ 64 }
    ensures judged_right { JudgedRight design.now result }
    ensures same { IfOk result (λ judged. IfOk judged.admitted (λ admitted. admitted ≡ design.now)) }
    ensures options { IfOk result (λ judged. OptionRows (model_of design.now) judged.counted.options.rows.now judged.counted.options.counts.now × (judged.counted.options.strands ≡ strands design.now)) }
{
    let tabled = tabled(false, design).map_err(|refused| refused.refusal)?;
    let counts = &mut counts[..design.positions()];
    let counted = count_options(&tabled, rows, counts);
    let admitted = tabled
        .admitted(logarithms)
        .map_err(|refused| refused.refusal);
    Ok(Judged { counted, admitted })
}
