// A sheet of jobs as C callers have it.
ghost use Rattle.std.specs.Prelude.{◌≡◌};
ghost use Rattle.reply.specs.Number.{reply_number};
ghost use Rattle.jobs.specs.Sheet.{sheet, sheet_reply, sheet_numbers, sheet_energies, sheet_counts, sheet_stretches};

use design::Design;

// A number, an energy and a count for each job word, and the configuration of each search in its stretch, one entry for each position. Replies 1.
pub fn mj_job_sheet(
    design: &Design,
    jobs: &[u32],
    numbers: &mut [u32],
    energies: &mut [f64],
    counts: &mut [u64],
    stretches: &mut [u8],
) -> u32
    ensures value { result ≡ reply_number (sheet_reply design.now (sheet jobs.now numbers.old energies.old counts.old stretches.old)) }
    ensures numbers_after { numbers.new ≡ sheet_numbers design.now (sheet jobs.now numbers.old energies.old counts.old stretches.old) }
    ensures energies_after { energies.new ≡ sheet_energies design.now (sheet jobs.now numbers.old energies.old counts.old stretches.old) }
    ensures counts_after { counts.new ≡ sheet_counts design.now (sheet jobs.now numbers.old energies.old counts.old stretches.old) }
    ensures stretches_after { stretches.new ≡ sheet_stretches design.now (sheet jobs.now numbers.old energies.old counts.old stretches.old) }
{
    reply::number(jobs::job_sheet(design, jobs, numbers, energies, counts, stretches))
}
