// A sheet of jobs as a C function.
// A design is lent part by part: C has no structs of slices.

ghost use Rattle.std.specs.Prelude.{◌≡◌};
ghost use Rattle.reply.specs.Number.{reply_number};
ghost use Rattle.jobs.specs.Sheet.{sheet, sheet_reply, sheet_numbers, sheet_energies, sheet_counts, sheet_stretches};
ghost use Rattle.exports.specs.Lent.{amounts_numbered, lent_at, left_in, number_in};

use design::Design;
use exports::designs::ambient;
use exports::lent::amounts_of;
use reply::Refusal;

// A number, an energy and a count for each job word, and the configuration of each search in its stretch, one entry for each position.
#[unsafe(no_mangle)]
pub extern "C" fn mj_job_sheet(
    scaffold: &[u8],
    marks: &[u8],
    glues: &[u8],
    dg: &[f64],
    ds: &[f64],
    amounts: &[f64],
    given: u32,
    rt: f64,
    strand_excess: f64,
    scaffold_excess: f64,
    jobs: &[u32],
    numbers: &mut [u32],
    energies: &mut [f64],
    counts: &mut [u64],
    stretches: &mut [u8],
) -> u32
    ensures value { result ≡ number_in (lent_at scaffold.entry marks.entry glues.entry dg.entry ds.entry amounts.entry (amounts_numbered given) rt strand_excess scaffold_excess) (λ d. reply_number (sheet_reply d (sheet jobs.now numbers.old energies.old counts.old stretches.old))) }
    ensures numbers_after { numbers.new ≡ left_in (lent_at scaffold.entry marks.entry glues.entry dg.entry ds.entry amounts.entry (amounts_numbered given) rt strand_excess scaffold_excess) numbers.old (λ d. sheet_numbers d (sheet jobs.now numbers.old energies.old counts.old stretches.old)) }
    ensures energies_after { energies.new ≡ left_in (lent_at scaffold.entry marks.entry glues.entry dg.entry ds.entry amounts.entry (amounts_numbered given) rt strand_excess scaffold_excess) energies.old (λ d. sheet_energies d (sheet jobs.now numbers.old energies.old counts.old stretches.old)) }
    ensures counts_after { counts.new ≡ left_in (lent_at scaffold.entry marks.entry glues.entry dg.entry ds.entry amounts.entry (amounts_numbered given) rt strand_excess scaffold_excess) counts.old (λ d. sheet_counts d (sheet jobs.now numbers.old energies.old counts.old stretches.old)) }
    ensures stretches_after { stretches.new ≡ left_in (lent_at scaffold.entry marks.entry glues.entry dg.entry ds.entry amounts.entry (amounts_numbered given) rt strand_excess scaffold_excess) stretches.old (λ d. sheet_stretches d (sheet jobs.now numbers.old energies.old counts.old stretches.old)) }
{
    let Some(given) = amounts_of(given) else {
        return Refusal::WrongSize.number();
    };
    let design = Design {
        scaffold,
        marks,
        glues,
        dg,
        ds,
        amounts,
        given,
        ambient: ambient(rt, strand_excess, scaffold_excess),
    };
    exports::sheets::mj_job_sheet(&design, jobs, numbers, energies, counts, stretches)
}
