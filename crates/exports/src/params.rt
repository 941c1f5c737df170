// `from_params` as C callers have it. A build is a number: 0 an ordinary one, 1 the archive's; any other is refused with 1.
ghost use Rattle.std.specs.Prelude.{◌≡◌};
ghost use Rattle.sdc1d_params.specs.Params.{outcome_of, params_lent, lent_of};
ghost use Rattle.exports.specs.Builds.{build_numbered, built_in};
ghost use Rattle.exports.specs.Copied.{copied_of, copies_of};

use super::figures;
use reply::Refusal;
use sdc1d_params::{Build, Copies, LentParameters};

// The build that a number names: 0 and 1 name one each. By its number a build is named only here, so that `Build` has no
// `TryFrom`.
fn build_of(number: u32) -> Option<Build>
    ensures { result ≡ build_numbered number }
{
    match number {
        0 => Some(Build::Ordinary),
        1 => Some(Build::Archive),
        _ => None,
    }
}

// Whose glues are copied, by number: 0 for no strand's.
fn copied(strand: usize) -> Option<usize>
    ensures { result ≡ copied_of strand }
{
    (strand != 0).then_some(strand)
}

// Whose glues the quencher and the reporter copy, by number.
pub fn copies(quencher: usize, reporter: usize) -> Copies
    ensures { result ≡ copies_of quencher reporter }
{
    let from_quencher = copied(quencher);
    let from_reporter = copied(reporter);
    Copies {
        quencher: from_quencher,
        reporter: from_reporter,
    }
}

// Strand glues, scaffold glues and both tables from names and energies.
pub fn mj_params(
    build: u32,
    parameters: &LentParameters<'_>,
    strand_glues: &mut [u8],
    scaffold_glues: &mut [u8],
    dg: &mut [f64],
    ds: &mut [f64],
) -> u32
    ensures { outcome_of result strand_glues.new scaffold_glues.new dg.new ds.new ≡ built_in (build_numbered build) (params_lent parameters.now) (lent_of strand_glues.old scaffold_glues.old dg.old ds.old) }
{
    let Some(known) = build_of(build) else {
        return Refusal::WrongSize.number();
    };
    let answer = sdc1d_params::from_params(known, parameters, strand_glues, scaffold_glues, dg, ds);
    reply::number(answer)
}
