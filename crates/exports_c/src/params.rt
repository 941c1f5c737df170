// `from_params` as a C function. A build is a number: 0 an ordinary one, 1 the archive's; any other is refused with 1.

ghost use Rattle.std.specs.Prelude.{◌≡◌};
ghost use Rattle.sdc1d_params.specs.Params.{outcome_of, params_of, lent_of};
ghost use Rattle.exports.specs.Builds.{build_numbered, built_in};
ghost use Rattle.exports.specs.Copied.{copies_of, penalty_of};

use exports::params::copies;
use sdc1d_params::LentParameters;
use utils::DgDs;

// Strand glues, scaffold glues and both tables from names and energies.
#[unsafe(no_mangle)]
pub extern "C" fn mj_params(
    build: u32,
    text: &[u8],
    users: usize,
    strands: &[usize],
    scaffold: &[usize],
    entries: &[usize],
    energies: &[f64],
    penalty_dg: f64,
    penalty_ds: f64,
    quencher: usize,
    reporter: usize,
    strand_glues: &mut [u8],
    scaffold_glues: &mut [u8],
    dg: &mut [f64],
    ds: &mut [f64],
) -> u32
    ensures { outcome_of result strand_glues.new scaffold_glues.new dg.new ds.new ≡ built_in (build_numbered build) (params_of text.now users strands.now scaffold.now entries.now energies.now (penalty_of penalty_dg penalty_ds) (copies_of quencher reporter)) (lent_of strand_glues.old scaffold_glues.old dg.old ds.old) }
{
    let penalty = DgDs::new(penalty_dg, penalty_ds);
    let copies = copies(quencher, reporter);
    let parameters = LentParameters {
        text,
        users,
        strands,
        scaffold,
        entries,
        energies,
        penalty,
        copies,
    };
    exports::params::mj_params(build, &parameters, strand_glues, scaffold_glues, dg, ds)
}
