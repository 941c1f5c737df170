// Bonds, friends, states and energies of a design of a scaffold and strands (sdc1d.rs).
//
// What the Rust reads off `self` is lent as one `Design`.
#![tactic(auto)]

mod occupants;

ghost use Rattle.std.specs.Prelude.{◌≡◌, ◌≤◌, length, IfOk, OnOk};
ghost use Rattle.reply.specs.First.{first_of};
ghost use Rattle.reply.specs.Figures.{reply_figures};
ghost use Rattle.model.specs.Model.{State};
ghost use Rattle.design.specs.Design.{model_of};
ghost use Rattle.design.specs.Checks.{energy_checks};
ghost use Rattle.design.specs.Passed.{reply_of};
ghost use Rattle.design.specs.Answers.{bond_figures, count_figures, energy_figures, chain_figures, strand_bond_answer, scaffold_bond_answer, friends_answer, friends_entries, count_answer, rank_answer, rank_entries, state_energy_answer, chain_energy_answer};

use design::Design;
use design::answers::ChainEnergy;
use design::passed::{AdmittedDesign, admitted, tabled};
use design::terms::terms_of;
use ensemble::energies::Places;
use ensemble::options::OPTIONS;
use ensemble::states::{MOST_STATES, write_state};
use occupants::not_all_friends;
use prepared::options::{Counted, count_options};
use reply::limits::{POSITIONS, STRANDS};
use reply::{Refusal, Refused, refused_if};
use units::KcalPerMol;

// The bond between strand x and strand y to the east of it.
pub fn bond_between_strands(design: &Design, x: u8, y: u8) -> Result<f64, Refused>
    ensures { bond_figures result ≡ strand_bond_answer design.now x y }
{
    let strands = design.strands();
    let lacking = strands <= usize::from(x) || strands <= usize::from(y);
    let mut logarithms = [0.0; STRANDS];
    let AdmittedDesign { design, .. } = admitted(lacking, design, &mut logarithms)?;
    Ok(design.strand_bond(x, y))
}

// The bond between the scaffold at a position and a strand.
pub fn bond_with_scaffold(design: &Design, position: usize, strand: u8) -> Result<f64, Refused>
    ensures { bond_figures result ≡ scaffold_bond_answer design.now position strand }
{
    let lacking = design.positions() <= position || design.strands() <= usize::from(strand);
    let mut logarithms = [0.0; STRANDS];
    let AdmittedDesign { design, .. } = admitted(lacking, design, &mut logarithms)?;
    Ok(design.scaffold_bond(design.scaffold_glue(position), strand))
}

// The friends of a position, into 64 lent entries, and how many there are.
pub fn friends_btm(design: &Design, position: usize, entries: &mut [u8]) -> Result<u64, Refused>
    ensures result_value { count_figures result ≡ friends_answer design.now position entries.old }
    ensures entries_after { entries.new ≡ friends_entries design.now position entries.old }
{
    let unfit = design.positions() <= position || entries.len() != STRANDS;
    let mut logarithms = [0.0; STRANDS];
    let tabled = admitted(unfit, design, &mut logarithms)?.tabled();
    Ok(tabled.write_friends(position, entries) as u64)
}

// How many states there are: the product of friends plus one.
pub fn number_of_states(design: &Design) -> Result<u64, Refused>
    ensures { count_figures result ≡ count_answer design.now }
{
    let tabled = tabled(false, design)?;
    let mut rows = [0u8; OPTIONS];
    let mut counts = [0u8; POSITIONS];
    let counts = &mut counts[..design.positions()];
    let Counted { states, .. } = count_options(&tabled, &mut rows, counts);
    refused_if(Refusal::TooManyStates, MOST_STATES < states)?;
    let mut logarithms = [0.0; STRANDS];
    tabled.admitted(&mut logarithms)?;
    Ok(states)
}

// The state at a rank in the order of `system_states`, into one lent entry for each position.
pub fn state_at_rank(design: &Design, rank: u64, entries: &mut [u8]) -> Result<(), Refused>
    ensures result_value { reply_figures result ≡ rank_answer design.now rank entries.old }
    ensures entries_after { entries.new ≡ rank_entries design.now rank entries.old }
{
    let tabled = tabled(entries.len() != design.positions(), design)?;
    let mut rows = [0u8; OPTIONS];
    let mut counts = [0u8; POSITIONS];
    let counts = &mut counts[..design.positions()];
    let Counted { options, states } = count_options(&tabled, &mut rows, counts);
    refused_if(Refusal::TooManyStates, MOST_STATES < states)?;
    refused_if(Refusal::RankTooHigh, states <= rank)?;
    let mut logarithms = [0.0; STRANDS];
    tabled.admitted(&mut logarithms)?;
    write_state(options.rows, options.counts, states, rank, entries);
    Ok(())
}

// The design as an admitted one, of a configuration that is one of its states; or what is refused of a configuration whose energy is asked for.
pub fn energy_admitted<'a>(
    design: &'a Design<'a>,
    configuration: &[u8],
    logarithms: &'a mut [f64],
) -> Result<AdmittedDesign<'a>, Refused>
    requires { 64 ≤ length logarithms.old }
    ensures value { reply_of result ≡ first_of (energy_checks design.now configuration.now) }
    ensures same { IfOk result (λ admitted. admitted ≡ design.now) }
    ensures state { OnOk result (State (model_of design.now) configuration.now) }
    ensures few { OnOk result (length configuration.now ≤ 128) }
{
    let tabled = tabled(configuration.len() != design.positions(), design)?;
    refused_if(Refusal::NotAFriend, not_all_friends(design, configuration))?;
    tabled.admitted(logarithms)
}

// The state energy of a configuration: one occupant for each position, 0 for an empty place.
pub fn g_system(design: &Design, attachments: &[u8]) -> Result<KcalPerMol, Refused>
    ensures { energy_figures result ≡ state_energy_answer design.now attachments.now }
{
    let mut logarithms = [0.0; STRANDS];
    let admitted = energy_admitted(design, attachments, &mut logarithms)?;
    let terms = terms_of(&admitted, attachments);
    let places = Places {
        configuration: attachments,
        terms: &terms,
    };
    let sumg = places.state_sum();
    Ok(sumg * admitted.design.rt())
}

// The chain energy of a configuration, as it is and times RT.
pub fn chain_energy(design: &Design, configuration: &[u8]) -> Result<ChainEnergy, Refused>
    ensures { chain_figures result ≡ chain_energy_answer design.now configuration.now }
{
    let mut logarithms = [0.0; STRANDS];
    let admitted = energy_admitted(design, configuration, &mut logarithms)?;
    let terms = terms_of(&admitted, configuration);
    let places = Places {
        configuration,
        terms: &terms,
    };
    let sum = places.chain_sum();
    Ok(ChainEnergy {
        bare: sum,
        times_rt: sum * admitted.design.rt(),
    })
}
