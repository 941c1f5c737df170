// The first state, in listing order, whose state energy is at most a ceiling.
#![tactic(auto)]

mod under;

ghost use Rattle.std.specs.Prelude.{◌≡◌, length};
ghost use Rattle.ensemble.specs.Layout.{OptionRows};
ghost use Rattle.design.specs.Design.{positions, strands, model_of};
ghost use Rattle.design.specs.Answers.{energy_figures};
ghost use Rattle.ceiling.specs.Answers.{counted_answer, counted_entries, ceiling_answer, ceiling_entries};
ghost use Rattle.ceiling.specs.inner.Found.{FoundUnder};

use design::Design;
use design::options::OptionedDesign;
use design::passed::{AdmittedDesign, TabledDesign, ranged};
use ensemble::bonds::{Bonds, SCAFFOLD_BONDS, STRAND_BONDS};
use ensemble::lent::LentModel;
use ensemble::options::{OPTIONS, Options};
use ensemble::states::MOST_STATES;
use prepared::bonds::fill_bonds;
use prepared::options::{Counted, count_options};
use prepared::sums::Begun;
use reply::limits::{POSITIONS, STRANDS};
use reply::{Refusal, Refused, refused_if};
use under::{Limit, under_from};
use units::KcalPerMol;

// The bonds of an admitted design, and the first state under the ceiling over these: its energy, where there is one. The options come beside the design:
// an `OptionedDesign` is not known to be admitted.
fn search_states(
    admitted: &AdmittedDesign,
    options: &Options,
    ceiling: KcalPerMol,
    entries: &mut [u8],
) -> Option<f64>
    requires same_strands { options.now.strands ≡ strands admitted.now }
    requires entries_len { length entries.old ≡ length options.now.counts.now }
    ensures { OptionRows (model_of admitted.now) options.now.rows.now options.now.counts.now → FoundUnder (model_of admitted.now) ceiling.0 entries.old entries.new result }
{
    let design = admitted.design;
    let mut strand_bonds = [0.0; STRAND_BONDS];
    let mut scaffold_bonds = [0.0; SCAFFOLD_BONDS];
    let options = *options;
    let optioned = OptionedDesign { design, options };
    fill_bonds(&optioned, &mut strand_bonds, &mut scaffold_bonds);
    let bonds = Bonds::new(&strand_bonds, &scaffold_bonds, admitted.potentials());
    let lent = LentModel { options, bonds };
    let limit = Limit {
        rt: design.rt().0,
        ceiling: ceiling.0,
    };
    under_from(&lent, limit, Begun::nobody(), 0, entries)
}

// What is answered where the design's tables pass and the ceiling is finite: the number of states is judged, then the design's numbers, then whether
// a state is under the ceiling.
fn counted(
    tabled: &TabledDesign,
    ceiling: KcalPerMol,
    entries: &mut [u8],
) -> Result<KcalPerMol, Refused>
    requires entries_len { length entries.old ≡ positions tabled.now }
    ensures result_value { energy_figures result ≡ counted_answer tabled.now ceiling.0 }
    ensures entries_after { entries.new ≡ counted_entries tabled.now ceiling.0 entries.old }
{
    let design = tabled.design;
    let mut rows = [0; OPTIONS];
    let mut counts = [0; POSITIONS];
    let counts = &mut counts[..design.positions()];
    let Counted { options, states } = count_options(tabled, &mut rows, counts);
    refused_if(Refusal::TooManyStates, MOST_STATES < states)?;
    let mut logarithms = [0.0; STRANDS];
    let admitted = tabled.admitted(&mut logarithms)?;
    let found = search_states(&admitted, &options, ceiling, entries);
    Ok(KcalPerMol(found.ok_or(Refusal::NoneUnder)?))
}

// The first state in the order of `system_states` whose state energy is at most the ceiling, into one lent entry for each position; and its energy.
pub fn first_state_under(
    design: &Design,
    ceiling: KcalPerMol,
    entries: &mut [u8],
) -> Result<KcalPerMol, Refused>
    ensures result_value { energy_figures result ≡ ceiling_answer design.now ceiling.0 entries.old }
    ensures entries_after { entries.new ≡ ceiling_entries design.now ceiling.0 entries.old }
{
    let own_size = entries.len() != design.positions();
    let tabled = ranged(own_size, !ceiling.0.is_finite(), design)?;
    counted(&tabled, ceiling, entries)
}
