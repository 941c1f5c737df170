// Sums over the states of a design over the weights of its own energies, and the probability of a constrained set. A place weighs the exponential of
// minus its scaffold bond less its strand's potential, a pair of neighbours that of minus their strand bond.
#![tactic(auto)]

pub mod double;
mod occupants;
pub mod quotient;
mod tables;
mod weights;

ghost use Rattle.std.specs.Prelude.{◌≡◌, false, ◌<◌, ◌≤◌, length, OnOk, IfOk, IfErr};
ghost use Rattle.reply.specs.First.{first_of};
ghost use Rattle.design.specs.Design.{positions};
ghost use Rattle.design.specs.Passed.{reply_of};
ghost use Rattle.state_sums.specs.Sizes.{lists_lent};
ghost use Rattle.probabilities.specs.Answers.{energy_checks, FreeSaid, ConstrainedSaid, ProbabilitySaid};
ghost use Rattle.probabilities.specs.Occupants.{OccupantsFilled, occupants_reply};

use design::Design;
use design::passed::{AdmittedDesign, admitted};
use fractions::Weight;
use occupants::{fill_occupants, wrong_entries};
use partition_sums::constraint::Constraint;
use partition_sums::sums::{constrained_sum, free_sum};
use quotient::quotient;
use reply::limits::STRANDS;
use reply::{Refusal, Refused, refused_if};
use state_sums::LentLists;
use state_sums::sizes::wrong_lists;
use tables::Room;

// The design as an admitted one that has a position; or the first check that holds.
fn scaffolded<'a>(
    own_size: bool,
    design: &'a Design<'a>,
    logarithms: &'a mut [f64],
) -> Result<AdmittedDesign<'a>, Refused>
    requires { 64 ≤ length logarithms.old }
    ensures value { reply_of result ≡ first_of (energy_checks own_size design.now) }
    ensures own { OnOk result (own_size ≡ false) }
    ensures some { OnOk result (0 < positions design.now) }
    ensures same { IfOk result (λ admitted. admitted ≡ design.now) }
{
    let admitted = admitted(own_size, design, logarithms)?;
    refused_if(Refusal::BareScaffold, design.positions() == 0)?;
    Ok(admitted)
}

// The sum over all states of a design. Replies 1, 9, 10, 15, 16, 17, 18.
pub fn free_sum_of_energies(design: &Design) -> Result<Weight, Refused>
    ensures { FreeSaid design.now result }
{
    let mut logarithms = [0.0; STRANDS];
    let admitted = scaffolded(false, design, &mut logarithms)?;
    let mut room = Room::empty();
    let formed = room.formed(&admitted);
    Ok(free_sum(&formed))
}

// The sum over the states that meet a constraint, lists of allowed occupants. An empty list leaves its place free. Replies as the free sum's.
pub fn constrained_sum_of_energies(
    design: &Design,
    lists: &LentLists<'_>,
) -> Result<Weight, Refused>
    ensures { ConstrainedSaid design.now (lists_lent lists.now) result }
{
    let own_size = wrong_lists(design.positions(), lists);
    let mut logarithms = [0.0; STRANDS];
    let admitted = scaffolded(own_size, design, &mut logarithms)?;
    let constraint = Constraint {
        numbers: lists.numbers,
        starts: lists.starts,
        lengths: lists.lengths,
    };
    let mut room = Room::empty();
    let formed = room.formed(&admitted);
    Ok(constrained_sum(&formed, &constraint))
}

// The probability of the states that meet a constraint: their sum by that over all states. Replies as the free sum's.
pub fn probability(design: &Design, lists: &LentLists<'_>) -> Result<Weight, Refused>
    ensures { ProbabilitySaid design.now (lists_lent lists.now) result }
{
    let own_size = wrong_lists(design.positions(), lists);
    let mut logarithms = [0.0; STRANDS];
    let admitted = scaffolded(own_size, design, &mut logarithms)?;
    let constraint = Constraint {
        numbers: lists.numbers,
        starts: lists.starts,
        lengths: lists.lengths,
    };
    let mut room = Room::empty();
    let formed = room.formed(&admitted);
    Ok(quotient(constrained_sum(&formed, &constraint), free_sum(&formed)))
}

// The probability of each occupant at each position, into lent tables of positions by strands, row first, digits and powers apart; column 0 is the empty
// place. Replies as the free sum's; a refusal leaves both tables as they were.
pub fn occupant_probabilities(
    design: &Design,
    digits: &mut [u32],
    powers: &mut [i32],
) -> Result<(), Refused>
    ensures value { result ≡ occupants_reply design.now digits.old powers.old }
    ensures digits_len { length digits.new ≡ length digits.old }
    ensures powers_len { length powers.new ≡ length powers.old }
    ensures filled { OnOk result (OccupantsFilled design.now digits.new powers.new) }
    ensures digits_kept { IfErr result (λ refused. digits.new ≡ digits.old) }
    ensures powers_kept { IfErr result (λ refused. powers.new ≡ powers.old) }
{
    let own_size = wrong_entries(design, digits.len(), powers.len());
    let mut logarithms = [0.0; STRANDS];
    let admitted = scaffolded(own_size, design, &mut logarithms)?;
    let mut room = Room::empty();
    let formed = room.formed(&admitted);
    fill_occupants(&admitted, &formed, digits, powers);
    Ok(())
}
