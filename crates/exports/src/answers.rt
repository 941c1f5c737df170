// Answers of calls whose refusals may have a place, told to C by `tell`: the reply number is the result, the place and the figure go through
// pointers. A refusal has a blank figure: 0. Here are also the energies of a design, which are told as doubles.
ghost use Rattle.std.specs.Prelude.{◌≡◌};
ghost use Rattle.reply.specs.Figures.{result_figures};
ghost use Rattle.design.specs.Answers.{energy_figures, chain_figures};
ghost use Rattle.exports.specs.Told.{Told, chain_of};

use super::place;
use design::answers::ChainEnergy;
use reply::{ANSWERED, Refused};
use units::KcalPerMol;

// The reply number, the place, and the figure, a blank one where the call refuses. The blank is given, and is not `T::default()`: the kit says of that
// only a property, and each call would have to show that one value alone has it.
pub(crate) fn tell<T: Copy>(
    answer: Result<T, Refused>,
    blank: T,
    place: &mut u64,
    figure: &mut T,
) -> u32
    ensures { Told (result_figures blank (λ x. x) answer) result place.new figure.new }
{
    match answer {
        Ok(given) => {
            *place = place::NOWHERE;
            *figure = given;
            ANSWERED
        }
        Err(refused) => {
            *place = place::number(refused.place);
            *figure = blank;
            refused.refusal.number()
        }
    }
}

// The state energy, or that of the configuration that stands in the lent entries.
pub(crate) fn tell_energy(
    answer: Result<KcalPerMol, Refused>,
    place: &mut u64,
    energy: &mut f64,
) -> u32
    ensures { Told (energy_figures answer) result place.new energy.new }
{
    tell(answer.map(|energy| energy.0), 0.0, place, energy)
}

// The chain energy, as it is and times RT.
pub(crate) fn tell_chain(
    answer: Result<ChainEnergy, Refused>,
    place: &mut u64,
    sum: &mut f64,
    energy: &mut f64,
) -> u32
    ensures { Told (chain_figures answer) result place.new (chain_of sum.new energy.new) }
{
    let mut chain = ChainEnergy::default();
    let number = tell(answer, chain, place, &mut chain);
    *sum = chain.bare;
    *energy = chain.times_rt.0;
    number
}
