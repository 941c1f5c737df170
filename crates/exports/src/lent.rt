// How callers in C say which amounts they lend, by a number: 0 potentials, 1 concentrations; any other is refused with 1, before all else.
ghost use Rattle.std.specs.Prelude.{◌≡◌, None};
ghost use Rattle.reply.specs.Figures.{refused_with};
ghost use Rattle.reply.specs.declared.Refusal.TheVariants.{WrongSize};
ghost use Rattle.exports.specs.Lent.{amounts_numbered};
ghost use Rattle.exports.specs.Told.{Told};

use super::answers::tell;
use design::Amounts;
use reply::Refusal;

// How the amounts are given that a number says. By its number this is named only here, so that `Amounts` has no `TryFrom`.
pub fn amounts_of(number: u32) -> Option<Amounts>
    ensures { result ≡ amounts_numbered number }
{
    match number {
        0 => Some(Amounts::Potentials),
        1 => Some(Amounts::Concentrations),
        _ => None,
    }
}

// What a call tells where the number says nothing.
pub fn tell_unnamed<T: Copy>(blank: T, place: &mut u64, figure: &mut T) -> u32
    ensures { Told (refused_with blank WrongSize None) result place.new figure.new }
{
    tell(Err(Refusal::WrongSize.into()), blank, place, figure)
}
