// The first state under a ceiling as C callers have it.
ghost use Rattle.std.specs.Prelude.{◌≡◌};
ghost use Rattle.ceiling.specs.Answers.{ceiling_answer, ceiling_entries};
ghost use Rattle.exports.specs.Told.{Told};

use super::answers::tell_energy;
use design::Design;
use units::KcalPerMol;

// The first state in listing order whose state energy is at most the ceiling, into one lent entry for each position, and its energy.
pub fn mj_first_state_under(
    design: &Design,
    ceiling: f64,
    entries: &mut [u8],
    place: &mut u64,
    energy: &mut f64,
) -> u32
    ensures told { Told (ceiling_answer design.now ceiling entries.old) result place.new energy.new }
    ensures entries_after { entries.new ≡ ceiling_entries design.now ceiling entries.old }
{
    tell_energy(
        ceiling::first_state_under(design, KcalPerMol(ceiling), entries),
        place,
        energy,
    )
}
