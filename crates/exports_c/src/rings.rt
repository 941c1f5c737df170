// The calls on ring scaffolds as C functions.
// A design is lent part by part: C has no structs of slices.

ghost use Rattle.std.specs.Prelude.{◌≡◌};
ghost use Rattle.doubles.specs.Decimal.{zero};
ghost use Rattle.ring.specs.Answers.{ring_energy_answer, ring_search_answer, ring_search_entries};
ghost use Rattle.exports.specs.Lent.{amounts_numbered, lent_at, answer_in, left_in, SaidIn};
ghost use Rattle.exports.specs.Lowest.{LowestRingTold};
ghost use Rattle.exports.specs.Told.{Told};

use design::Design;
use exports::designs::ambient;
use exports::lent::{amounts_of, tell_unnamed};

// The ring energy of a configuration.
#[unsafe(no_mangle)]
pub extern "C" fn mj_ring_energy(
    scaffold: &[u8],
    marks: &[u8],
    glues: &[u8],
    dg: &[f64],
    ds: &[f64],
    amounts: &[f64],
    given: u32,
    rt: f64,
    strand_excess: f64,
    scaffold_excess: f64,
    configuration: &[u8],
    place: &mut u64,
    energy: &mut f64,
) -> u32
    ensures { Told (answer_in (lent_at scaffold.entry marks.entry glues.entry dg.entry ds.entry amounts.entry (amounts_numbered given) rt strand_excess scaffold_excess) zero (λ d. ring_energy_answer d configuration.now)) result place.new energy.new }
{
    let Some(given) = amounts_of(given) else {
        return tell_unnamed(0.0, place, energy);
    };
    let design = Design {
        scaffold,
        marks,
        glues,
        dg,
        ds,
        amounts,
        given,
        ambient: ambient(rt, strand_excess, scaffold_excess),
    };
    exports::rings::mj_ring_energy(&design, configuration, place, energy)
}

// The lowest ring, into one lent entry for each position, and its energy.
#[unsafe(no_mangle)]
pub extern "C" fn mj_ring_search(
    scaffold: &[u8],
    marks: &[u8],
    glues: &[u8],
    dg: &[f64],
    ds: &[f64],
    amounts: &[f64],
    given: u32,
    rt: f64,
    strand_excess: f64,
    scaffold_excess: f64,
    configuration: &mut [u8],
    place: &mut u64,
    energy: &mut f64,
) -> u32
    ensures told { Told (answer_in (lent_at scaffold.entry marks.entry glues.entry dg.entry ds.entry amounts.entry (amounts_numbered given) rt strand_excess scaffold_excess) zero (λ d. ring_search_answer d configuration.old)) result place.new energy.new }
    ensures configuration_after { configuration.new ≡ left_in (lent_at scaffold.entry marks.entry glues.entry dg.entry ds.entry amounts.entry (amounts_numbered given) rt strand_excess scaffold_excess) configuration.old (λ d. ring_search_entries d configuration.old) }
    ensures lowest_ring_told { SaidIn (lent_at scaffold.entry marks.entry glues.entry dg.entry ds.entry amounts.entry (amounts_numbered given) rt strand_excess scaffold_excess) (λ d. LowestRingTold d result configuration.new energy.new) }
{
    let Some(given) = amounts_of(given) else {
        return tell_unnamed(0.0, place, energy);
    };
    let design = Design {
        scaffold,
        marks,
        glues,
        dg,
        ds,
        amounts,
        given,
        ambient: ambient(rt, strand_excess, scaffold_excess),
    };
    exports::rings::mj_ring_search(&design, configuration, place, energy)
}
