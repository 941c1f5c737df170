// A design's calls as C functions. A design is lent as sdc1d takes it, marks after the scaffold, the ambient as its three doubles.
// A design is lent part by part: C has no structs of slices.

ghost use Rattle.std.specs.Prelude.{◌≡◌};
ghost use Rattle.doubles.specs.Decimal.{zero};
ghost use Rattle.design.specs.Answers.{no_chain, strand_bond_answer, scaffold_bond_answer, friends_answer, friends_entries, count_answer, rank_answer, rank_entries, state_energy_answer, chain_energy_answer};
ghost use Rattle.exports.specs.Lent.{amounts_numbered, lent_at, answer_in, left_in};
ghost use Rattle.exports.specs.Told.{Told, chain_of};

use design::Design;
use exports::designs::{ambient, tell_unnamed_chain};
use exports::lent::{amounts_of, tell_unnamed};

// The bond between strand x and strand y to the east of it.
#[unsafe(no_mangle)]
pub extern "C" fn mj_strand_bond(
    scaffold: &[u8],
    marks: &[u8],
    glues: &[u8],
    dg: &[f64],
    ds: &[f64],
    amounts: &[f64],
    given: u32,
    rt: f64,
    strand_excess: f64,
    scaffold_excess: f64,
    x: u8,
    y: u8,
    place: &mut u64,
    bond: &mut f64,
) -> u32
    ensures { Told (answer_in (lent_at scaffold.entry marks.entry glues.entry dg.entry ds.entry amounts.entry (amounts_numbered given) rt strand_excess scaffold_excess) zero (λ d. strand_bond_answer d x y)) result place.new bond.new }
{
    let Some(given) = amounts_of(given) else {
        return tell_unnamed(0.0, place, bond);
    };
    let design = Design {
        scaffold,
        marks,
        glues,
        dg,
        ds,
        amounts,
        given,
        ambient: ambient(rt, strand_excess, scaffold_excess),
    };
    exports::designs::mj_strand_bond(&design, x, y, place, bond)
}

// The bond between the scaffold at a position and a strand.
#[unsafe(no_mangle)]
pub extern "C" fn mj_scaffold_bond(
    scaffold: &[u8],
    marks: &[u8],
    glues: &[u8],
    dg: &[f64],
    ds: &[f64],
    amounts: &[f64],
    given: u32,
    rt: f64,
    strand_excess: f64,
    scaffold_excess: f64,
    position: usize,
    strand: u8,
    place: &mut u64,
    bond: &mut f64,
) -> u32
    ensures { Told (answer_in (lent_at scaffold.entry marks.entry glues.entry dg.entry ds.entry amounts.entry (amounts_numbered given) rt strand_excess scaffold_excess) zero (λ d. scaffold_bond_answer d position strand)) result place.new bond.new }
{
    let Some(given) = amounts_of(given) else {
        return tell_unnamed(0.0, place, bond);
    };
    let design = Design {
        scaffold,
        marks,
        glues,
        dg,
        ds,
        amounts,
        given,
        ambient: ambient(rt, strand_excess, scaffold_excess),
    };
    exports::designs::mj_scaffold_bond(&design, position, strand, place, bond)
}

// The friends of a position, into 64 lent entries, and how many there are.
#[unsafe(no_mangle)]
pub extern "C" fn mj_friends(
    scaffold: &[u8],
    marks: &[u8],
    glues: &[u8],
    dg: &[f64],
    ds: &[f64],
    amounts: &[f64],
    given: u32,
    rt: f64,
    strand_excess: f64,
    scaffold_excess: f64,
    position: usize,
    entries: &mut [u8],
    place: &mut u64,
    count: &mut u64,
) -> u32
    ensures told { Told (answer_in (lent_at scaffold.entry marks.entry glues.entry dg.entry ds.entry amounts.entry (amounts_numbered given) rt strand_excess scaffold_excess) 0 (λ d. friends_answer d position entries.old)) result place.new count.new }
    ensures entries_after { entries.new ≡ left_in (lent_at scaffold.entry marks.entry glues.entry dg.entry ds.entry amounts.entry (amounts_numbered given) rt strand_excess scaffold_excess) entries.old (λ d. friends_entries d position entries.old) }
{
    let Some(given) = amounts_of(given) else {
        return tell_unnamed(0, place, count);
    };
    let design = Design {
        scaffold,
        marks,
        glues,
        dg,
        ds,
        amounts,
        given,
        ambient: ambient(rt, strand_excess, scaffold_excess),
    };
    exports::designs::mj_friends(&design, position, entries, place, count)
}

// How many states there are.
#[unsafe(no_mangle)]
pub extern "C" fn mj_states(
    scaffold: &[u8],
    marks: &[u8],
    glues: &[u8],
    dg: &[f64],
    ds: &[f64],
    amounts: &[f64],
    given: u32,
    rt: f64,
    strand_excess: f64,
    scaffold_excess: f64,
    place: &mut u64,
    count: &mut u64,
) -> u32
    ensures { Told (answer_in (lent_at scaffold.entry marks.entry glues.entry dg.entry ds.entry amounts.entry (amounts_numbered given) rt strand_excess scaffold_excess) 0 (λ d. count_answer d)) result place.new count.new }
{
    let Some(given) = amounts_of(given) else {
        return tell_unnamed(0, place, count);
    };
    let design = Design {
        scaffold,
        marks,
        glues,
        dg,
        ds,
        amounts,
        given,
        ambient: ambient(rt, strand_excess, scaffold_excess),
    };
    exports::designs::mj_states(&design, place, count)
}

// The state at a rank, into one lent entry for each position.
#[unsafe(no_mangle)]
pub extern "C" fn mj_state(
    scaffold: &[u8],
    marks: &[u8],
    glues: &[u8],
    dg: &[f64],
    ds: &[f64],
    amounts: &[f64],
    given: u32,
    rt: f64,
    strand_excess: f64,
    scaffold_excess: f64,
    rank: u64,
    entries: &mut [u8],
    place: &mut u64,
) -> u32
    ensures told { Told (answer_in (lent_at scaffold.entry marks.entry glues.entry dg.entry ds.entry amounts.entry (amounts_numbered given) rt strand_excess scaffold_excess) tt (λ d. rank_answer d rank entries.old)) result place.new tt }
    ensures entries_after { entries.new ≡ left_in (lent_at scaffold.entry marks.entry glues.entry dg.entry ds.entry amounts.entry (amounts_numbered given) rt strand_excess scaffold_excess) entries.old (λ d. rank_entries d rank entries.old) }
{
    let Some(given) = amounts_of(given) else {
        return tell_unnamed((), place, &mut ());
    };
    let design = Design {
        scaffold,
        marks,
        glues,
        dg,
        ds,
        amounts,
        given,
        ambient: ambient(rt, strand_excess, scaffold_excess),
    };
    exports::designs::mj_state(&design, rank, entries, place)
}

// The state energy of a configuration.
#[unsafe(no_mangle)]
pub extern "C" fn mj_state_energy(
    scaffold: &[u8],
    marks: &[u8],
    glues: &[u8],
    dg: &[f64],
    ds: &[f64],
    amounts: &[f64],
    given: u32,
    rt: f64,
    strand_excess: f64,
    scaffold_excess: f64,
    configuration: &[u8],
    place: &mut u64,
    energy: &mut f64,
) -> u32
    ensures { Told (answer_in (lent_at scaffold.entry marks.entry glues.entry dg.entry ds.entry amounts.entry (amounts_numbered given) rt strand_excess scaffold_excess) zero (λ d. state_energy_answer d configuration.now)) result place.new energy.new }
{
    let Some(given) = amounts_of(given) else {
        return tell_unnamed(0.0, place, energy);
    };
    let design = Design {
        scaffold,
        marks,
        glues,
        dg,
        ds,
        amounts,
        given,
        ambient: ambient(rt, strand_excess, scaffold_excess),
    };
    exports::designs::mj_state_energy(&design, configuration, place, energy)
}

// The chain energy of a configuration, as it is and times RT.
#[unsafe(no_mangle)]
pub extern "C" fn mj_chain_energy(
    scaffold: &[u8],
    marks: &[u8],
    glues: &[u8],
    dg: &[f64],
    ds: &[f64],
    amounts: &[f64],
    given: u32,
    rt: f64,
    strand_excess: f64,
    scaffold_excess: f64,
    configuration: &[u8],
    place: &mut u64,
    sum: &mut f64,
    energy: &mut f64,
) -> u32
    ensures { Told (answer_in (lent_at scaffold.entry marks.entry glues.entry dg.entry ds.entry amounts.entry (amounts_numbered given) rt strand_excess scaffold_excess) no_chain (λ d. chain_energy_answer d configuration.now)) result place.new (chain_of sum.new energy.new) }
{
    let Some(given) = amounts_of(given) else {
        return tell_unnamed_chain(place, sum, energy);
    };
    let design = Design {
        scaffold,
        marks,
        glues,
        dg,
        ds,
        amounts,
        given,
        ambient: ambient(rt, strand_excess, scaffold_excess),
    };
    exports::designs::mj_chain_energy(&design, configuration, place, sum, energy)
}
