// A design's calls as C callers have them.
ghost use Rattle.std.specs.Prelude.{◌≡◌, None};
ghost use Rattle.reply.specs.Figures.{refused_with};
ghost use Rattle.reply.specs.declared.Refusal.TheVariants.{WrongSize};
ghost use Rattle.design.specs.Answers.{no_chain, strand_bond_answer, scaffold_bond_answer, friends_answer, friends_entries, count_answer, rank_answer, rank_entries, state_energy_answer, chain_energy_answer};
ghost use Rattle.exports.specs.Lent.{ambient_of};
ghost use Rattle.exports.specs.Told.{Told, chain_of};

use super::answers::{tell, tell_chain, tell_energy};
use design::Design;
use reply::Refusal;
use units::Ambient;

// The ambient out of the three doubles that C lends.
pub fn ambient(rt: f64, strand_excess: f64, scaffold_excess: f64) -> Ambient
    ensures { result ≡ ambient_of rt strand_excess scaffold_excess }
{
    Ambient::new(rt, strand_excess, scaffold_excess)
}

// The bond between strand x and strand y to the east of it.
pub fn mj_strand_bond(design: &Design, x: u8, y: u8, place: &mut u64, bond: &mut f64) -> u32
    ensures { Told (strand_bond_answer design.now x y) result place.new bond.new }
{
    tell(sdc1d::bond_between_strands(design, x, y), 0.0, place, bond)
}

// The bond between the scaffold at a position and a strand.
pub fn mj_scaffold_bond(
    design: &Design,
    position: usize,
    strand: u8,
    place: &mut u64,
    bond: &mut f64,
) -> u32
    ensures { Told (scaffold_bond_answer design.now position strand) result place.new bond.new }
{
    tell(
        sdc1d::bond_with_scaffold(design, position, strand),
        0.0,
        place,
        bond,
    )
}

// The friends of a position, into 64 lent entries, and how many there are.
pub fn mj_friends(
    design: &Design,
    position: usize,
    entries: &mut [u8],
    place: &mut u64,
    count: &mut u64,
) -> u32
    ensures told { Told (friends_answer design.now position entries.old) result place.new count.new }
    ensures entries_after { entries.new ≡ friends_entries design.now position entries.old }
{
    tell(
        sdc1d::friends_btm(design, position, entries),
        0,
        place,
        count,
    )
}

// How many states there are.
pub fn mj_states(design: &Design, place: &mut u64, count: &mut u64) -> u32
    ensures { Told (count_answer design.now) result place.new count.new }
{
    tell(sdc1d::number_of_states(design), 0, place, count)
}

// The state at a rank, into one lent entry for each position.
pub fn mj_state(design: &Design, rank: u64, entries: &mut [u8], place: &mut u64) -> u32
    ensures told { Told (rank_answer design.now rank entries.old) result place.new tt }
    ensures entries_after { entries.new ≡ rank_entries design.now rank entries.old }
{
    tell(
        sdc1d::state_at_rank(design, rank, entries),
        (),
        place,
        &mut (),
    )
}

// The state energy of a configuration.
pub fn mj_state_energy(
    design: &Design,
    configuration: &[u8],
    place: &mut u64,
    energy: &mut f64,
) -> u32
    ensures { Told (state_energy_answer design.now configuration.now) result place.new energy.new }
{
    tell_energy(sdc1d::g_system(design, configuration), place, energy)
}

// What the chain energy tells where the number of the amounts says nothing.
pub fn tell_unnamed_chain(place: &mut u64, sum: &mut f64, energy: &mut f64) -> u32
    ensures { Told (refused_with no_chain WrongSize None) result place.new (chain_of sum.new energy.new) }
{
    tell_chain(Err(Refusal::WrongSize.into()), place, sum, energy)
}

// The chain energy of a configuration, as it is and times RT.
pub fn mj_chain_energy(
    design: &Design,
    configuration: &[u8],
    place: &mut u64,
    sum: &mut f64,
    energy: &mut f64,
) -> u32
    ensures { Told (chain_energy_answer design.now configuration.now) result place.new (chain_of sum.new energy.new) }
{
    tell_chain(
        sdc1d::chain_energy(design, configuration),
        place,
        sum,
        energy,
    )
}
