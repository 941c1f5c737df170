// A function for each kind of line about the design that lines have set: the words after the kind's own, that design, and slices lent for
// what the call writes. It reads the question, makes the call, and gives `Some` where the rest of the line says what the call answered.
ghost use Rattle.std.specs.Prelude.{OnSome};
ghost use Rattle.replay.specs.Designs.{StrandBondLine, ScaffoldBondLine, FriendsLine, CountLine, StateLine, StateEnergyLine, ChainEnergyLine, SearchLine, SettledLine};

use crate::numbers::{decimal, small};
use crate::parts::split_at_first;
use crate::places::{is_places, says_places};
use crate::says::says;
use design::Design;
use doubles::bits;

// `X Y`: the bond of two strands.
pub(crate) fn strand_bond(words: &[u8], design: &Design<'_>) -> Option<()>
    ensures { OnSome result (StrandBondLine design.now words.now) }
{
    let (first, rest) = split_at_first(words, b' ');
    let (second, answer) = split_at_first(rest, b' ');
    let x = small(first)?;
    let y = small(second)?;
    let mut place: u64 = 0;
    let mut bond = 0.0;
    let reply = exports::designs::mj_strand_bond(design, x, y, &mut place, &mut bond);
    let figures = [bits(bond)];
    says(answer, reply, &figures)
}

// `POSITION STRAND`: the bond of the scaffold and a strand.
pub(crate) fn scaffold_bond(words: &[u8], design: &Design<'_>) -> Option<()>
    ensures { OnSome result (ScaffoldBondLine design.now words.now) }
{
    let (first, rest) = split_at_first(words, b' ');
    let (second, answer) = split_at_first(rest, b' ');
    let position = decimal(first)?;
    let strand = small(second)?;
    let mut place: u64 = 0;
    let mut bond = 0.0;
    let reply = exports::designs::mj_scaffold_bond(
        design,
        position as usize,
        strand,
        &mut place,
        &mut bond,
    );
    let figures = [bits(bond)];
    says(answer, reply, &figures)
}

// `POSITION`: its friends.
pub(crate) fn friends(words: &[u8], design: &Design<'_>, entries: &mut [u8]) -> Option<()>
    ensures { OnSome result (FriendsLine design.now words.now entries.old) }
{
    let (first, answer) = split_at_first(words, b' ');
    let position = decimal(first)?;
    let mut place: u64 = 0;
    let mut count: u64 = 0;
    let reply = exports::designs::mj_friends(
        design,
        position as usize,
        entries,
        &mut place,
        &mut count,
    );
    let friends = entries.get(..count as usize)?;
    says_places(answer, reply, friends)
}

// The number of states.
pub(crate) fn count(words: &[u8], design: &Design<'_>) -> Option<()>
    ensures { OnSome result (CountLine design.now words.now) }
{
    let mut place: u64 = 0;
    let mut count: u64 = 0;
    let reply = exports::designs::mj_states(design, &mut place, &mut count);
    let figures = [count];
    says(words, reply, &figures)
}

// `RANK`: the state there.
pub(crate) fn state(words: &[u8], design: &Design<'_>, places: &mut [u8]) -> Option<()>
    ensures { OnSome result (StateLine design.now words.now places.old) }
{
    let (first, answer) = split_at_first(words, b' ');
    let rank = decimal(first)?;
    let mut place: u64 = 0;
    let reply = exports::designs::mj_state(design, rank, places, &mut place);
    says_places(answer, reply, places)
}

// `PLACES`: the state energy.
pub(crate) fn state_energy(words: &[u8], design: &Design<'_>, configuration: &[u8]) -> Option<()>
    ensures { OnSome result (StateEnergyLine design.now words.now configuration.now) }
{
    let (first, answer) = split_at_first(words, b' ');
    if !is_places(first, configuration) {
        return None;
    }
    let mut place: u64 = 0;
    let mut energy = 0.0;
    let reply = exports::designs::mj_state_energy(design, configuration, &mut place, &mut energy);
    let figures = [bits(energy)];
    says(answer, reply, &figures)
}

// `PLACES`: the chain energy, as it is and times RT.
pub(crate) fn chain_energy(words: &[u8], design: &Design<'_>, configuration: &[u8]) -> Option<()>
    ensures { OnSome result (ChainEnergyLine design.now words.now configuration.now) }
{
    let (first, answer) = split_at_first(words, b' ');
    if !is_places(first, configuration) {
        return None;
    }
    let mut place: u64 = 0;
    let mut sum = 0.0;
    let mut energy = 0.0;
    let reply = exports::designs::mj_chain_energy(
        design,
        configuration,
        &mut place,
        &mut sum,
        &mut energy,
    );
    let figures = [bits(sum), bits(energy)];
    says(answer, reply, &figures)
}

// The energy of the search.
pub(crate) fn search(words: &[u8], design: &Design<'_>, places: &mut [u8]) -> Option<()>
    ensures { OnSome result (SearchLine design.now words.now places.old) }
{
    let mut place: u64 = 0;
    let mut energy = 0.0;
    let reply = exports::search::mj_search(design, places, &mut place, &mut energy);
    let figures = [bits(energy)];
    says(words, reply, &figures)
}

// The configuration of the search.
pub(crate) fn settled(words: &[u8], design: &Design<'_>, places: &mut [u8]) -> Option<()>
    ensures { OnSome result (SettledLine design.now words.now places.old) }
{
    let mut place: u64 = 0;
    let mut energy = 0.0;
    let reply = exports::search::mj_search(design, places, &mut place, &mut energy);
    says_places(words, reply, places)
}
