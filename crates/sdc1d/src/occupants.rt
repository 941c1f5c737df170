// Whether a configuration holds, at some position, neither 0 nor a friend.
ghost use Rattle.std.specs.Prelude.{◌≡◌};
ghost use Rattle.design.specs.Design.{strands, scaffold_glue, blocked};
ghost use Rattle.design.specs.Checks.{no_friend, not_all_friends};

use design::Design;
use design::reads::byte_at;

// Whether an occupant of a position is neither 0 nor a friend: of a blocked one none is.
fn is_no_friend(design: &Design, position: usize, occupant: u8) -> bool
    ensures { result ≡ no_friend (blocked design.now position) (scaffold_glue design.now position) design.now.glues design.now.dg design.now.ds (strands design.now) occupant }
{
    occupant != 0
        && (design.strands() <= usize::from(occupant)
            || design.is_blocked(position)
            || !design.is_friend(design.scaffold_glue(position), occupant))
}

// Whether some position's occupant is.
pub(crate) fn not_all_friends(design: &Design, configuration: &[u8]) -> bool
    ensures { result ≡ not_all_friends design.now configuration.now }
{
    (0..design.positions()).any(|position| {
        let occupant = byte_at(configuration, position);
        is_no_friend(design, position, occupant)
    })
}
