// A model as it is lent to the search: the options of each position, and the bonds and potentials that these read.
ghost use Rattle.std.specs.Prelude.{◌≡◌, ◌*◌, ◌≤◌, length};

use super::bonds::Bonds;
use super::options::Options;

// Options and bonds are of as many strands, and there is a row of scaffold bonds for each position. Each has a lifetime of its own: bonds may be kept
// beside a design where options are filled for one call.
#[derive(Clone, Copy)]
pub struct LentModel<'a, 'b> {
    pub options: Options<'a>,
    pub bonds: Bonds<'b>,
    ghost same_strands: { bonds.strand_bonds.strands ≡ options.strands },
    ghost a_row_each: { length options.counts.now * options.strands ≤ length bonds.scaffold_bonds.now },
}
