// The energy of a bond over RT, between two strands and between the scaffold and a strand.
ghost use Rattle.std.specs.Prelude.{◌≡◌};
ghost use Rattle.design.specs.Design.{bond_of, bond_at, strand_bond_in, scaffold_bond};

use super::Design;
use super::reads::cell_at;
use units::{KcalPerMol, KcalPerMolKelvin, Kelvin};

// (dG - excess * dS) / RT
pub fn bond(dg: KcalPerMol, ds: KcalPerMolKelvin, excess: Kelvin, rt: KcalPerMol) -> f64
    ensures { result ≡ bond_of dg.0 ds.0 excess.0 rt.0 }
{
    (dg - excess * ds) / rt
}

impl<'a> Design<'a> {
    // The bond at a cell of the glue tables.
    fn bond_at(&self, row: u8, column: u8, excess: Kelvin) -> f64
        ensures { result ≡ bond_at self.now.dg self.now.ds row column excess.0 self.now.ambient.rt.0 }
    {
        let dg = KcalPerMol(cell_at(self.dg, row, column));
        let ds = KcalPerMolKelvin(cell_at(self.ds, row, column));
        bond(dg, ds, excess, self.ambient.rt)
    }

    // Between strand x and strand y to the east of it.
    #[tactic(auto, unfolding(crate::specs::Design::strand_bond))]
    pub fn strand_bond(&self, x: u8, y: u8) -> f64
        ensures { result ≡ strand_bond_in self.now x y }
    {
        self.bond_at(
            self.east_glue(x),
            self.west_glue(y),
            self.ambient.strand_excess,
        )
    }

    // Between a scaffold glue and a strand.
    #[tactic(auto, unfolding(crate::specs::Design::scaffold_bond))]
    pub fn scaffold_bond(&self, scaffold_glue: u8, strand: u8) -> f64
        ensures { result ≡ scaffold_bond scaffold_glue self.now.glues self.now.dg self.now.ds self.now.ambient strand }
    {
        self.bond_at(
            scaffold_glue,
            self.bottom_glue(strand),
            self.ambient.scaffold_excess,
        )
    }
}
