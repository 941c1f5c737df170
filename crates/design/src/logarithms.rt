// The amounts of the strands: potentials as they are lent, or concentrations, whose logarithms stand for potentials.
ghost use Rattle.std.specs.Prelude.{◌≡◌, true, false, [], ◌∷◌, ◌≤◌, length, IfOk, IfErr, OnOk};
ghost use Rattle.reply.specs.First.{bare, first_of, ◌if◌};
ghost use Rattle.reply.specs.declared.Refusal.TheVariants.{TooDilute};
ghost use Rattle.design.specs.Design.{strands, amount};
ghost use Rattle.design.specs.declared.Amounts.TheVariants.{Concentrations};
ghost use Rattle.design.specs.Checks.{somewhere, dilute};
ghost use Rattle.design.specs.Unread.{PotentialsOf};
ghost use Rattle.design.specs.Filling.{logarithm_read, LogarithmsRead};

use super::{Amounts, Design};
use logarithm::ln;
use reply::Refusal;

impl<'a> Design<'a> {
    // The logarithm of a strand's concentration. Where it has none, 15 if the strand is somewhere a friend, and else 0.0, which nobody reads: so friends are
    // asked only of few strands.
    fn logarithm_of(&self, strand: u8) -> Result<f64, Refusal>
        ensures { result ≡ logarithm_read (somewhere self.now.scaffold self.now.marks self.now.glues self.now.dg self.now.ds strand) (amount self.now strand) }
    {
        let logarithm = ln(self.amount_of(strand));
        if logarithm.is_err() && !self.is_friend_somewhere(strand) {
            return Ok(0.0);
        }
        logarithm
    }

    // The logarithms of the concentrations that are read, in their places.
    fn fill_logarithms(&self, logarithms: &mut [f64]) -> Result<(), Refusal>
        requires few { strands self.now ≤ 64 }
        requires room { strands self.now ≤ length logarithms.old }
        requires given { self.now.given ≡ Concentrations }
        ensures value { result ≡ bare (first_of (TooDilute if dilute self.now ∷ [])) }
        ensures filled { OnOk result (LogarithmsRead self.now logarithms.new) }
        ensures len_unchanged { length logarithms.new ≡ length logarithms.old }
    {
        // By number: a strand is one.
        for strand in 0..self.strands() {
            logarithms[strand] = self.logarithm_of(strand as u8)?;
        }
        Ok(())
    }
}

// The potentials of a design: its amounts as they are lent where these are potentials, and otherwise their logarithms, which are written into lent entries.
// So a search over potentials copies none.
pub fn potentials_of<'a>(
    design: &Design<'a>,
    logarithms: &'a mut [f64],
) -> Result<&'a [f64], Refusal>
    requires few { strands design.now ≤ 64 }
    requires room { strands design.now ≤ length logarithms.old }
    ensures value { IfOk result (λ potentials. PotentialsOf design.now potentials.now) }
    ensures told { OnOk result (dilute design.now ≡ false) }
    ensures refused { IfErr result (λ refusal. (refusal ≡ TooDilute) × (dilute design.now ≡ true)) }
{
    match design.given {
        Amounts::Potentials => Ok(design.amounts),
        Amounts::Concentrations => {
            design.fill_logarithms(logarithms)?;
            Ok(&logarithms[..design.strands()])
        }
    }
}
