// Designs that have passed checks, so that no function that follows these asks for it. A clause sees the design itself.
ghost use Rattle.std.specs.Prelude.{◌≡◌, ◌≤◌, [], false, length, OnOk, IfOk};
ghost use Rattle.reply.specs.First.{first_of};
ghost use Rattle.design.specs.Checks.{ranged_checks, table_checks, number_checks, design_checks};
ghost use Rattle.design.specs.Passed.{TablesPassed, ChecksPassed, reply_of};
ghost use Rattle.design.specs.Unread.{PotentialsOf};

use super::Design;
use super::checks::{ranged_reply, ranges_reply};
use super::logarithms::potentials_of;
use reply::Refused;
use std::marker::Model;

// A design whose tables pass.
#[derive(Drop)]
pub struct TabledDesign<'a> {
    pub design: &'a Design<'a>,
}

// A design that is admitted, with its potentials: those that it was lent, or the logarithms of its concentrations.
#[derive(Drop)]
pub struct AdmittedDesign<'a> {
    pub design: &'a Design<'a>,
    pub potentials: &'a [f64],
}

// The design as one whose tables pass; or the first of the checks of its tables that holds, among them what the call itself finds wrong with a size or
// out of range. Both are flags: a call's own size is one check with those of the design, and its own range follows the cells, so that the reply is the
// first of one list.
pub fn ranged<'a>(
    own_size: bool,
    own_range: bool,
    design: &'a Design<'a>,
) -> Result<TabledDesign<'a>, Refused>
    ensures value { reply_of result ≡ first_of (ranged_checks own_size own_range design.now.scaffold design.now.marks design.now.glues design.now.dg design.now.ds design.now.amounts) }
    ensures own { OnOk result (own_size ≡ false) }
    ensures tables { OnOk result (TablesPassed design.now) }
    ensures same { IfOk result (λ tabled. tabled ≡ design.now) }
{
    ranged_reply(own_size, own_range, design)?;
    Ok(TabledDesign { design })
}

// The same of a call that finds nothing else out of range.
pub fn tabled<'a>(own_size: bool, design: &'a Design<'a>) -> Result<TabledDesign<'a>, Refused>
    ensures value { reply_of result ≡ first_of (table_checks own_size design.now.scaffold design.now.marks design.now.glues design.now.dg design.now.ds design.now.amounts) }
    ensures own { OnOk result (own_size ≡ false) }
    ensures tables { OnOk result (TablesPassed design.now) }
    ensures same { IfOk result (λ tabled. tabled ≡ design.now) }
{
    ranged(own_size, false, design)
}

// The design as an admitted one, of a call that has no check of its own but of a size; or the first check that holds. The logarithms of concentrations are
// written into the lent entries; of potentials these are kept.
pub fn admitted<'a>(
    own_size: bool,
    design: &'a Design<'a>,
    logarithms: &'a mut [f64],
) -> Result<AdmittedDesign<'a>, Refused>
    requires { 64 ≤ length logarithms.old }
    ensures value { reply_of result ≡ first_of (design_checks own_size design.now [] []) }
    ensures own { OnOk result (own_size ≡ false) }
    ensures checks { OnOk result (ChecksPassed design.now) }
    ensures same { IfOk result (λ admitted. admitted ≡ design.now) }
{
    tabled(own_size, design)?.admitted(logarithms)
}

impl<'a> TabledDesign<'a> {
    // The design as an admitted one; or the first of the checks of its numbers that holds. The logarithms of concentrations are written into the lent
    // entries.
    pub fn admitted(&self, logarithms: &'a mut [f64]) -> Result<AdmittedDesign<'a>, Refused>
        requires { 64 ≤ length logarithms.old }
        ensures value { reply_of result ≡ first_of (number_checks self.now) }
        ensures checks { OnOk result (ChecksPassed self.now) }
        ensures same { IfOk result (λ admitted. admitted ≡ self.now) }
    {
        let design = self.design;
        let potentials = potentials_of(design, logarithms)?;
        ranges_reply(design, potentials)?;
        Ok(AdmittedDesign { design, potentials })
    }
}

impl<'a> AdmittedDesign<'a> {
    // The potential of each strand.
    pub fn potentials(&self) -> &'a [f64]
        ensures { PotentialsOf self.now result.now }
    {
        self.potentials
    }

    // The design as one whose tables pass.
    pub fn tabled(&self) -> TabledDesign<'a>
        ensures { result ≡ self.now }
    {
        TabledDesign {
            design: self.design,
        }
    }
}

impl<'a> Model for TabledDesign<'a> {
    ghost use Rattle.design.specs.Design.{Design};
    ghost use Rattle.design.specs.Passed.{TablesPassed};

    ghost Value = { Design };

    ghost view = { λ a. a.design.now };

    ghost invariant = { λ a. TablesPassed a.design.now };
}

impl<'a> Model for AdmittedDesign<'a> {
    ghost use Rattle.design.specs.Design.{Design};
    ghost use Rattle.design.specs.Passed.{ChecksPassed};
    ghost use Rattle.design.specs.Unread.{PotentialsOf};

    ghost Value = { Design };

    ghost view = { λ a. a.design.now };

    ghost invariant = { λ a. ChecksPassed a.design.now × PotentialsOf a.design.now a.potentials.now };
}
