// A file's rows with nothing wrong, and what they say to the calls.
ghost use Rattle.std.specs.Prelude.{◌≡◌, ◌≤◌, length, IfOk, IfErr, Ok, Err};
ghost use Rattle.lists.specs.Build.{tabulate};
ghost use Rattle.reply.specs.Number.{reply_number};
ghost use Rattle.sdc1d_params.specs.Params.{lent_of, outcome_of, from_params};
ghost use Rattle.sdc1d_params.specs.Places.{build_reply};
ghost use Rattle.units.specs.Ambient.{ambient_figures};
ghost use Rattle.sheet.specs.Rows.{rows_of};
ghost use Rattle.sheet.specs.Faults.{counts_of, sheet_answer};
ghost use Rattle.sheet.specs.Parts.{glue_at, first_at, name_number_at, entry_number_at, energy_at};
ghost use Rattle.sheet.specs.Theorems.{Sound};
ghost use Rattle.sheet.specs.Said.{copies_said, params_said, ambient_said, potentials_said, marks_said, ring_said, glues_shown, strands_shown};
ghost use Rattle.sheet.specs.declared.rows.Group.TheVariants as group;

use crate::faults::{Counts, SheetFault, check};
use crate::once;
use crate::once::{ambient_of, copied, junction_penalty};
use crate::rows::{Chosen, Group};
use reply::limits::POSITIONS;
use reply::{Refusal, Refused};
use sdc_common::MOST_STRANDS;
use sdc1d_params::{Build, Copies, LentParameters, MOST_ENTRIES, from_params_with_place};
use statements::statement::Row;
use statements::words::Word;
use units::Ambient;

// A file whose rows have nothing wrong: its text, its rows, and how many strands, positions and entries they are.
#[derive(Drop)]
pub struct Sheet<'a> {
    pub text: &'a [u8],
    pub rows: &'a [Row],
    pub counts: Counts,
    ghost sound: { Sound text.now rows.now counts },
    ghost counted: { counts ≡ counts_of rows.now },
}

impl<'a> Sheet<'a> {
    // The rows of a text, or what is wrong with them.
    #[tactic(auto, using(crate::proofs::Theorems::sound, crate::proofs::Theorems::counted))]
    pub fn of(text: &'a [u8], rows: &'a [Row]) -> Result<Self, SheetFault>
        ensures counted { IfOk result (λ sheet. sheet_answer text.now rows.now ≡ Ok sheet.counts) }
        ensures fault { IfErr result (λ fault. sheet_answer text.now rows.now ≡ Err fault) }
        ensures same { IfOk result (λ sheet. (sheet.text.now ≡ text.now) × (sheet.rows.now ≡ rows.now)) }
    {
        let counts = check(text, rows)?;
        Ok(Sheet { text, rows, counts })
    }
}

impl Sheet<'_> {
    // The glue names of the strands, as many as there is room for.
    fn strand_names(&self, names: &mut [usize])
        ensures { names.new ≡ tabulate (length names.old) (name_number_at (glue_at self.now.rows.now (rows_of group.Strand self.now.rows.now))) }
    {
        let mut places = [0usize; MOST_STRANDS];
        let strands = Chosen::of(self.rows, Group::Strand, &mut places[..self.counts.strands]);
        strands.strands(names);
    }

    // The glue names of the positions.
    fn position_names(&self, names: &mut [usize])
        ensures { names.new ≡ tabulate (length names.old) (name_number_at (first_at self.now.rows.now (rows_of group.Position self.now.rows.now))) }
    {
        let mut places = [0usize; POSITIONS];
        let positions = Chosen::of(
            self.rows,
            Group::Position,
            &mut places[..self.counts.positions],
        );
        positions.positions(names);
    }

    // The entries, and dG and dS of each.
    fn entries(&self, numbers: &mut [usize], energies: &mut [f64])
        ensures numbers { numbers.new ≡ tabulate (length numbers.old) (entry_number_at self.now.rows.now (rows_of group.Entry self.now.rows.now)) }
        ensures energies { energies.new ≡ tabulate (length energies.old) (energy_at self.now.rows.now (rows_of group.Entry self.now.rows.now)) }
    {
        let mut places = [0usize; MOST_ENTRIES];
        let entries = Chosen::of(self.rows, Group::Entry, &mut places[..self.counts.entries]);
        entries.entries(numbers);
        entries.energies(energies);
    }

    // Whose glues the quencher and the reporter copy.
    pub(crate) fn copies(&self) -> Copies
        ensures { result ≡ copies_said self.now.text.now self.now.rows.now }
    {
        let mut places = [0usize; MOST_STRANDS];
        let strands = Chosen::of(self.rows, Group::Strand, &mut places[..self.counts.strands]);
        Copies {
            quencher: copied(self.text, &strands, Group::Quencher),
            reporter: copied(self.text, &strands, Group::Reporter),
        }
    }

    // The glues of strands and scaffold, and the glue tables, into lent slices, in an ordinary build or the archive's. A refusal says its place.
    #[tactic(auto, unfolding(crate::specs::Said::params_said, crate::specs::Said::strand_names, crate::specs::Said::position_names, crate::specs::Said::entry_numbers, crate::specs::Said::entry_energies))]
    pub fn build(
        &self,
        which: Build,
        strand_glues: &mut [u8],
        scaffold_glues: &mut [u8],
        dg: &mut [f64],
        ds: &mut [f64],
    ) -> Result<(), Refused>
        ensures reply { result ≡ build_reply which (params_said self.now.text.now self.now.rows.now) (lent_of strand_glues.old scaffold_glues.old dg.old ds.old) }
        ensures written { outcome_of (reply_number result) strand_glues.new scaffold_glues.new dg.new ds.new ≡ from_params which (params_said self.now.text.now self.now.rows.now) (lent_of strand_glues.old scaffold_glues.old dg.old ds.old) }
    {
        let counts = self.counts;
        let mut strands = [0usize; 9 * MOST_STRANDS];
        let strands = &mut strands[..9 * counts.strands];
        self.strand_names(strands);
        let mut scaffold = [0usize; 3 * POSITIONS];
        let scaffold = &mut scaffold[..3 * counts.positions];
        self.position_names(scaffold);
        let mut entries = [0usize; 8 * MOST_ENTRIES];
        let entries = &mut entries[..8 * counts.entries];
        let mut energies = [0.0; 2 * MOST_ENTRIES];
        let energies = &mut energies[..2 * counts.entries];
        self.entries(entries, energies);
        let parameters = LentParameters {
            text: self.text,
            users: counts.strands,
            strands,
            scaffold,
            entries,
            energies,
            penalty: junction_penalty(self.rows),
            copies: self.copies(),
        };
        from_params_with_place(which, &parameters, strand_glues, scaffold_glues, dg, ds)
    }

    // The ambient as it is given, or at the temperature that is.
    #[tactic(auto, unfolding(crate::specs::Said::ambient_said))]
    pub fn ambient(&self) -> Result<Ambient, Refusal>
        ensures { ambient_figures result ≡ ambient_said self.now.rows.now }
    {
        match ambient_of(self.rows) {
            Some(once::Ambient::At(temperature)) => units::ambient_at(temperature),
            Some(once::Ambient::Given(ambient)) => Ok(ambient),
            None => Err(Refusal::OutOfRange),
        }
    }

    // The potentials of strand 0, the user strands, the quencher and the reporter, as many as there is room for.
    #[tactic(auto, unfolding(crate::specs::Said::potentials_said))]
    pub fn potentials(&self, out: &mut [f64])
        ensures { out.new ≡ potentials_said (length out.old) self.now.rows.now }
    {
        let mut places = [0usize; MOST_STRANDS];
        let strands = Chosen::of(self.rows, Group::Strand, &mut places[..self.counts.strands]);
        strands.potentials(out);
    }

    // A mark for each position, as many as there is room for.
    #[tactic(auto, unfolding(crate::specs::Said::marks_said))]
    pub fn marks(&self, marks: &mut [u8])
        ensures { marks.new ≡ marks_said (length marks.old) self.now.rows.now }
    {
        let mut places = [0usize; POSITIONS];
        let positions = Chosen::of(
            self.rows,
            Group::Position,
            &mut places[..self.counts.positions],
        );
        positions.blocks(marks);
    }

    // Whether the scaffold is a ring.
    pub fn is_ring(&self) -> bool
        ensures { result ≡ ring_said self.now.rows.now }
    {
        self.first_of(Group::Ring).is_some()
    }

    // The glue of each position, as many as there is room for.
    #[tactic(auto, unfolding(crate::specs::Said::glues_shown))]
    pub fn glues(&self, glues: &mut [Word])
        ensures { glues.new ≡ glues_shown (length glues.old) self.now.rows.now }
    {
        let mut places = [0usize; POSITIONS];
        let positions = Chosen::of(
            self.rows,
            Group::Position,
            &mut places[..self.counts.positions],
        );
        positions.shown(glues);
    }

    // The names of the user strands, as many as there is room for.
    #[tactic(auto, unfolding(crate::specs::Said::strands_shown))]
    pub fn strands(&self, names: &mut [Word])
        ensures { names.new ≡ strands_shown (length names.old) self.now.rows.now }
    {
        let mut places = [0usize; MOST_STRANDS];
        let strands = Chosen::of(self.rows, Group::Strand, &mut places[..self.counts.strands]);
        strands.shown(names);
    }
}
