// What is printed of a file.
ghost use Rattle.std.specs.Prelude.{◌≡◌, OnOk, IfOk};
ghost use Rattle.settle.specs.Told.{settled_file, told};
ghost use Rattle.settle.specs.Printed.{Printed, settles};

use crate::reads::first;
use crate::settle::{SettledFile, Unsettled};
use answers::print::{Printer, Style};
use answers::reasons::Why;
use answers::{DesignFile, Found, SettledDesign};
use statements::faults::{LineFault, line_faults};
use std::io;
use std::io::Write;

// How many lines at fault are told of a file.
const LINES_TOLD: usize = 10;

// The lines at fault but the first, where that is what was found.
fn other_faults<'a>(text: &[u8], found: Found, room: &'a mut [LineFault]) -> &'a [LineFault] {
    match found.why {
        Why::Line(_) => {
            let count = line_faults(text, room);
            room.get(1..count).unwrap_or(&[])
        }
        _ => &[],
    }
}

// Prints what became of a file. Answers whether its configuration was settled.
pub(crate) fn report<W: Write>(
    printer: &mut Printer<'_, W>,
    style: Style,
    file: DesignFile,
    outcome: Result<SettledFile, Unsettled>,
) -> io::Result<bool>
    ensures printed { OnOk result (Printed (W.contents printer.old.out.now) (W.contents printer.new.out.now) style file.entry.path.now file.entry.text.now (told outcome)) }
    ensures answer { IfOk result (λ is_settled. is_settled ≡ settles (told outcome)) }
{
    match outcome {
        Ok(design) => {
            printer.settled(style, file.path, &design.shown(file.text))?;
            Ok(true)
        }
        Err(Unsettled { found, refusal }) => {
            match refusal {
                Some(refusal) => printer.refused(style, file, refusal, found)?,
                None => {
                    let mut faults = [LineFault::blank(); LINES_TOLD];
                    let others = other_faults(file.text, found, &mut faults);
                    printer.unreadable(style, file, found, others)?;
                }
            }
            Ok(false)
        }
    }
}

impl SettledFile {
    // What the printer is handed of a settled design.
    fn shown<'a>(&'a self, text: &'a [u8]) -> SettledDesign<'a>
        ensures text { result.text.now ≡ text.now }
        ensures glues { result.glues.now ≡ (settled_file self.now).glues }
        ensures strand_names { result.strand_names.now ≡ (settled_file self.now).strand_names }
        ensures entries { result.entries ≡ self.now.counts.entries }
        ensures states { result.states ≡ (settled_file self.now).states }
        ensures configuration { result.configuration.now ≡ (settled_file self.now).configuration }
        ensures marks { result.marks.now ≡ (settled_file self.now).marks }
        ensures ring { result.ring ≡ (settled_file self.now).ring }
        ensures energy { result.energy ≡ (settled_file self.now).energy }
        ensures deck { result.deck.now ≡ (settled_file self.now).deck }
    {
        let positions = self.counts.positions;
        SettledDesign {
            text,
            glues: first(&self.glues, positions),
            strand_names: first(&self.strand_names, self.counts.strands),
            entries: self.counts.entries,
            states: self.states,
            configuration: first(&self.configuration, positions),
            marks: first(&self.marks, positions),
            ring: self.ring,
            energy: self.energy.0,
            deck: first(&self.deck.words, self.deck.count),
        }
    }
}
