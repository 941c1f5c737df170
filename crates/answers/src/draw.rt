// The settled configuration as people see it: the strands over the positions on which they sit, in as many stretches as lines are wide.
ghost use Rattle.std.specs.Prelude.{◌≡◌, ◌<◌, OnOk, IfOk, length};
ghost use Rattle.answers.specs.Text.{Grows};
ghost use Rattle.answers.specs.Names.{shown};

use crate::SettledDesign;
use crate::print::{Printer, Style};
use crate::shown::width;
use std::io;
use std::io::Write;

// What a line of a stretch holds beside its head.
const ROOM: usize = 66;

// The two lines of a stretch.
#[derive(Clone, Copy)]
enum Line {
    Strands,
    Scaffold,
}

// The head of a line.
fn head(line: Line) -> &'static str {
    match line {
        Line::Strands => "    strands   ",
        Line::Scaffold => "    scaffold  ",
    }
}

impl SettledDesign<'_> {
    // What a line shows of position i: the name of who sits there, or its glue.
    fn shown(&self, line: Line, i: usize) -> &[u8]
        ensures { result.now ≡ shown line self.now i }
    {
        match line {
            Line::Strands => self.name_of(self.occupant_at(i)),
            Line::Scaffold => self.glue_at(i),
        }
    }

    // The width of a column, which holds a strand and the position under it.
    fn column(&self, i: usize) -> usize {
        width(self.shown(Line::Strands, i)).max(width(self.shown(Line::Scaffold, i)))
    }

    // How many blanks follow position i on a line that ends before position `end`: none follow the last.
    fn gap(&self, line: Line, i: usize, end: usize) -> usize {
        if end <= i.wrapping_add(1) {
            return 0;
        }
        let missing = self.column(i).saturating_sub(width(self.shown(line, i)));
        missing.wrapping_add(2)
    }

    // The position after the last that has room on a line which begins with position `from`.
    fn stretch_end(&self, from: usize) -> usize
        ensures { from < length self.now.configuration.now → from < result }
    {
        let mut used = 0usize;
        // By number: a column is asked for by its position.
        for i in from..self.configuration.len() {
            used = used.wrapping_add(self.column(i)).wrapping_add(2);
            if ROOM < used && from < i {
                return i;
            }
        }
        self.configuration.len()
    }
}

impl<W: Write> Printer<'_, W> {
    // A line of the stretch from one position to another. A gap of two follows each column but the last.
    fn print_line(
        &mut self,
        design: &SettledDesign,
        line: Line,
        from: usize,
        end: usize,
    ) -> io::Result<()>
        ensures { OnOk result (Grows (W.contents self.old.out.now) (W.contents self.new.out.now)) }
    {
        let head = head(line);
        write!(self.out, "{head}")?;
        // By number: a column is asked for by its position.
        for i in from..end {
            let word = design.shown(line, i);
            self.print_bytes(Style::People, word)?;
            self.print_blanks(design.gap(line, i, end))?;
        }
        writeln!(self.out)
    }

    // The head of a stretch, by its first and last position.
    fn print_range(&mut self, first: usize, last: usize) -> io::Result<()>
        ensures { OnOk result (Grows (W.contents self.old.out.now) (W.contents self.new.out.now)) }
    {
        if first == last {
            writeln!(self.out, "  position {last}")
        } else {
            writeln!(self.out, "  positions {first} to {last}")
        }
    }

    // One stretch, and where the next begins.
    fn print_stretch(&mut self, design: &SettledDesign, from: usize) -> io::Result<usize>
        ensures goes_on { IfOk result (λ end. from < length design.now.configuration.now → from < end) }
        ensures grows { OnOk result (Grows (W.contents self.old.out.now) (W.contents self.new.out.now)) }
    {
        let end = design.stretch_end(from);
        self.print_range(from.wrapping_add(1), end)?;
        self.print_line(design, Line::Strands, from, end)?;
        self.print_line(design, Line::Scaffold, from, end)?;
        Ok(end)
    }

    // All stretches in turn.
    pub(crate) fn draw(&mut self, design: &SettledDesign) -> io::Result<()>
        ensures { OnOk result (Grows (W.contents self.old.out.now) (W.contents self.new.out.now)) }
    {
        let mut from = 0;
        // Where a stretch begins, the one before it tells when it is printed: an iterator would lay each out twice, or hold the printer.
        while from < design.configuration.len() {
            from = self.print_stretch(design, from)?;
        }
        Ok(())
    }
}
