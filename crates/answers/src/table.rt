// A row of a table for each file, with tabs between its fields. No name has a tab in it as it is shown.
ghost use Rattle.std.specs.Prelude.{◌≡◌, OnOk};
ghost use Rattle.std.specs.Io.KnownBytes.{Appends};
ghost use Rattle.answers.specs.Table.{heads_text, number_field, bits_field, word_field, site_gap, site_piece, sites_text, settled_row, unsettled_row};

use crate::print::{Printer, Style};
use crate::reads::part;
use crate::summary::states_of;
use crate::{DesignFile, SettledDesign, Spot};
use doubles::bits;
use statements::words::Word;
use std::io;
use std::io::Write;

// What stands before an entry of a configuration, by its place.
fn site_gap(i: usize) -> &'static str
    ensures { result.now ≡ site_gap i }
{
    if 0 < i { " " } else { "" }
}

impl<W: Write> Printer<'_, W> {
    // The line of heads.
    pub fn heads(&mut self) -> io::Result<()>
        ensures { OnOk result (Appends (W.contents self.old.out.now) (W.contents self.new.out.now) heads_text) }
    {
        write!(
            self.out,
            "file\treply\tenergy\tbits\tstates\tconfiguration\tline\tword\treason\n"
        )
    }

    // A number, or nothing.
    fn print_number_field(&mut self, n: Option<usize>) -> io::Result<()>
        ensures { OnOk result (Appends (W.contents self.old.out.now) (W.contents self.new.out.now) (number_field n)) }
    {
        match n {
            Some(n) => write!(self.out, "{n}"),
            None => write!(self.out, ""),
        }
    }

    // The bits of an energy, between tabs.
    fn print_bits_field(&mut self, energy: f64) -> io::Result<()>
        ensures { OnOk result (Appends (W.contents self.old.out.now) (W.contents self.new.out.now) (bits_field energy)) }
    {
        let bits = bits(energy);
        write!(self.out, "\t{bits:016x}\t")
    }

    // A word at fault, or nothing.
    fn print_word_field(&mut self, text: &[u8], word: Option<Word>) -> io::Result<()>
        ensures { OnOk result (Appends (W.contents self.old.out.now) (W.contents self.new.out.now) (word_field text.now word)) }
    {
        match word {
            Some(word) => self.print_word(Style::Tsv, part(text, word)),
            None => write!(self.out, ""),
        }
    }

    // An entry of a configuration by its place.
    fn print_site(&mut self, i: usize, number: u8) -> io::Result<()>
        ensures { OnOk result (Appends (W.contents self.old.out.now) (W.contents self.new.out.now) (site_piece i number)) }
    {
        let gap = site_gap(i);
        write!(self.out, "{gap}{number}")
    }

    // A configuration.
    #[tactic(auto, unfolding(crate::specs::Table::sites_text))]
    fn print_sites(&mut self, configuration: &[u8]) -> io::Result<()>
        ensures { OnOk result (Appends (W.contents self.old.out.now) (W.contents self.new.out.now) (sites_text configuration.now)) }
    {
        for (i, number) in configuration.iter().enumerate() {
            self.print_site(i, *number)?;
        }
        Ok(())
    }

    // Of a settled design.
    #[tactic(auto, unfolding(crate::specs::Table::settled_row))]
    pub(crate) fn print_settled_row(
        &mut self,
        path: &[u8],
        design: &SettledDesign,
    ) -> io::Result<()>
        ensures { OnOk result (Appends (W.contents self.old.out.now) (W.contents self.new.out.now) (settled_row path.now design.now)) }
    {
        self.print_bytes(Style::Tsv, path)?;
        write!(self.out, "\t0\t")?;
        self.print_fixed(design.energy)?;
        self.print_bits_field(design.energy)?;
        self.print_number_field(states_of(design))?;
        write!(self.out, "\t")?;
        self.print_sites(design.configuration)?;
        writeln!(self.out, "\t\t\t")
    }

    // Of a file that is not settled, by the number of its refusal, where there is one.
    #[tactic(auto, unfolding(crate::specs::Table::unsettled_row))]
    pub(crate) fn print_unsettled_row(
        &mut self,
        file: DesignFile,
        reply: Option<usize>,
        spot: Spot,
        reason: &str,
    ) -> io::Result<()>
        ensures { OnOk result (Appends (W.contents self.old.out.now) (W.contents self.new.out.now) (unsettled_row file.entry.path.now file.entry.text.now reply spot reason.now)) }
    {
        self.print_bytes(Style::Tsv, file.path)?;
        write!(self.out, "\t")?;
        self.print_number_field(reply)?;
        write!(self.out, "\t\t\t\t\t")?;
        self.print_number_field(spot.line)?;
        write!(self.out, "\t")?;
        self.print_word_field(file.text, spot.word)?;
        writeln!(self.out, "\t{reason}")
    }
}
