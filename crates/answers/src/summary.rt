// What is printed of a settled design, for people and as JSON.
ghost use Rattle.std.specs.Prelude.{◌≡◌, length, OnOk};
ghost use Rattle.std.specs.Io.KnownBytes.{Appends};
ghost use Rattle.answers.specs.Text.{count_text, ring_text, json_ring_text, comma, number_piece, numbers_text, word_piece, words_text, json_counts_text, json_bits_text, json_energy_text, number_of_text, states_text, counts_text, unit_text, energy_text, deck_gap, deck_piece, deck_text};
ghost use Rattle.answers.specs.Names.{occupant_of};
ghost use Rattle.answers.specs.Told.{Draws, json_name, name_piece, names_text, settled_text, json_settled};

use crate::SettledDesign;
use crate::names::Occupant;
use crate::print::{Printer, Style};
use doubles::bits;
use std::io;
use std::io::Write;

// What stands before a word of a deck, by its place: a line has eight.
fn deck_gap(i: usize) -> &'static str
    ensures { result.now ≡ deck_gap i }
{
    if 0 < i && i % 8 == 0 { "\n      " } else { "" }
}

// What stands before an element of a list, by its place.
pub(crate) fn comma(i: usize) -> &'static str
    ensures { result.now ≡ comma i }
{
    if 0 < i { "," } else { "" }
}

// How many states a design has.
pub(crate) fn states_of(design: &SettledDesign) -> Option<usize>
    ensures { result ≡ design.now.states }
{
    match design.states {
        Some(n) => Some(n as usize),
        None => None,
    }
}

impl<'a, W: Write> Printer<'a, W> {
    // How many there are of something, in the singular where it is one.
    fn print_number_of(&mut self, n: usize, one: &str, more: &str) -> io::Result<()>
        ensures { OnOk result (Appends (W.contents self.old.out.now) (W.contents self.new.out.now) (number_of_text n one.now more.now)) }
    {
        let what = if n == 1 { one } else { more };
        write!(self.out, "{n} {what}")
    }

    // The number of states.
    fn print_states(&mut self, states: Option<u64>) -> io::Result<()>
        ensures { OnOk result (Appends (W.contents self.old.out.now) (W.contents self.new.out.now) (states_text states)) }
    {
        match states {
            Some(n) => {
                write!(self.out, "  ")?;
                self.print_number_of(n as usize, "state\n", "states\n")
            }
            None => writeln!(self.out, "  more than 1048576 states"),
        }
    }

    // A word of a deck by its place, eight on a line.
    fn print_deck_word(&mut self, i: usize, word: u32) -> io::Result<()>
        ensures { OnOk result (Appends (W.contents self.old.out.now) (W.contents self.new.out.now) (deck_piece i word)) }
    {
        let gap = deck_gap(i);
        write!(self.out, "{gap} {word:08x}")
    }

    // The words of a deck.
    #[tactic(auto, unfolding(crate::specs::Text::deck_text))]
    fn print_deck(&mut self, deck: &[u32]) -> io::Result<()>
        ensures { OnOk result (Appends (W.contents self.old.out.now) (W.contents self.new.out.now) (deck_text deck.now)) }
    {
        write!(self.out, "  deck")?;
        for (i, word) in deck.iter().enumerate() {
            self.print_deck_word(i, *word)?;
        }
        writeln!(self.out)
    }

    // How many positions, strands, energies and states there are.
    fn print_counts(&mut self, design: &SettledDesign) -> io::Result<()>
        ensures { OnOk result (Appends (W.contents self.old.out.now) (W.contents self.new.out.now) (counts_text (length design.now.configuration.now) (length design.now.strand_names.now) design.now.entries design.now.states)) }
    {
        write!(self.out, "\n  ")?;
        self.print_number_of(design.configuration.len(), "position, ", "positions, ")?;
        self.print_number_of(design.strand_names.len(), "strand, ", "strands, ")?;
        self.print_number_of(design.entries, "energy\n", "energies\n")?;
        self.print_states(design.states)
    }

    // The unit of an energy, and its bits.
    fn print_unit(&mut self, energy: f64) -> io::Result<()>
        ensures { OnOk result (Appends (W.contents self.old.out.now) (W.contents self.new.out.now) (unit_text energy)) }
    {
        let bits = bits(energy);
        writeln!(self.out, " kcal/mol, bits {bits:016x}")
    }

    // An energy, and its bits.
    fn print_energy(&mut self, energy: f64) -> io::Result<()>
        ensures { OnOk result (Appends (W.contents self.old.out.now) (W.contents self.new.out.now) (energy_text energy)) }
    {
        write!(self.out, "  energy ")?;
        self.print_fixed(energy)?;
        self.print_unit(energy)
    }

    // Of a ring, that its last position stands beside its first.
    fn print_ring(&mut self, ring: bool, last: usize) -> io::Result<()>
        ensures { OnOk result (Appends (W.contents self.old.out.now) (W.contents self.new.out.now) (ring_text ring last)) }
    {
        if ring {
            return writeln!(self.out, "  ring: position {last} stands beside position 1");
        }
        write!(self.out, "")
    }

    // For people.
    #[tactic(auto, unfolding(crate::specs::Told::settled_text))]
    pub(crate) fn print_settled(&mut self, path: &[u8], design: &SettledDesign) -> io::Result<()>
        ensures { OnOk result (Draws (W.contents self.old.out.now) (W.contents self.new.out.now) (settled_text path.now design.now)) }
    {
        self.print_bytes(Style::People, path)?;
        self.print_counts(design)?;
        self.draw(design)?;
        self.print_ring(design.ring, design.configuration.len())?;
        self.print_energy(design.energy)?;
        self.print_deck(design.deck)
    }

    // A number, or null where there is none.
    pub(crate) fn print_count_or_null(&mut self, n: Option<usize>) -> io::Result<()>
        ensures { OnOk result (Appends (W.contents self.old.out.now) (W.contents self.new.out.now) (count_text n)) }
    {
        match n {
            Some(n) => write!(self.out, "{n}"),
            None => write!(self.out, "null"),
        }
    }

    // A number of a list by its place.
    fn print_number(&mut self, i: usize, number: u8) -> io::Result<()>
        ensures { OnOk result (Appends (W.contents self.old.out.now) (W.contents self.new.out.now) (number_piece i number)) }
    {
        let comma = comma(i);
        write!(self.out, "{comma}{number}")
    }

    // A field that holds a list of numbers.
    #[tactic(auto, unfolding(crate::specs::Text::numbers_text))]
    fn print_numbers(&mut self, name: &str, numbers: &[u8]) -> io::Result<()>
        ensures { OnOk result (Appends (W.contents self.old.out.now) (W.contents self.new.out.now) (numbers_text name.now numbers.now)) }
    {
        write!(self.out, ",\"{name}\":[")?;
        for (i, number) in numbers.iter().enumerate() {
            self.print_number(i, *number)?;
        }
        write!(self.out, "]")
    }

    // A word of a list by its place.
    fn print_word_in(&mut self, i: usize, word: u32) -> io::Result<()>
        ensures { OnOk result (Appends (W.contents self.old.out.now) (W.contents self.new.out.now) (word_piece i word)) }
    {
        let comma = comma(i);
        write!(self.out, "{comma}\"{word:08x}\"")
    }

    // The field that holds a deck.
    #[tactic(auto, unfolding(crate::specs::Text::words_text))]
    fn print_words(&mut self, words: &[u32]) -> io::Result<()>
        ensures { OnOk result (Appends (W.contents self.old.out.now) (W.contents self.new.out.now) (words_text words.now)) }
    {
        write!(self.out, ",\"deck\":[")?;
        for (i, word) in words.iter().enumerate() {
            self.print_word_in(i, *word)?;
        }
        write!(self.out, "]")
    }

    // The name of who has this number in a configuration.
    fn print_json_name(&mut self, design: &SettledDesign, number: u8) -> io::Result<()>
        ensures { OnOk result (Appends (W.contents self.old.out.now) (W.contents self.new.out.now) (json_name design.now (occupant_of (length design.now.strand_names.now) number))) }
    {
        match design.occupant_of(number) {
            Occupant::Nobody => write!(self.out, "null"),
            occupant => self.print_json_text(design.name_of(occupant)),
        }
    }

    // The same in a list by its place.
    fn print_name_in(&mut self, design: &SettledDesign, i: usize, number: u8) -> io::Result<()>
        ensures { OnOk result (Appends (W.contents self.old.out.now) (W.contents self.new.out.now) (name_piece design.now i number)) }
    {
        let comma = comma(i);
        write!(self.out, "{comma}")?;
        self.print_json_name(design, number)
    }

    // The field that holds the names of who sits where.
    #[tactic(auto, unfolding(crate::specs::Told::names_text))]
    fn print_names(&mut self, design: &SettledDesign) -> io::Result<()>
        ensures { OnOk result (Appends (W.contents self.old.out.now) (W.contents self.new.out.now) (names_text design.now)) }
    {
        write!(self.out, ",\"names\":[")?;
        for (i, number) in design.configuration.iter().enumerate() {
            self.print_name_in(design, i, *number)?;
        }
        write!(self.out, "]")
    }

    // How many positions, strands, energies and states there are, as fields.
    fn print_json_counts(&mut self, design: &SettledDesign) -> io::Result<()>
        ensures { OnOk result (Appends (W.contents self.old.out.now) (W.contents self.new.out.now) (json_counts_text (length design.now.configuration.now) (length design.now.strand_names.now) design.now.entries design.now.states)) }
    {
        let positions = design.configuration.len();
        let strands = design.strand_names.len();
        let energies = design.entries;
        write!(
            self.out,
            "0,\"positions\":{positions},\"strands\":{strands},\"energies\":{energies},\"states\":"
        )?;
        self.print_count_or_null(states_of(design))
    }

    // Whether the scaffold is a ring, as a field.
    fn print_json_ring(&mut self, ring: bool) -> io::Result<()>
        ensures { OnOk result (Appends (W.contents self.old.out.now) (W.contents self.new.out.now) (json_ring_text ring)) }
    {
        let word = if ring { "true" } else { "false" };
        write!(self.out, ",\"ring\":{word}")
    }

    // An energy's bits, as a field.
    fn print_json_bits(&mut self, energy: f64) -> io::Result<()>
        ensures { OnOk result (Appends (W.contents self.old.out.now) (W.contents self.new.out.now) (json_bits_text energy)) }
    {
        let bits = bits(energy);
        write!(self.out, ",\"bits\":\"{bits:016x}\"")
    }

    // An energy and its bits, as fields.
    #[tactic(auto, unfolding(crate::specs::Text::json_energy_text))]
    fn print_json_energy(&mut self, energy: f64) -> io::Result<()>
        ensures { OnOk result (Appends (W.contents self.old.out.now) (W.contents self.new.out.now) (json_energy_text energy)) }
    {
        write!(self.out, ",\"energy\":")?;
        self.print_fixed(energy)?;
        self.print_json_bits(energy)
    }

    // As one object, on a line of its own.
    #[tactic(auto, unfolding(crate::specs::Told::json_settled))]
    pub(crate) fn print_json_settled(
        &mut self,
        path: &[u8],
        design: &SettledDesign,
    ) -> io::Result<()>
        ensures { OnOk result (Appends (W.contents self.old.out.now) (W.contents self.new.out.now) (json_settled path.now design.now)) }
    {
        self.print_json_head(path)?;
        self.print_json_counts(design)?;
        self.print_json_ring(design.ring)?;
        self.print_numbers("configuration", design.configuration)?;
        self.print_numbers("blocked", design.marks)?;
        self.print_names(design)?;
        self.print_json_energy(design.energy)?;
        self.print_words(design.deck)?;
        writeln!(self.out, "}}")
    }
}
