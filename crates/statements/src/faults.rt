// The lines of a text that can't be read.
ghost use Rattle.std.specs.Prelude.{◌≡◌, take, min, length};
ghost use Rattle.std.proofs.lemmas.List.Edits.{sets};
ghost use Rattle.statements.specs.Faults.{faults_of};

use crate::statement::{Fault, Reason, statement_of};
use crate::words::{Lines, Word};

// A line that can't be read: its number, from 1, and what is wrong with it.
#[derive(Clone, Copy)]
pub struct LineFault {
    pub line: usize,
    pub fault: Fault,
}

impl LineFault {
    // What a lent slice holds before it is filled.
    pub fn blank() -> Self
        ensures { result.line ≡ 0 }
    {
        LineFault {
            line: 0,
            fault: Fault {
                word: Word::default(),
                reason: Reason::NotAName,
            },
        }
    }
}

// The faults of the lines in their order, as many as there is room for. Answers how many they are.
pub fn line_faults(text: &[u8], room: &mut [LineFault]) -> usize
    ensures count { result ≡ min (length room.old) (length (faults_of text.now)) }
    ensures room { room.new ≡ sets room.old 0 (take (length room.old) (faults_of text.now)) }
{
    let mut next = 0;
    for line in Lines::of(text) {
        if let Err(fault) = statement_of(&line) {
            if next == room.len() {
                return next;
            }
            room[next] = LineFault {
                line: line.number,
                fault,
            };
            next += 1;
        }
    }
    next
}
