// A function for each kind of line. It is given the words after the kind's own, reads the question, makes the call, and gives `Some`
// where the rest of the line says what the call answered.
ghost use Rattle.std.specs.Prelude.{◌≡◌, OnSome};
ghost use Rattle.replay.specs.Kinds.{letters as letters·of, SequenceLine, PairLine, LoopLine, StrengthLine, Strength2Line, AmbientLine, NameLine};

use crate::numbers::{decimal, hex, whole};
use crate::parts::split_at_first;
use crate::says::says;
use doubles::{bits, double};

// The sequence that a word stands for; an empty one is written as `-`.
pub(crate) fn letters(word: &[u8]) -> &[u8]
    ensures { result.now ≡ letters·of word.now }
{
    // A `match` on `b"-"` tells a proof no more than the length.
    if word == b"-".as_slice() {
        return &[];
    }
    word
}

// `S`: one sequence.
pub(crate) fn sequence(words: &[u8]) -> Option<()>
    ensures { OnSome result (SequenceLine words.now) }
{
    let (first, answer) = split_at_first(words, b' ');
    let s = letters(first);
    let reply = exports::mj_sequence_reply(s);
    let figures = [exports::mj_sequence_dg(s), exports::mj_sequence_ds(s)];
    says(answer, reply, &figures)
}

// `A B`: two sequences.
pub(crate) fn pair(words: &[u8]) -> Option<()>
    ensures { OnSome result (PairLine words.now) }
{
    let (first, rest) = split_at_first(words, b' ');
    let (second, answer) = split_at_first(rest, b' ');
    let a = letters(first);
    let b = letters(second);
    let reply = exports::mj_pair_reply(a, b);
    let figures = [exports::mj_pair_dg(a, b), exports::mj_pair_ds(a, b)];
    says(answer, reply, &figures)
}

// `LENGTH KIND`: a loop.
pub(crate) fn loop_energy(words: &[u8]) -> Option<()>
    ensures { OnSome result (LoopLine words.now) }
{
    let (first, rest) = split_at_first(words, b' ');
    let (second, answer) = split_at_first(rest, b' ');
    let length = decimal(first)?;
    let kind = whole(second)?;
    let mut dg = 0.0;
    let reply = exports::mj_loop_penalty(length as usize, kind, &mut dg);
    let figures = [bits(dg)];
    says(answer, reply, &figures)
}

// `E S`: the strength of one sequence at an excess.
pub(crate) fn strength(words: &[u8]) -> Option<()>
    ensures { OnSome result (StrengthLine words.now) }
{
    let (first, rest) = split_at_first(words, b' ');
    let (second, answer) = split_at_first(rest, b' ');
    let read = hex(first)?;
    let excess = double(read);
    let s = letters(second);
    let mut strength = 0.0;
    let reply = exports::mj_sequence_strength(s, excess, &mut strength);
    let figures = [bits(strength)];
    says(answer, reply, &figures)
}

// `E A B`: the strength of two sequences at an excess.
pub(crate) fn strength2(words: &[u8]) -> Option<()>
    ensures { OnSome result (Strength2Line words.now) }
{
    let (first, rest) = split_at_first(words, b' ');
    let (second, rest) = split_at_first(rest, b' ');
    let (third, answer) = split_at_first(rest, b' ');
    let read = hex(first)?;
    let excess = double(read);
    let a = letters(second);
    let b = letters(third);
    let mut strength = 0.0;
    let reply = exports::mj_pair_strength(a, b, excess, &mut strength);
    let figures = [bits(strength)];
    says(answer, reply, &figures)
}

// `KELVIN`: the ambient.
pub(crate) fn ambient(words: &[u8]) -> Option<()>
    ensures { OnSome result (AmbientLine words.now) }
{
    let (first, answer) = split_at_first(words, b' ');
    let read = hex(first)?;
    let kelvin = double(read);
    let mut rt = 0.0;
    let mut strand_excess = 0.0;
    let mut scaffold_excess = 0.0;
    let reply = exports::mj_ambient(kelvin, &mut rt, &mut strand_excess, &mut scaffold_excess);
    let figures = [bits(rt), bits(strand_excess), bits(scaffold_excess)];
    says(answer, reply, &figures)
}

// `NAME`: its base.
pub(crate) fn name(words: &[u8]) -> Option<()>
    ensures { OnSome result (NameLine words.now) }
{
    let (first, answer) = split_at_first(words, b' ');
    let s = letters(first);
    let n = s.len();
    let mut start: u64 = 0;
    let mut size: u64 = 0;
    let mut is_base: u64 = 0;
    let reply = exports::names::mj_name(s, 0, n, &mut start, &mut size, &mut is_base);
    let figures = [size, is_base];
    says(answer, reply, &figures)
}
