// Files that hold no plain text, told by what they are.
ghost use Rattle.std.specs.Prelude.{◌≡◌};
ghost use Rattle.settle.specs.Encoding.{returns_alone, is_utf16, encoding_fault, explained};
ghost use Rattle.settle.specs.Told.{unsettled};

use crate::reads::first;
use crate::settle::{Unsettled, unreadable};
use answers::Found;
use answers::reasons::{FileFault, Why};

// Carriage returns stand in the text, and no line feed.
fn returns_alone(text: &[u8]) -> bool
    ensures { result ≡ returns_alone text.now }
{
    text.contains(&b'\r') && !text.contains(&b'\n')
}

// What stands at the front of UTF-8 and of UTF-16 with a mark of byte order, in one order and the other.
const MARK: &[u8] = b"\xef\xbb\xbf";

const LOW_FIRST: &[u8] = b"\xff\xfe";

const HIGH_FIRST: &[u8] = b"\xfe\xff";

// Whether the text is UTF-16.
fn is_utf16(text: &[u8]) -> bool
    ensures { result ≡ is_utf16 text.now }
{
    let front = first(text, 2);
    front.contains(&0) || front == LOW_FIRST || front == HIGH_FIRST
}

// What the text is, where it is not as a design file is written.
#[tactic(auto, unfolding(crate::specs::Encoding::encoding_fault))]
fn encoding_fault(text: &[u8]) -> Option<FileFault>
    ensures { result ≡ encoding_fault text.now }
{
    if first(text, 3) == MARK {
        return Some(FileFault::ByteOrderMark);
    }
    if is_utf16(text) {
        return Some(FileFault::Utf16);
    }
    if returns_alone(text) {
        return Some(FileFault::ReturnsAlone);
    }
    None
}

// Why a text is not settled. Where it can't be read, what it is goes before the first word at fault.
#[tactic(auto, unfolding(crate::specs::Encoding::explained))]
pub(crate) fn explained(text: &[u8], ended: Unsettled) -> Unsettled
    ensures { unsettled result.refusal result.found ≡ explained text.now (unsettled ended.refusal ended.found) }
{
    match ended.refusal {
        Some(_) => ended,
        None => match encoding_fault(text) {
            Some(fault) => unreadable(Found::nowhere(Why::File(fault))),
            None => ended,
        },
    }
}
