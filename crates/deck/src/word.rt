// A word of 32 bits, split into its kind and its payload.
ghost use Rattle.std.specs.Prelude.{◌≡◌, ◌<◌, ◌^◌};
ghost use Rattle.deck.specs.Word.{kind_of, payload_of, word_of};

// How many payloads there are: the low 28 bits.
const PAYLOADS: u32 = 0x1000_0000;

// A kind, the top 4 bits, and a payload, the low 28. The kind is a number: a stored word may have any of 16, and forms know four of them.
#[derive(Clone, Copy)]
pub struct Word {
    pub kind: u32,
    pub payload: u32,
}

impl Word {
    // The word that 32 bits hold.
    pub fn of(bits: u32) -> Self
        ensures { (result.kind ≡ kind_of bits) × (result.payload ≡ payload_of bits) }
    {
        Word {
            kind: bits / PAYLOADS,
            payload: bits % PAYLOADS,
        }
    }

    // The 32 bits that hold the word.
    pub(crate) fn bits(self) -> u32
        requires { (self.kind < 16) × (self.payload < 2 ^ 28) }
        ensures { result ≡ word_of self.kind self.payload }
    {
        self.kind * PAYLOADS + self.payload
    }
}
