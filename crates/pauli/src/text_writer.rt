// Text, written into a destination from a place on, as far as the destination reaches. The place after it is told also where the
// destination ends before: the same code counts and writes, and asks nothing of a caller. The largest place stands for all beyond.
ghost use Rattle.std.specs.Prelude.{◌≡◌, [], ◌∷◌};
ghost use Rattle.pauli.specs.SparseText.{decimal};
ghost use Rattle.pauli.specs.TextWriters.{Put};

use crate::rows::copy;

// A destination, and the place where the next text goes.
#[derive(Drop)]
pub struct TextWriter<'a> {
    dst: &'a mut [u8],
    at: usize,
}

impl<'a> TextWriter<'a> {
    // At the front of the destination.
    pub fn new(dst: &'a mut [u8]) -> TextWriter<'a>
        ensures same_reference { result.dst.ghost_name ≡ dst.entry.ghost_name }
        ensures same_bytes { result.dst.now ≡ dst.old }
        ensures front { result.at ≡ 0 }
    {
        TextWriter { dst, at: 0 }
    }

    // At any place, also one that the destination does not reach.
    pub fn starting_at(dst: &'a mut [u8], place: usize) -> TextWriter<'a>
        ensures same_reference { result.dst.ghost_name ≡ dst.entry.ghost_name }
        ensures same_bytes { result.dst.now ≡ dst.old }
        ensures place { result.at ≡ place }
    {
        TextWriter { dst, at: place }
    }

    // From the front on, the length of what was written.
    pub fn place(&self) -> usize
        ensures { result ≡ self.now.at }
    {
        self.at
    }

    // One byte.
    #[tactic(auto, using(crate::proofs::TextWriters::part_puts))]
    pub(crate) fn put(&mut self, c: u8)
        ensures { Put (c ∷ []) self.old self.new }
    {
        if self.at < self.dst.len() {
            self.dst[self.at] = c;
        }
        self.at = self.at.saturating_add(1);
    }

    // A text, through the part of the destination that starts at the place: an empty part where it does not reach.
    #[tactic(auto, using(crate::proofs::TextWriters::part_puts))]
    pub fn put_text(&mut self, text: &[u8])
        ensures { Put text.now self.old self.new }
    {
        let start = self.at.min(self.dst.len());
        copy(text, &mut self.dst[start..]);
        self.at = self.at.saturating_add(text.len());
    }

    // The decimal numeral of a number: that of its tenth, and its last digit. By hand, as every text here is put: `write!` answers a
    // result, and `fmt::Write` promises what was written only where that is Ok. A u64 has no From into u8; `as` is proved to keep the
    // value.
    pub fn put_decimal(&mut self, n: u64)
        ensures { Put (decimal n) self.old self.new }
    {
        if n >= 10 {
            self.put_decimal(n / 10);
        }
        self.put(b'0' + (n % 10) as u8);
    }
}
