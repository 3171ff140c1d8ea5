// Making bytes: the bits that were pulled from a message and stand in no byte yet.
ghost use Rattle.std.specs.Prelude.{◌≡◌, ℕ, ◌+◌, ◌^◌, ◌<◌, length};
ghost use Rattle.definitions.specs.Words.{at};
ghost use Rattle.definitions.specs.Packing.{bytes_of, bits_of};
ghost use Rattle.bit_reader.specs.Taking.{width_in, Narrow};

use bit_reader::Layout;

// A message each of whose symbols has room in its bits.
#[derive(Clone, Copy)]
pub struct Symbols<'a> {
    pub message: &'a [u8],
    pub layout: Layout,
    pub ghost narrow: { Narrow layout },
    pub ghost long: { length message.now ≡ layout.n },
    pub ghost below: { (i : ℕ) → i < layout.n → at message.now i < 2 ^ width_in layout i },
}

// Bits that stand in no byte yet, the last `bits` of those of the first `cells` symbols, as one number.
#[derive(Clone, Copy)]
pub struct Pulled {
    pub value: usize,
    pub bits: usize,
    pub cells: usize,
}

impl Pulled {
    ghost use Rattle.packing.specs.Pulling.{Pulling, first, Full};

    // The next symbol's bits after those that were pulled.
    fn with_symbol(self, symbols: &Symbols) -> Pulled
        requires pulling { Pulling symbols.now self }
        requires room { (self.cells < symbols.now.layout.n) × (self.bits < 8) }
        ensures { Pulling symbols.now result × (first symbols.now result ≡ first symbols.now self) × (result.cells ≡ self.cells + 1) }
    {
        let i = self.cells;
        Pulled {
            value: self.value + bits::raised(symbols.message[i], self.bits),
            bits: self.bits + symbols.layout.width_at(i),
            cells: i + 1,
        }
    }

    // Symbols until a byte is full or no symbol is left.
    fn pull(self, symbols: &Symbols) -> Pulled
        requires pulling { Pulling symbols.now self }
        ensures pulling { Pulling symbols.now result }
        ensures first { first symbols.now result ≡ first symbols.now self }
        ensures full { Full symbols.now result }
    {
        let mut pulled = self;
        for _ in self.cells..symbols.layout.n {
            if 8 <= pulled.bits {
                return pulled;
            }
            pulled = pulled.with_symbol(symbols);
        }
        pulled
    }
}

impl<'a> Symbols<'a> {
    // All bytes. Past the last symbol the bits are 0.
    pub fn store(&self, out: &mut [u8])
        ensures { out.new ≡ bytes_of (length out.old) (at (bits_of (width_in self.now.layout) self.now.message.now self.now.layout.n)) }
    {
        let mut pulled = Pulled {
            value: 0,
            bits: 0,
            cells: 0,
        };
        for byte in out.iter_mut() {
            let full = pulled.pull(self);
            *byte = (full.value % 256) as u8;
            pulled = Pulled {
                value: full.value / 256,
                bits: full.bits.saturating_sub(8),
                cells: full.cells,
            };
        }
    }
}
