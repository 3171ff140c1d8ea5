// The reader of packed bytes: it stays on the lent bytes and remembers its next bit.
#![tactic(auto)]

ghost use Rattle.std.specs.Prelude.{◌≡◌, ◌+◌, ◌<◌, ◌≤◌, ◌^◌, length, take};
ghost use Rattle.definitions.specs.Packing.{symbol_at};
ghost use Rattle.bit_reader.specs.Taking.{Narrow, taken};

// How many bits the symbol of each of n cells has: `wide` before the check cells, before which there are `leading` cells,
// and `narrow` at them. Without facts, so that any can be made, as before; take_symbols asks that they are narrow.
#[derive(Clone, Copy)]
pub struct Layout {
    pub n: usize,
    pub leading: usize,
    pub wide: usize,
    pub narrow: usize,
}

impl Layout {
    ghost use Rattle.bit_reader.specs.Taking.{width_in, Narrow, taken};

    // How many bits the symbol of cell i + 1 has.
    pub fn width_at(self, i: usize) -> usize
        ensures { result ≡ width_in self i }
    {
        if i < self.leading {
            self.wide
        } else {
            self.narrow
        }
    }

    // Take the symbols of all cells from bytes.
    #[tactic(auto, using(crate::proofs::Steps::width_small, crate::proofs::Steps::next_small, crate::proofs::Steps::all_taken))]
    pub fn take_symbols(self, bytes: &[u8], out: &mut [u8])
        requires narrow { Narrow self }
        requires room { length out.old ≡ self.n }
        ensures { out.new ≡ taken self bytes.now }
    {
        let mut reader = BitReader::new(bytes);
        for (i, symbol) in out.iter_mut().enumerate() {
            let width = self.width_at(i);
            *symbol = reader.take(width);
            reader.advance(width);
        }
    }
}

// Take the symbols of all cells from bytes into the first cells of an array, for a caller that has no buffer of n cells.
pub fn take_symbols(bytes: &[u8], layout: Layout) -> [u8; 64]
    requires { Narrow layout }
    ensures long { length result ≡ 64 }
    ensures symbols { take layout.n result ≡ taken layout bytes.now }
{
    let mut symbols = [0u8; 64];
    layout.take_symbols(bytes, &mut symbols[..layout.n]);
    symbols
}

// The bytes that are read, and the next bit. Only `advance` moves it on.
#[derive(Clone, Copy)]
pub struct BitReader<'a> {
    src: &'a [u8],
    bit: usize,
}

impl<'a> BitReader<'a> {
    // A reader of these bytes, at bit 0.
    pub fn new(src: &'a [u8]) -> BitReader<'a>
        ensures { (result.src ≡ src.entry) × (result.bit ≡ 0) }
    {
        BitReader { src, bit: 0 }
    }

    // The symbol of `width` bits at the next bit.
    pub fn take(&self, width: usize) -> u8
        requires { width ≤ 8 }
        ensures { result ≡ symbol_at self.now.src.now self.now.bit width }
    {
        bits::symbol_at(self.src, self.bit, width)
    }

    // That many bits on.
    pub fn advance(&mut self, width: usize)
        requires { self.old.bit + width < 2 ^ 64 }
        ensures { (self.new.src ≡ self.old.src) × (self.new.bit ≡ self.old.bit + width) }
    {
        self.bit += width;
    }
}
