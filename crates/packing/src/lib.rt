// Packing: a code's message to bytes and from bytes, where leftover bits must be 0. Each operation takes a code's description, its input
// and an output buffer, and writes to the buffer only after all refusals.
// An opening is taken apart by `let .. else`, not by `?`: a rule of this project.
#![tactic(auto)]

ghost use Rattle.std.specs.Prelude.{◌≡◌, true, ℕ, ◌-◌, ◌≤◌, length};
ghost use Rattle.definitions.specs.Messages.{symbols_fit};
ghost use Rattle.definitions.specs.Packing.{packable, width, bit_count, byte_count, leftover_set, pack, unpack};
ghost use Rattle.definitions.specs.Sizes.{packed_bytes};
ghost use Rattle.definitions.specs.PackingOperations.{open_packable, pack_code, unpack_code, Packed, Unpacked};
ghost use Rattle.answers.specs.Answering.{answer_of, leaves};
ghost use Rattle.opening.specs.Viewed.{code as the_code};
ghost use Rattle.bit_reader.specs.Taking.{width_in, Narrow};
ghost use Rattle.packing.specs.Packing.{packing, unpacking, WherePacked, WhereUnpacked};

mod pulled;

use answers::{Refusal, buffers_fit};
use bit_reader::Layout;
use opening::Code;
use pulled::Symbols;

// An opened code whose messages can be bytes, with the bits of its symbols.
#[derive(Clone, Copy)]
struct Packing<'a> {
    code: Code<'a>,
    layout: Layout,
    ghost powers: { packable (the_code code) ≡ true },
    ghost narrow: { Narrow layout },
    ghost cells: { (layout.n ≡ code.n) × (layout.leading ≡ code.n - code.r) },
    ghost widths: { (i : ℕ) → width (the_code code) i ≡ width_in layout i },
}

// Whether q and floor(q/M) are powers of two.
#[tactic(auto, unfolding(definitions::specs::Packing::packable))]
fn packable(code: &Code) -> bool
    ensures { result ≡ packable (the_code code.now) }
{
    bits::is_power_of_two(code.q) && bits::is_power_of_two(code.q / code.m)
}

impl<'a> Packing<'a> {
    ghost use Rattle.packing.specs.Viewed.{opened_as};

    // What both operations begin with: open; then 14.
    #[tactic(auto, unfolding(definitions::specs::PackingOperations::open_packable))]
    fn open(body: &'a [u8]) -> Result<Packing<'a>, Refusal>
        ensures { opened_as result ≡ open_packable body.now }
    {
        let described = Code::open(body);
        let Ok(code) = described else {
            return Err(described.unwrap_err());
        };
        if !packable(&code) {
            return Err(Refusal::NotAPowerOfTwo);
        }
        let layout = Layout {
            n: code.n,
            leading: code.n - code.r,
            wide: bits::log2(code.q),
            narrow: bits::log2(code.q / code.m),
        };
        Ok(Packing { code, layout })
    }

    // The bits of all symbols.
    #[tactic(auto, unfolding(definitions::specs::Packing::bit_count))]
    fn bit_count(&self) -> usize
        ensures { (result ≡ bit_count (the_code self.now.code)) × (result ≤ 8192) }
    {
        let Layout {
            n,
            leading,
            wide,
            narrow,
        } = self.layout;
        leading * wide + (n - leading) * narrow
    }

    // How many bytes have all bits.
    #[tactic(auto, unfolding(definitions::specs::Packing::byte_count))]
    fn byte_count(&self) -> usize
        ensures { (result ≡ byte_count (the_code self.now.code)) × (result ≤ 1024) }
    {
        (self.bit_count() + 7) / 8
    }

    // Whether a leftover bit of the last byte is set: the number that they make is not 0. At most seven bits are left over.
    #[tactic(auto, unfolding(definitions::specs::Packing::byte_count))]
    fn leftover_set(&self, bytes: &[u8]) -> bool
        ensures { result ≡ leftover_set (the_code self.now.code) bytes.now }
    {
        let end = self.bit_count();
        0 < bits::symbol_at(bytes, end, 8 * self.byte_count() - end)
    }

    // The bytes of a message that can be written.
    fn store_bytes(&self, message: &[u8], out: &mut [u8])
        requires fits { (length message.now ≡ self.now.code.n) × (symbols_fit (the_code self.now.code) message.now ≡ true) }
        requires room { length out.old ≡ byte_count (the_code self.now.code) }
        ensures { out.new ≡ pack (the_code self.now.code) message.now }
    {
        let symbols = Symbols {
            message,
            layout: self.layout,
        };
        symbols.store(out);
    }

    // The symbols of bytes.
    fn store_symbols(&self, bytes: &[u8], out: &mut [u8])
        requires room { length out.old ≡ self.now.code.n }
        ensures { out.new ≡ unpack (the_code self.now.code) bytes.now }
    {
        self.layout.take_symbols(bytes, out);
    }

    // A message's bytes, or the first refusal of 8 and 9.
    #[tactic(auto, unfolding(crate::specs::Packing::packing))]
    fn pack(&self, message: &[u8], out: &mut [u8]) -> Result<(), Refusal>
        ensures { leaves (answer_of result) out.new ≡ packing (the_code self.now.code) message.now out.old }
    {
        if !buffers_fit(message.len(), self.code.n, out.len(), self.byte_count()) {
            return Err(Refusal::WrongBuffer);
        }
        if !code_operations::symbols_fit(self.code.parameters(), message) {
            return Err(Refusal::SymbolTooLarge);
        }
        self.store_bytes(message, out);
        Ok(())
    }

    // The message of bytes, or the first refusal of 8 and 19.
    #[tactic(auto, unfolding(crate::specs::Packing::unpacking))]
    fn unpack(&self, bytes: &[u8], out: &mut [u8]) -> Result<(), Refusal>
        ensures { leaves (answer_of result) out.new ≡ unpacking (the_code self.now.code) bytes.now out.old }
    {
        if !buffers_fit(bytes.len(), self.byte_count(), out.len(), self.code.n) {
            return Err(Refusal::WrongBuffer);
        }
        if self.leftover_set(bytes) {
            return Err(Refusal::LeftoverBitSet);
        }
        self.store_symbols(bytes, out);
        Ok(())
    }
}

// A message's bytes.
#[tactic(auto, unfolding(definitions::specs::PackingOperations::pack_code, crate::specs::Packing::packing))]
pub fn pack(body: &[u8], message: &[u8], out: &mut [u8]) -> Result<(), Refusal>
    ensures result { leaves (answer_of result) out.new ≡ pack_code body.now message.now out.old }
    ensures packed { WherePacked body.now message.now out.old
        (λ p. Packed body.now p message.now (answer_of result) out.new) }
{
    let opened = Packing::open(body);
    let Ok(packing) = opened else {
        return Err(opened.unwrap_err());
    };
    packing.pack(message, out)
}

// The message of bytes.
#[tactic(auto, unfolding(definitions::specs::PackingOperations::unpack_code, crate::specs::Packing::unpacking))]
pub fn unpack(body: &[u8], bytes: &[u8], out: &mut [u8]) -> Result<(), Refusal>
    ensures result { leaves (answer_of result) out.new ≡ unpack_code body.now bytes.now out.old }
    ensures unpacked { WhereUnpacked body.now bytes.now out.old
        (λ p. Unpacked body.now p bytes.now (answer_of result) out.new) }
{
    let opened = Packing::open(body);
    let Ok(packing) = opened else {
        return Err(opened.unwrap_err());
    };
    packing.unpack(bytes, out)
}

// The bytes of a packed message.
#[tactic(auto, unfolding(definitions::specs::Sizes::packed_bytes))]
pub fn packed_bytes(body: &[u8]) -> Result<usize, Refusal>
    ensures { answer_of result ≡ packed_bytes body.now }
{
    let opened = Packing::open(body);
    let Ok(packing) = opened else {
        return Err(opened.unwrap_err());
    };
    Ok(packing.byte_count())
}
