// Are all keys different? Each finds its slot in the digital search tree of its bucket. Without the trees a code whose keys share one bucket
// would cost the square of their number; in a tree a key is at most some twice as many steps from its bucket as it has bits.
ghost use Rattle.std.specs.Prelude.{◌≡◌, map, ◌<◌, ◌≤◌, length};
ghost use Rattle.definitions.specs.Acceptance.{all_different};
ghost use Rattle.acceptance.specs.Keys.{word_of};
ghost use Rattle.acceptance.specs.Tree.{bucket_of, bits_of, next_bits, child_of, Tree, SlotOf};

// A slot holds the number of a key, from 1, or 0: an Option takes twice the memory, and made this function up to twice as slow. Numbers
// stand for references, since the library asks for no memory.
pub fn all_different(keys: &[u128]) -> bool
    requires { length keys.now ≤ 4096 }
    ensures { result ≡ all_different (map word_of keys.now) }
{
    let mut slots = [0u16; 12288];
    for (i, key) in keys.iter().enumerate() {
        let s = slot_of(keys, &slots, i, *key);
        if slots[s] != 0 {
            return false;
        }
        slots[s] = i as u16 + 1;
    }
    true
}

// The slot of a key in the tree of the first n keys. A `while`: how many steps the walk takes is not known before it ends.
fn slot_of(keys: &[u128], slots: &[u16; 12288], n: usize, key: u128) -> usize
    requires { (n ≤ 4096) × (n ≤ length keys.now) × Tree keys.now slots.now n }
    ensures { SlotOf keys.now slots.now n key result }
{
    let mut s = bucket(key);
    let mut bits = bits_of(key);
    while slots[s] != 0 {
        let j = usize::from(slots[s]);
        if keys[j - 1] == key {
            return s;
        }
        s = child(j, bits.next);
        bits = next_bits(bits);
    }
    s
}

// Keys have 96 bits, the uppermost of each half being 0: the remainders only say that the sum fits 64 bits.
fn bucket(key: u128) -> usize
    ensures { (result ≡ bucket_of key) × (result < 4093) }
{
    let low = (key % 9223372036854775808) as u64;
    let high = (key / 18446744073709551616 % 4294967296) as u64;
    ((low + high * 61) % 4093) as usize
}

// What a walk has not used of a key: the half whose lowest bit comes next, and the other.
#[derive(Clone, Copy)]
pub struct Bits {
    pub next: u64,
    pub other: u64,
}

fn bits_of(key: u128) -> Bits
    ensures { result ≡ bits_of key }
{
    Bits {
        next: (key % 18446744073709551616) as u64,
        other: (key / 18446744073709551616) as u64,
    }
}

// One bit further on. The halves come in turn, since keys that differ in the upper half alone would else share 64 steps; once nothing is left
// of the other half, its zeros are passed over.
fn next_bits(bits: Bits) -> Bits
    ensures { result ≡ next_bits bits }
{
    if bits.other == 0 {
        return Bits {
            next: bits.next / 2,
            other: 0,
        };
    }
    Bits {
        next: bits.other,
        other: bits.next / 2,
    }
}

// The slot after that of the key numbered j, by the lowest bit that is not used yet.
fn child(j: usize, bits: u64) -> usize
    requires { j ≤ 4096 }
    ensures { result ≡ child_of j bits }
{
    4094 + 2 * j + (bits % 2) as usize
}
