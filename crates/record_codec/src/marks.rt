//! Marks of names, by which most names are known not to have come before.
//!
//! A name's sum has three bits in one of 4,096 words. Where one of them isn't set, no name with this sum was marked.

ghost use Rattle.std.specs.Prelude.{◌≡◌};
ghost use Rattle.record_codec.specs.Marks.{bits_of as bits_of_sum, is_marked, marked};

/// How many words there are, of 64 bits each.
pub(crate) const WORDS: usize = 4096;

#[tactic(auto, using(std::proofs::lemmas::Nat::one_shl), unfolding(crate::specs::Marks::bits_of))]
fn bits_of(sum: u32) -> u64
    ensures { result ≡ bits_of_sum sum }
{
    1u64 << (sum / 0x1000 % 64) | 1u64 << (sum / 0x4_0000 % 64) | 1u64 << (sum / 0x100_0000 % 64)
}

/// Marks a name with this sum. Answers whether all its marks were there.
pub(crate) fn mark(words: &mut [u64; WORDS], sum: u32) -> bool
    ensures before { result ≡ is_marked words.old sum }
    ensures after { words.new ≡ marked words.old sum }
{
    let bits = bits_of(sum);
    let word = &mut words[sum as usize % WORDS];
    let before = *word & bits == bits;
    *word |= bits;
    before
}
