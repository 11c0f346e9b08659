//! The numbers of records that callers were told.

const WORDS: usize = 7;

/// How many numbers there were, and which of those below 448.
#[derive(Clone, Copy)]
pub(crate) struct Numbers {
    pub(crate) count: u64,
    pub(crate) words: [u64; WORDS],
}

impl Numbers {
    pub(crate) fn new() -> Numbers {
        Numbers {
            count: 0,
            words: [0; WORDS],
        }
    }

    /// One more.
    pub(crate) fn note(&mut self, number: u64) {
        self.count = self.count.wrapping_add(1);
        if let Some(word) = self.words.get_mut((number / 64) as usize) {
            *word |= 1 << (number % 64);
        }
    }

    /// Those of both.
    pub(crate) fn and(&self, other: &Numbers) -> Numbers {
        Numbers {
            count: self.count.wrapping_add(other.count),
            words: std::array::from_fn(|at| self.words[at] | other.words[at]),
        }
    }
}
