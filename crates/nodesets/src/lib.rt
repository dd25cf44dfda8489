// A set of the nodes 1 to 256 as four words: node m + 1 is number m % 64 of word m / 64. Node 0 is in no set.
#![tactic(auto)]

ghost use Rattle.std.specs.Prelude.{◌≡◌, ◌&&◌, not, ◌≢◌, ℕ, ◌+◌, ◌≤◌, ◌<◌};
ghost use Rattle.rules.specs.Notation.{◌<?◌, lowest as lowest_of};
ghost use Rattle.rules.specs.Means.{node_if_any};
ghost use Rattle.nodesets.specs.Word.{in_word, add_word};
ghost use Rattle.nodesets.specs.Set.{has, none, add, members};

use std::marker::Model;

// ---- one word, as a set of the numbers 0 to 63

fn word_with(w: u64, j: u32) -> u64
    requires { j < 64 }
    ensures { result ≡ add_word w j }
{
    w | (1 << j)
}

// The numbers j that are not in the word and have from + j below n.
fn word_outside(w: u64, from: usize, n: usize) -> u64
    ensures { (j : ℕ) → j < 64 → in_word result j ≡ (from + j <? n && not (in_word w j)) }
{
    if n <= from {
        return 0;
    }
    if 64 <= n - from {
        return !w;
    }
    !w & ((1 << (n - from)) - 1)
}

// ---- the set

// A clause sees the list of the words.
#[derive(Clone, Copy)]
pub struct NodeSet {
    words: [u64; 4],
}

impl Model for NodeSet {
    ghost use Rattle.std.specs.Prelude.{ℕ, List};

    ghost Value = { List ℕ };

    ghost view = { λ set. set.words };

    ghost inverse = { λ words. record { words = words } };
}

impl NodeSet {
    pub fn empty() -> NodeSet
        ensures { result ≡ none }
    {
        NodeSet { words: [0; 4] }
    }

    // Any four words are a set, so whoever holds four has one.
    pub fn from_words(words: [u64; 4]) -> NodeSet
        ensures { result ≡ words }
    {
        Self { words }
    }

    // The four words again, for whoever keeps or reads them as words.
    pub fn words(self) -> [u64; 4]
        ensures { result ≡ self }
    {
        let NodeSet { words } = self;
        words
    }

    // Node a joins the set. The answer says whether it was in it before.
    pub fn join(&mut self, a: u32) -> bool
        requires is_node { a ≢ 0 }
        requires fits { a ≤ 256 }
        ensures { (result ≡ has self.old a) × (self.new ≡ add self.old a) }
    {
        let at = ((a - 1) / 64) as usize;
        let word = self.words[at];
        let more = word_with(word, (a - 1) % 64);
        if more == word {
            return true;
        }
        self.words[at] = more;
        false
    }

    // The nodes of 1 to n that are not in the set.
    pub fn outside(self, n: usize) -> NodeSet
        ensures { (m : ℕ) → m < 256 → has result (m + 1) ≡ (m <? n && not (has self (m + 1))) }
    {
        let mut words = [0; 4];
        for i in 0..4 {
            words[i] = word_outside(self.words[i], 64 * i, n);
        }
        NodeSet { words }
    }

    pub fn count(self) -> u32
        ensures { result ≡ members self 256 }
    {
        self.words.iter().map(|word| word.count_ones()).sum()
    }

    pub fn lowest(self) -> Option<u32>
        ensures { result ≡ node_if_any (lowest_of 256 (has self)) }
    {
        for (i, word) in self.words.iter().enumerate() {
            if *word != 0 {
                return Some(64 * i as u32 + word.trailing_zeros() + 1);
            }
        }
        None
    }
}
