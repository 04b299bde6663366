// Sets of 64 lanes, written into lent rows: complemented, joined, filled, replaced.
#![tactic(auto)]

pub mod changes;

ghost use Rattle.std.specs.Prelude.{◌≡◌, ◌≤◌, ◌<◌, ℕ, length};
ghost use Rattle.lanes.specs.Lanes.{Written};
ghost use Rattle.lanes.specs.Words.{other_word, joined_word, same_word};
ghost use Rattle.sets.specs.Writing.{WrittenBy};

// The first words of a lent row, each by a function of its number. A count: a row has room for the most literals of any file.
pub fn write_words<F: Fn(usize) -> u64>(words: &mut [u64; 513], count: usize, word: F)
    requires few { count ≤ 513 }
    requires callable { (o : ℕ) → o < count → F.pre word o }
    ensures { WrittenBy (F.post word) count words.old words.new }
{
    // An index: the function is of the number.
    for o in 0..count {
        words[o] = word(o);
    }
}

// The first words of a row with their other lanes, into a lent row.
pub fn complement_words(words: &[u64; 513], count: usize, after: &mut [u64; 513])
    requires { count ≤ 513 }
    ensures { Written count (other_word words.now) after.old after.new }
{
    write_words(after, count, |o| !words[o]);
}

// The first words of two rows joined, into a lent row.
pub fn join_words(first: &[u64; 513], second: &[u64; 513], count: usize, after: &mut [u64; 513])
    requires { count ≤ 513 }
    ensures { Written count (joined_word first.now second.now) after.old after.new }
{
    write_words(after, count, |o| first[o] | second[o]);
}

// The first words of a lent row, each the same.
pub fn fill_words(words: &mut [u64; 513], count: usize, word: u64)
    requires { count ≤ 513 }
    ensures { Written count (same_word word) words.old words.new × (length words.new ≡ 513) }
{
    words[..count].fill(word);
}
