// A round's words taken over, and which of 64 scenarios it has changed.
ghost use Rattle.std.specs.Prelude.{◌≤◌};
ghost use Rattle.lanes.specs.Lanes.{Changed, Written, word_at};

// The first words of a row replaced by those of another; the lanes in which they differ.
pub fn replace_words(words: &mut [u64; 513], by: &[u64; 513], count: usize) -> u64
    requires { count ≤ 513 }
    ensures { Changed count words.old by.now result
        × Written count (word_at by.now) words.old words.new }
{
    let mut changed: u64 = 0;
    // An index: two rows are read and written at it.
    for o in 0..count {
        changed |= words[o] ^ by[o];
        words[o] = by[o];
    }
    changed
}
