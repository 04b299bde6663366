// The folds by their heads: one pass over the rules links those of each objective literal, so that
// no literal asks for a pass of its own.
ghost use Rattle.std.specs.Prelude.{◌≡◌, ◌≤◌, ◌<◌, get_or, length, replicate, None};
ghost use Rattle.papers.specs.Reading.{program_in};
ghost use Rattle.dual_writer.specs.Chains.{Chain, ChainsOf, folds_at};

use folds::RuleFile;
use literals::{Fold, Objective};

// For each objective literal its first fold, for each fold the next of the same head.
#[derive(Drop)]
pub(crate) struct Chains {
    first: [Option<Fold>; 513],
    next: [Option<Fold>; 1280],
}

impl Chains {
    // No fold yet.
    pub(crate) const CLEAR: Chains = Chains {
        first: [None; 513],
        next: [None; 1280],
    };

    // From the last rule to the first, so that each chain rises. Into chains that are clear: they are large, and as an answer they would be copied.
    pub(crate) fn link(&mut self, file: &RuleFile)
        requires { (self.old.first ≡ replicate 513 None) × (self.old.next ≡ replicate 1280 None) }
        ensures { ChainsOf (program_in file.now.bytes.now) self.new.first self.new.next }
    {
        for k in (0..file.fold_count()).rev() {
            let fold = Fold(k);
            let head = file.head_of(fold);
            let at = head.0;
            self.next[k] = self.first[at];
            self.first[at] = Some(fold);
        }
    }

    // The first fold of an objective literal.
    pub(crate) fn first_of(&self, o: Objective) -> Option<Fold>
        requires { o.0 < 513 }
        ensures { result ≡ get_or self.now.first o.0 None }
    {
        let at = o.0;
        self.first[at]
    }

    // The next fold of the same head.
    pub(crate) fn next_of(&self, fold: Fold) -> Option<Fold>
        requires { fold.0 < 1280 }
        ensures { result ≡ get_or self.now.next fold.0 None }
    {
        let at = fold.0;
        self.next[at]
    }

    // How many folds an objective literal has.
    pub(crate) fn count_of(&self, o: Objective) -> usize
        requires { (o.0 < 513)
            × Chain self.now.next (get_or self.now.first o.0 None) (folds_at self.now.next (get_or self.now.first o.0 None)) }
        ensures { (result ≡ length (folds_at self.now.next (get_or self.now.first o.0 None))) × (result ≤ 1280) }
    {
        let mut count: usize = 0;
        let mut ahead = self.first_of(o);
        while let Some(fold) = ahead {
            count += 1;
            ahead = self.next_of(fold);
        }
        count
    }
}
