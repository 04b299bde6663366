// The true set, in 64 scenarios at once: T is closed under the rules of the file.
ghost use Rattle.std.specs.Prelude.{length};
ghost use Rattle.parts.specs.Parts.{Parted};
ghost use Rattle.closing.specs.Closing.{rule_in, RuleStands, RulesStand, rules_in, left_over, Raised, ClosedTrue};

use crate::passes::{Rows, settle};
use decoded::{number_in, objective_in};
use lanes::words::{body_word, other_lanes};

// Rules as rows, and the words of the g whose not(g) hold.
#[derive(Clone, Copy)]
struct Rules<'a> {
    rows: &'a [u16],
    falses: &'a [u64; 513],
}

impl<'a> Rows for Rules<'a> {
    ghost Stands = { λ rules place. RuleStands rules.rows.now place };

    ghost Puts = { λ rules place before after changed. Raised (rule_in rules.rows.now place) rules.falses.now before after changed };

    ghost left_over = { left_over };

    // The head comes in where the body holds.
    fn put(&self, place: usize, truth: &mut [u64; 513]) -> bool {
        let head = objective_in(self.rows, place).0;
        let start = place + 2;
        let end = start + number_in(self.rows, place + 1);
        let old = truth[head];
        let new = old | body_word(&self.rows[start..end], truth, self.falses, other_lanes(old));
        truth[head] = new;
        new != old
    }
}

// Part by part: no rule up to the end of one asks for a head that comes after it.
pub fn close_true(rows: &[u16], visits: &[u16], truth: &mut [u64; 513], falses: &[u64; 513])
    requires { RulesStand rows.now visits.now × Parted 0 (length visits.now) rows.now visits.now }
    ensures { ClosedTrue (rules_in rows.now visits.now) falses.now truth.old truth.new }
{
    settle(&Rules { rows, falses }, visits, truth);
}
