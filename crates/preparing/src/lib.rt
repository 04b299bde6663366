// What a call does with its papers before it judges: the rules, the dual and the query decoded once, with an order in which to visit the rows, in parts.
#![tactic(auto)]

ghost use Rattle.preparing.specs.Preparing.{PapersStand, Room, Prepares};

use copying::copy_numbers;
use folds::RuleFile;
use ordering::order_rows;
use parts::{RowKind, mark_parts};
use rows::entries::decode_dual;
use rows::rules::decode_rules;

// How many folds, judged literals and literals of the query there are.
#[derive(Clone, Copy)]
pub struct Counts {
    pub folds: usize,
    pub judged: usize,
    pub asked: usize,
}

// All three, and both orders with their parts: a rule asks for an o of its body, an entry for the o of a not(o) that it lists.
// Five slices, since any of these lengths or longer ones will do (`Room`): a struct of arrays would fix the lengths.
pub fn prepare(
    file: &RuleFile,
    dual: &[u8],
    query: &[u8],
    rules: &mut [u16],
    rule_visits: &mut [u16],
    entries: &mut [u16],
    entry_visits: &mut [u16],
    asked: &mut [u16],
) -> Counts
    requires { PapersStand file.now dual.now query.now
        × Room rules.old rule_visits.old entries.old entry_visits.old asked.old }
    ensures { Prepares file.now.bytes.now query.now rules.old rules.new
        rule_visits.old rule_visits.new entries.old entries.new
        entry_visits.old entry_visits.new asked.old asked.new result }
{
    let judged = literals::judged(file.contents.atoms);
    let count = file.fold_count();
    let mut rule_starts = [0u16; 1280];
    let mut entry_starts = [0u16; 513];
    decode_rules(file, rules, &mut rule_starts);
    decode_dual(file.bytes, dual, judged, entries, &mut entry_starts);
    order_rows(
        entries,
        &entry_starts,
        entry_visits,
        judged,
        rules,
        &rule_starts,
        rule_visits,
        count,
    );
    mark_parts(rules, RowKind::Rule, rule_visits, count);
    mark_parts(entries, RowKind::Entry, entry_visits, judged);
    copy_numbers(query, asked, 0);
    Counts {
        folds: count,
        judged,
        asked: query.len() / 2,
    }
}
