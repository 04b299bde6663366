// The rules of an accepted file as rows of numbers.
ghost use Rattle.std.specs.Prelude.{◌≡◌, ◌+◌, ◌<◌, ◌≤◌, length};
ghost use Rattle.papers.specs.Program.{all_rules, rule_at};
ghost use Rattle.papers.specs.Reading.{program_in};
ghost use Rattle.dual.specs.Bytes.{filled};
ghost use Rattle.copying.specs.Laid.{laid};
ghost use Rattle.rows.specs.Rows.{rule_row, rule_rows, joined, Starts};

use copying::copy_numbers;
use folds::RuleFile;
use literals::Fold;

// The row of one rule at a place, and the place after it.
fn decode_rule(file: &RuleFile, fold: Fold, numbers: &mut [u16], at: usize) -> usize
    requires { (fold.0 < length (all_rules (program_in file.now.bytes.now)))
        × (at + length (rule_row (rule_at (program_in file.now.bytes.now) fold.0)) ≤ length numbers.old) }
    ensures { (result ≡ at + length (rule_row (rule_at (program_in file.now.bytes.now) fold.0)))
        × (numbers.new ≡ laid at (rule_row (rule_at (program_in file.now.bytes.now) fold.0)) numbers.old) }
{
    let head = file.head_of(fold);
    let body = file.body_of(fold);
    let count = body.len() / 2;
    let start = at + 2;
    numbers[at] = head.0 as u16;
    numbers[at + 1] = count as u16;
    copy_numbers(body, numbers, start);
    start + count
}

// All of them by their fold numbers, and where each row starts.
pub fn decode_rules(file: &RuleFile, numbers: &mut [u16], starts: &mut [u16])
    requires { (23040 ≤ length numbers.old) × (1280 ≤ length starts.old) }
    ensures { (numbers.new ≡ filled (joined (rule_rows (program_in file.now.bytes.now))) numbers.old)
        × Starts (rule_rows (program_in file.now.bytes.now)) starts.old starts.new }
{
    let count = file.fold_count();
    let mut at: usize = 0;
    // A number of the problem: the fold.
    for fold in 0..count {
        starts[fold] = at as u16;
        at = decode_rule(file, Fold(fold), numbers, at);
    }
}
