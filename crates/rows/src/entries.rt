// The dual in its buffer as rows of numbers: they are read from its bytes.
ghost use Rattle.std.specs.Prelude.{◌≡◌, ◌+◌, ◌*◌, ◌<◌, ◌≤◌, length, drop, Some, Decides};
ghost use Rattle.literals.specs.Numbering.{judged};
ghost use Rattle.papers.specs.Field.{size_of};
ghost use Rattle.papers.specs.Reading.{program_in};
ghost use Rattle.dual.specs.Table.{folds_of};
ghost use Rattle.dual.specs.Bytes.{filled};
ghost use Rattle.copying.specs.Laid.{laid};
ghost use Rattle.rows.specs.Rows.{clauses_row, clauses_of, entry_row, entry_rows, joined, Starts};
ghost use Rattle.rows.specs.DualBytes.{listed_in, clause_in, FoldStands, literal_in, FieldStands, DualStarts, EntriesAt, FoldsAt};

use copying::copy_numbers;
use literals::Objective;
use numbered::{number_at, objective_at};

// How far the dual was read, and its numbers written.
#[derive(Clone, Copy)]
struct Reached {
    place: usize,
    at: usize,
}

// The clause of the 09 field that stands there.
fn decode_fold(dual: &[u8], from: Reached, numbers: &mut [u16]) -> Reached
    requires { FoldStands (drop from.place dual.now) × (from.at + (1 + length (listed_in (drop from.place dual.now))) ≤ length numbers.old) }
    ensures { (result.place ≡ from.place + 3 + size_of (drop from.place dual.now))
        × ((result.at ≡ from.at + (1 + length (listed_in (drop from.place dual.now))))
        × (numbers.new ≡ laid from.at (clause_in (drop from.place dual.now)) numbers.old)) }
{
    let start = from.place + 5;
    let place = from.place + 3 + number_at(dual, from.place + 1);
    let listed = &dual[start..place];
    let count = listed.len() / 2;
    let first = from.at + 1;
    numbers[from.at] = (2 * count) as u16;
    copy_numbers(listed, numbers, first);
    Reached {
        place,
        at: first + count,
    }
}

// The clauses of o's folds, from the 09 fields that follow its 08 field.
fn decode_folds(
    file: &[u8],
    dual: &[u8],
    o: Objective,
    folds: usize,
    from: Reached,
    numbers: &mut [u16],
) -> Reached
    requires { FoldsAt (program_in file.now) dual.now o.0 0 from.place
        × ((folds ≡ length (folds_of (program_in file.now) o.0))
        × (from.at + length (clauses_row (clauses_of (program_in file.now) o.0)) ≤ length numbers.old)) }
    ensures { EntriesAt (program_in file.now) dual.now (o.0 + 1) result.place
        × ((result.at ≡ from.at + length (clauses_row (clauses_of (program_in file.now) o.0)))
        × (numbers.new ≡ laid from.at (clauses_row (clauses_of (program_in file.now) o.0)) numbers.old)) }
{
    let mut reached = from;
    for _ in 0..folds {
        reached = decode_fold(dual, reached, numbers);
    }
    reached
}

// Whether o's 08 field stands at a place.
fn is_entered(dual: &[u8], o: Objective, place: usize) -> bool
    requires { FieldStands (drop place dual.now) }
    ensures { Decides result (literal_in (drop place dual.now) ≡ Some o.0) }
{
    dual[place] == 0x08 && objective_at(dual, place + 3).0 == o.0
}

// The row of o's entry. Without one o has a single clause, which lists nothing.
fn decode_entry(
    file: &[u8],
    dual: &[u8],
    o: Objective,
    from: Reached,
    numbers: &mut [u16],
) -> Reached
    requires { EntriesAt (program_in file.now) dual.now o.0 from.place
        × ((o.0 < judged (program_in file.now).atoms)
        × ((from.at + length (entry_row (program_in file.now) o.0) ≤ 28000) × (28000 ≤ length numbers.old))) }
    ensures { EntriesAt (program_in file.now) dual.now (o.0 + 1) result.place
        × ((result.at ≡ from.at + length (entry_row (program_in file.now) o.0))
        × (numbers.new ≡ laid from.at (entry_row (program_in file.now) o.0) numbers.old)) }
{
    let Reached { place, at } = from;
    let start = at + 2;
    numbers[at] = o.0 as u16;
    if !is_entered(dual, o, place) {
        numbers[at + 1] = 1;
        numbers[start] = 0;
        return Reached {
            place,
            at: start + 1,
        };
    }
    let size = number_at(dual, place + 1);
    let folds = size / 2 - 1;
    let clauses = Reached {
        place: place + 3 + size,
        at: start,
    };
    let reached = decode_folds(file, dual, o, folds, clauses, numbers);
    numbers[at + 1] = (reached.at - start) as u16;
    reached
}

// The entries of all objective literals, falsum's last, and where each row starts. Not one with `decode_rules`: entries follow one another.
pub fn decode_dual(file: &[u8], dual: &[u8], count: usize, numbers: &mut [u16], starts: &mut [u16])
    requires { DualStarts (program_in file.now) dual.now
        × ((count ≡ judged (program_in file.now).atoms) × ((28000 ≤ length numbers.old) × (513 ≤ length starts.old))) }
    ensures { (numbers.new ≡ filled (joined (entry_rows (program_in file.now))) numbers.old)
        × Starts (entry_rows (program_in file.now)) starts.old starts.new }
{
    let mut reached = Reached { place: 0, at: 0 };
    // A number of the problem: the objective literal.
    for o in 0..count {
        starts[o] = reached.at as u16;
        reached = decode_entry(file, dual, Objective(o), reached, numbers);
    }
}
