// The rules of an accepted file, by their fold numbers: where their fields stand, and their bodies as
// parts of the file.
#![tactic(auto)]

ghost use Rattle.std.specs.Prelude.{◌≡◌, ℕ, ◌+◌, ◌<◌, get_or, length, drop};
ghost use Rattle.papers.specs.Program.{all_rules, rule_at};
ghost use Rattle.papers.specs.Field.{size_of};
ghost use Rattle.papers.specs.Reading.{read_file, program_in};
ghost use Rattle.papers.specs.Answers.{contents_of};
ghost use Rattle.papers.specs.Told.{read_told, tells};
ghost use Rattle.papers.specs.Places.{Walked, BodyOf};

use literals::{Fold, Objective};
use numbered::{number_at, objective_at};
use papers::Contents;

// The place after the field at a place.
fn field_end(file: &[u8], place: usize) -> usize
    requires { place + 2 < length file.now }
    ensures { result ≡ place + 3 + size_of (drop place file.now) }
{
    place + 3 + number_at(file, place + 1)
}

// Where the field of each fold stands, and 0 past the last: there are at most 1,280.
fn fold_places(file: &[u8], contents: Contents) -> [usize; 1280]
    requires { read_told contents_of (read_file file.now) ≡ tells contents }
    ensures { Walked file.now contents result }
{
    let count = contents.rules.count + contents.integrity.count;
    let mut places = [0usize; 1280];
    let mut place = contents.rules.place;
    for slot in &mut places[..count] {
        *slot = place;
        place = field_end(file, place);
    }
    places
}

// An accepted file: its bytes, its counts and places, and where the field of each of its folds stands.
#[derive(Drop)]
pub struct RuleFile<'a> {
    pub bytes: &'a [u8],
    pub contents: Contents,
    pub places: [usize; 1280],
    pub ghost fits: { (i : ℕ) → get_or bytes.now i 0 < 256 },
    pub ghost walked: { Walked bytes.now contents places },
}

impl<'a> RuleFile<'a> {
    pub fn new(bytes: &'a [u8], contents: Contents) -> RuleFile<'a>
        requires { read_told contents_of (read_file bytes.now) ≡ tells contents }
        ensures { (result.bytes.now ≡ bytes.now) × (result.contents ≡ contents) }
    {
        let places = fold_places(bytes, contents);
        RuleFile {
            bytes,
            contents,
            places,
        }
    }

    // How many folds there are.
    pub fn fold_count(&self) -> usize
        ensures { result ≡ length (all_rules (program_in self.now.bytes.now)) }
    {
        self.contents.rules.count + self.contents.integrity.count
    }

    // The head of the rule with this fold number; falsum's where it is an integrity rule.
    pub fn head_of(&self, fold: Fold) -> Objective
        requires { fold.0 < length (all_rules (program_in self.now.bytes.now)) }
        ensures { (result.0 ≡ (rule_at (program_in self.now.bytes.now) fold.0).head) × (result.0 < 513) }
    {
        if fold.0 < self.contents.rules.count {
            objective_at(self.bytes, self.places[fold.0] + 3)
        } else {
            literals::falsum(self.contents.atoms)
        }
    }

    // The body of the rule with this fold number, as a part of the file.
    pub fn body_of(&self, fold: Fold) -> &'a [u8]
        requires { fold.0 < length (all_rules (program_in self.now.bytes.now)) }
        ensures { BodyOf (rule_at (program_in self.now.bytes.now) fold.0) result.now }
    {
        let place = self.places[fold.0];
        let end = field_end(self.bytes, place);
        if fold.0 < self.contents.rules.count {
            &self.bytes[place + 5..end]
        } else {
            &self.bytes[place + 3..end]
        }
    }
}
