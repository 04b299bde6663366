// The entry of one objective literal: its length, and its fields.
ghost use Rattle.std.specs.Prelude.{◌≡◌, cond, ◌+◌, ◌*◌, ◌<◌, ◌≤◌, length, Some, None, IfSome};
ghost use Rattle.papers.specs.Program.{all_rules};
ghost use Rattle.literals.specs.Numbering.{atom_number};
ghost use Rattle.papers.specs.Content.{is_among};
ghost use Rattle.papers.specs.Reading.{program_in};
ghost use Rattle.dual.specs.Table.{has_entry, is_fact, entry, entry_if_any, dual};
ghost use Rattle.dual.specs.TableEncoding.{encode_fields};
ghost use Rattle.dual.specs.Bytes.{Fills};
ghost use Rattle.dual.specs.Length.{rules_length, dual_length};
ghost use Rattle.dual_writer.specs.Sources.{Stands};

use crate::chains::Chains;
use crate::writing::{write_fold, write_literal};
use folds::RuleFile;
use literals::Objective;

// An accepted file, with the chains of its folds.
#[derive(Clone, Copy)]
pub(crate) struct Source<'a> {
    pub(crate) file: &'a RuleFile<'a>,
    pub(crate) chains: &'a Chains,
}

// Whether it is an abducible atom or its negation. Falsum is of no atom.
fn is_abducible(file: &RuleFile, o: Objective) -> bool
    ensures { result ≡ is_among (program_in file.now.bytes.now).abducibles (atom_number o.0) }
{
    let end = 12 + 2 * file.contents.abducibles;
    match conjugates::atom_of(o, file.contents.atoms) {
        Some(atom) => content::is_among(&file.bytes[12..end], atom),
        None => false,
    }
}

impl<'a> Source<'a> {
    // The bytes of an objective literal's entry, by its rules; none where one of them is a fact.
    fn rules_length(&self, o: Objective) -> Option<usize>
        requires { Stands self.now × (o.0 < 513) }
        ensures { (result ≡ cond (is_fact (all_rules (program_in self.now.file.now.bytes.now)) o.0) None
            (Some (5 + rules_length (all_rules (program_in self.now.file.now.bytes.now)) o.0)))
            × IfSome result (λ size. size < 65536) }
    {
        let mut total: usize = 5;
        let mut ahead = self.chains.first_of(o);
        while let Some(fold) = ahead {
            let body = self.file.body_of(fold);
            if body.is_empty() {
                return None;
            }
            total += 7 + body.len();
            ahead = self.chains.next_of(fold);
        }
        Some(total)
    }

    // The bytes of an objective literal's entry, if it has one.
    fn entry_length(&self, o: Objective) -> Option<usize>
        requires { Stands self.now × (o.0 < 513) }
        ensures { (result ≡ cond (has_entry (program_in self.now.file.now.bytes.now) o.0)
            (Some (5 + rules_length (all_rules (program_in self.now.file.now.bytes.now)) o.0)) None)
            × IfSome result (λ size. size < 65536) }
    {
        if is_abducible(self.file, o) {
            return None;
        }
        self.rules_length(o)
    }

    // The length of the dual.
    pub(crate) fn dual_length(&self) -> usize
        requires { Stands self.now }
        ensures { result ≡ dual_length (program_in self.now.file.now.bytes.now) }
    {
        let judged = literals::judged(self.file.contents.atoms);
        let mut total: usize = 0;
        // A number of the problem: the objective literal.
        for o in 0..judged {
            total += self.entry_length(Objective(o)).unwrap_or(0);
        }
        total + 3
    }

    // The entry of an objective literal: its field, then that of each of its folds, each into the part of the buffer that
    // begins where the one before ended.
    fn write_entry(&self, buffer: &mut [u8], o: Objective) -> usize
        requires { Stands self.now × ((o.0 < 513)
            × (length (encode_fields (entry (program_in self.now.file.now.bytes.now) o.0)) ≤ length buffer.old)) }
        ensures { Fills (encode_fields (entry (program_in self.now.file.now.bytes.now) o.0)) buffer.old result buffer.new }
    {
        let mut end = write_literal(buffer, self.chains, o);
        let mut ahead = self.chains.first_of(o);
        while let Some(fold) = ahead {
            let body = self.file.body_of(fold);
            let size = write_fold(&mut buffer[end..], fold, body);
            end += size;
            ahead = self.chains.next_of(fold);
        }
        end
    }

    // The same where it has an entry, and nothing where it has none.
    fn write_any_entry(&self, buffer: &mut [u8], o: Objective) -> usize
        requires { Stands self.now × ((o.0 < 513)
            × (length (encode_fields (entry_if_any (program_in self.now.file.now.bytes.now) o.0)) ≤ length buffer.old)) }
        ensures { Fills (encode_fields (entry_if_any (program_in self.now.file.now.bytes.now) o.0)) buffer.old result buffer.new }
    {
        match self.entry_length(o) {
            Some(_) => self.write_entry(buffer, o),
            None => 0,
        }
    }

    // The entries of all objective literals, falsum's last.
    pub(crate) fn write_entries(&self, buffer: &mut [u8]) -> usize
        requires { Stands self.now × (dual_length (program_in self.now.file.now.bytes.now) ≤ length buffer.old) }
        ensures { Fills (encode_fields (dual (program_in self.now.file.now.bytes.now))) buffer.old result buffer.new }
    {
        let judged = literals::judged(self.file.contents.atoms);
        let mut end: usize = 0;
        // A number of the problem: the objective literal.
        for o in 0..judged {
            let size = self.write_any_entry(&mut buffer[end..], Objective(o));
            end += size;
        }
        end
    }
}
