// The second pass: which atoms are declared abducible, and the refusal of a seventeenth.
ghost use Rattle.std.specs.Prelude.{◌≡◌, ◌≤◌, take};
ghost use Rattle.importing.specs.Passes.{Typed, DeclareTells, flagged_from, list_of};

use arrays::put;
use papers::Fault;
use text::line::{LineKind, read_line};
use text::{TextFault, TextRefusal};

// Whether each atom is declared.
pub(crate) fn declare(text: &[u8]) -> Result<[bool; 256], TextRefusal>
    requires { Typed text.now }
    ensures { DeclareTells text.now result }
{
    let mut flags = [false; 256];
    let mut room: usize = 16;
    let mut at = 0;
    while let Some((line, end)) = read_line(text, at)? {
        let atom = usize::from(line.atom);
        if line.kind == LineKind::Abducible && !flags[atom] {
            if room == 0 {
                return Err(TextRefusal {
                    fault: TextFault::File(Fault::Misfit),
                    place: line.start,
                });
            }
            room -= 1;
            flags[atom] = true;
        }
        at = end;
    }
    Ok(flags)
}

// The abducible atoms, rising, in memory of fixed size: how many they are, and the first 17 of them.
#[derive(Drop)]
pub(crate) struct Abducibles {
    pub count: usize,
    pub numbers: [u16; 17],
}

impl Abducibles {
    pub(crate) fn numbers(&self) -> &[u16]
        requires { self.now.count ≤ 17 }
        ensures { result.now ≡ take self.now.count self.now.numbers }
    {
        &self.numbers[..self.count]
    }
}

// The flagged atoms below a count.
pub(crate) fn rising(flags: &[bool; 256], atoms: usize) -> Abducibles
    requires { atoms ≤ 256 }
    ensures { result ≡ list_of (flagged_from flags.now 0 atoms) }
{
    let mut count = 0;
    let mut numbers = [0; 17];
    // An index that is a number of the problem: the atom.
    for atom in 0..atoms {
        if flags[atom] {
            put(&mut numbers, count, atom as u16);
            count += 1;
        }
    }
    Abducibles { count, numbers }
}
