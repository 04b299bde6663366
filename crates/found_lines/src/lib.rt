// The line that tells an explanation: at most 512 bytes.
#![tactic(auto)]

ghost use Rattle.std.specs.Prelude.{◌≡◌, ◌+◌, ◌<◌, ◌≤◌, ◌^◌, length};
ghost use Rattle.papers.specs.Field.{numbers};
ghost use Rattle.decimals.specs.Printing.{Printed};
ghost use Rattle.decimals.specs.Text.{spaced};
ghost use Rattle.found_lines.specs.FoundLine.{assumption, assumptions, found_line};
ghost use Rattle.found_lines.specs.FoundLine.{sign as sign_of};

use decimals::Printer;
use literals::Atom;
use numbered::atom_at;

// By hand: what is printed of an abducible hangs on the scenario.
#[tactic(auto, using(crate::proofs::Items::sign_assumed, crate::proofs::Items::sign_other))]
fn sign(digit: u32) -> u8
    ensures { result ≡ sign_of digit }
{
    if digit == 1 { b'+' } else { b'-' }
}

// An abducible by its digit: nothing where it is open.
fn put_assumption(page: &mut Printer, atom: Atom, digit: u32)
    requires { page.old.at < 2 ^ 40 }
    ensures item { Printed (spaced (assumption atom.0 digit)) page.old page.new }
    ensures short { page.new.at ≤ page.old.at + 22 }
{
    if digit != 0 {
        page.put_byte(b' ');
        page.put_number(u64::from(atom.0));
        page.put_byte(sign(digit));
    }
}

// Each assumed or ruled-out abducible of a scenario.
fn put_assumptions(page: &mut Printer, scenario: u32, abducibles: &[u8])
    requires { (page.old.at < 2 ^ 33) × (length abducibles.now ≤ 32) }
    ensures items { Printed (spaced (assumptions (numbers abducibles.now) scenario)) page.old page.new }
    ensures short { page.new.at ≤ page.old.at + 352 }
{
    let mut rest = scenario;
    for pair in abducibles.chunks_exact(2) {
        put_assumption(page, atom_at(pair, 0), rest % 3);
        rest /= 3;
    }
}

// `found 1 1+`: the scenario, and the abducibles' numbers as they stand in a file.
pub fn write_found(page: &mut Printer, scenario: u32, abducibles: &[u8])
    requires { (page.old.at < 2 ^ 32) × (length abducibles.now ≤ 32) }
    ensures line { Printed (found_line scenario (numbers abducibles.now)) page.old page.new }
    ensures short { page.new.at ≤ page.old.at + 512 }
{
    page.put_text("found ");
    page.put_number(u64::from(scenario));
    put_assumptions(page, scenario, abducibles);
    page.put_byte(b'\n');
}
