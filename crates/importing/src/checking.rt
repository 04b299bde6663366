// The third and the fourth pass: the file's own checks of the rules and of the integrity rules, and how long their fields are.
ghost use Rattle.std.specs.Prelude.{◌≡◌, ◌≤◌};
ghost use Rattle.papers.specs.Told.{check_told};
ghost use Rattle.text.specs.Briefly.{tag_byte};
ghost use Rattle.importing.specs.Passes.{Typed, typed, Flagged, fixed_in, line_number, RunTells, RunsTell};

use papers::Fault;
use text::line::{Brief, LineKind, read_line};
use text::{TextFault, TextRefusal};

// A line of which there may be so many more: its count, its length, and that no rule is headed by an abducible or its negation.
#[tactic(auto, unfolding(papers::specs::Told::check_told, crate::specs::Passes::line_number, crate::specs::Passes::fixed_in))]
fn check_line(line: Brief, room: usize, flags: &[bool; 256]) -> Result<(), Fault>
    requires { line.count ≤ 18 }
    ensures { check_told result
        ≡ line_number line (tag_byte line.kind) room (fixed_in line (tag_byte line.kind) flags.now) }
{
    if room == 0 {
        return Err(Fault::Overfull);
    }
    if !fields::length_allowed(line.kind.tag(), 2 * line.count) {
        return Err(Fault::Misfit);
    }
    if line.kind == LineKind::Rule && flags[usize::from(line.atom)] {
        return Err(Fault::FixedFault);
    }
    Ok(())
}

// Of one kind of fields, of which there may be so many: their length.
fn check_run(
    text: &[u8],
    flags: &[bool; 256],
    kind: LineKind,
    most: usize,
) -> Result<usize, TextRefusal>
    requires { Typed text.now
        × (Flagged flags.now (typed text.now).abducibles
        × ((4 ≤ tag_byte kind)
        × (most ≤ 1024))) }
    ensures { RunTells text.now (tag_byte kind) most result }
{
    let mut at = 0;
    let mut room = most;
    let mut size = 0;
    while let Some((line, end)) = read_line(text, at)? {
        if line.kind == kind {
            if let Err(fault) = check_line(line, room, flags) {
                return Err(TextRefusal {
                    fault: TextFault::File(fault),
                    place: line.start,
                });
            }
            room -= 1;
            size += 3 + 2 * line.count;
        }
        at = end;
    }
    Ok(size)
}

// "Then the file's own numbers, in the order its fields are checked": the rules, then the integrity rules; the lengths of both.
pub(crate) fn check_runs(text: &[u8], flags: &[bool; 256]) -> Result<(usize, usize), TextRefusal>
    requires { Typed text.now × Flagged flags.now (typed text.now).abducibles }
    ensures { RunsTell text.now result }
{
    let rules = check_run(text, flags, LineKind::Rule, 1024)?;
    let integrity = check_run(text, flags, LineKind::Integrity, 256)?;
    Ok((rules, integrity))
}
