// The rest of a paper that is refused, as a part of it.
#![tactic(auto)]

ghost use Rattle.std.specs.Prelude.{◌≡◌, ◌≤◌, length, drop};
ghost use Rattle.papers.specs.Reading.{read_papers};
ghost use Rattle.papers.specs.Answers.{rest_of, part_start, rest_start};

use papers::Paper;
use reading::read_papers;

// The part of a paper from a place; the empty part at its end where the place is past that.
fn part_from(bytes: &[u8], place: usize) -> &[u8]
    ensures { (result.now ≡ drop place bytes.now) × (place ≤ length bytes.now → result.ref_ptr ≡ part_start bytes.entry place) }
{
    &bytes[place.min(bytes.len())..]
}

// The rest of the refused paper from its place, and the empty part at the sheet's end where neither
// is refused.
pub fn rest_of_paper<'a>(file: &'a [u8], sheet: &'a [u8]) -> &'a [u8]
    ensures { (result.now ≡ rest_of (read_papers file.now sheet.now) file.now sheet.now)
        × (result.ref_ptr ≡ rest_start (read_papers file.now sheet.now) file.entry sheet.entry) }
{
    let Err(refusal) = read_papers(file, sheet) else {
        return part_from(sheet, sheet.len());
    };
    match refusal.paper {
        Paper::File => part_from(file, refusal.place),
        Paper::Sheet => part_from(sheet, refusal.place),
    }
}
