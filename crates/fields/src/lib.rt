// One field: one-byte tag, two-byte length, content.
#![tactic(auto)]

ghost use Rattle.std.specs.Prelude.{◌≡◌, ◌+◌, ◌≤◌, length, drop, slice_get, IfOk};
ghost use Rattle.papers.specs.Field.{fewest, most, length_allowed, field_fault, read_field};
ghost use Rattle.papers.specs.Told.{check_told, read_told, value_told};
ghost use Rattle.papers.specs.Answers.{part_start};

use numbered::number_at;
use papers::{Fault, Paper, Refusal, tags};

// The tag at a place; past the end there is none.
pub fn tag_at(bytes: &[u8], place: usize) -> Option<u8>
    ensures { result ≡ slice_get bytes.now place }
{
    bytes.get(place).copied()
}

// How many two-byte numbers a field of this tag has at least.
#[tactic(auto, unfolding(papers::specs::Field::fewest))]
fn fewest_numbers(tag: u8) -> usize
    ensures { (result ≡ fewest tag) × (result ≤ 1) }
{
    match tag {
        tags::ATOMS | tags::RULE => 1,
        _ => 0,
    }
}

// And at most.
#[tactic(auto, unfolding(papers::specs::Field::most))]
fn most_numbers(tag: u8) -> usize
    ensures { (result ≡ most tag) × (result ≤ 17) }
{
    match tag {
        tags::ATOMS => 1,
        tags::RULE => 17,
        tags::END => 0,
        _ => 16,
    }
}

#[tactic(auto, unfolding(papers::specs::Field::length_allowed))]
pub fn length_allowed(tag: u8, len: usize) -> bool
    ensures { result ≡ length_allowed tag len }
{
    if tag == tags::EDITION {
        return len == 1;
    }
    len % 2 == 0 && 2 * fewest_numbers(tag) <= len && len <= 2 * most_numbers(tag)
}

// Whether a whole field of this tag stands at a place. `full` says that no more of them may.
fn check_field(bytes: &[u8], tag: u8, full: bool, place: usize) -> Result<(), Fault>
    requires { place ≤ length bytes.now }
    ensures { check_told result ≡ field_fault tag full (drop place bytes.now) }
{
    let left = bytes.len() - place;
    if left < 3 {
        return Err(Fault::Cut);
    }
    if bytes[place] != tag {
        return Err(Fault::StrayField);
    }
    if full {
        return Err(Fault::Overfull);
    }
    let size = number_at(bytes, place + 1);
    if !length_allowed(tag, size) {
        return Err(Fault::Misfit);
    }
    if left - 3 < size {
        return Err(Fault::Cut);
    }
    Ok(())
}

// The content of the field of this tag at a place of a paper: the part of it that begins three bytes after.
pub fn read_field(
    bytes: &[u8],
    paper: Paper,
    tag: u8,
    full: bool,
    place: usize,
) -> Result<&[u8], Refusal>
    requires { place ≤ length bytes.now }
    ensures told { value_told (λ content. content.now) result ≡ read_told (λ l. l) (read_field paper tag full place bytes.now) }
    ensures stands { IfOk result (λ content. content.ref_ptr ≡ part_start bytes.entry (place + 3)) }
{
    check_field(bytes, tag, full, place).map_err(|fault| fault.at(paper, place))?;
    let start = place + 3;
    Ok(&bytes[start..start + number_at(bytes, place + 1)])
}
