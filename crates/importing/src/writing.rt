// The last passes: the file is written, its rules and its integrity rules each by a pass over the lines.
ghost use Rattle.std.specs.Prelude.{◌≡◌, [], ◌∷◌, ◌<◌, length};
ghost use Rattle.papers.specs.Encoding.{encode_field, encode_run, encode_file};
ghost use Rattle.dual.specs.Bytes.{filled, Fills};
ghost use Rattle.text.specs.Briefly.{tag_byte};
ghost use Rattle.importing.specs.Passes.{typed, contents_in, LineFits, LineFills, RunFits, FileFits};

use crate::declaring::Abducibles;
use field_writer::{put_heading, write_end, write_field};
use papers::tags;
use text::line::{Brief, LineKind, read_line};
use text::numbers::numbers_in;

// The field of the line at a place, if it is of the kind; its length.
fn write_line(buffer: &mut [u8], text: &[u8], at: usize, line: Brief, kind: LineKind) -> usize
    requires { LineFits text.now at line (tag_byte kind) (length buffer.old) }
    ensures { LineFills text.now at (tag_byte kind) buffer.old result buffer.new }
{
    if line.kind != kind {
        return 0;
    }
    let numbers = numbers_in(text, at);
    write_field(buffer, kind.tag(), &numbers[..line.count])
}

// The fields of one kind of a text that was read, so that no line of it is refused; their length.
fn write_run(buffer: &mut [u8], text: &[u8], kind: LineKind) -> usize
    requires { RunFits text.now (tag_byte kind) (length buffer.old) }
    ensures { Fills (encode_run (tag_byte kind) (contents_in (tag_byte kind) text.now)) buffer.old result buffer.new }
{
    let mut at = 0;
    let mut end = 0;
    while let Ok(Some((line, next))) = read_line(text, at) {
        end += write_line(&mut buffer[end..], text, at, line, kind);
        at = next;
    }
    end
}

// Edition 1.
#[tactic(auto, unfolding(papers::specs::Encoding::encode_field, dual::specs::Bytes::filled))]
fn write_edition(buffer: &mut [u8])
    requires { 3 < length buffer.old }
    ensures { buffer.new ≡ filled (encode_field 0x01 (1 ∷ [])) buffer.old }
{
    buffer[..4].copy_from_slice(&[tags::EDITION, 0, 1, 1]);
}

// The file, field after field.
pub(crate) fn write_file(buffer: &mut [u8], text: &[u8], atoms: usize, abducibles: &Abducibles)
    requires { FileFits text.now atoms abducibles.now (length buffer.old) }
    ensures { buffer.new ≡ filled (encode_file (typed text.now)) buffer.old }
{
    write_edition(buffer);
    put_heading(&mut buffer[4..], tags::ATOMS, 2, atoms);
    let mut end = 9;
    end += write_field(&mut buffer[end..], tags::ABDUCIBLES, abducibles.numbers());
    end += write_run(&mut buffer[end..], text, LineKind::Rule);
    end += write_run(&mut buffer[end..], text, LineKind::Integrity);
    write_end(&mut buffer[end..]);
}
