// One field of the dual, written into the part of the buffer that it is lent.
ghost use Rattle.std.specs.Prelude.{◌≡◌, ◌∷◌, map, ◌+◌, ◌*◌, ◌<◌, ◌≤◌, get_or, length, None};
ghost use Rattle.literals.specs.Numbering.{default_conjugate};
ghost use Rattle.literals.specs.BodyLiterals.{body_number, body_conjugate, conjugate_number};
ghost use Rattle.papers.specs.Field.{numbers};
ghost use Rattle.papers.specs.Encoding.{encode_numbers, encode_field};
ghost use Rattle.dual.specs.Bytes.{filled};
ghost use Rattle.dual_writer.specs.Chains.{Chain, folds_at};

use crate::chains::Chains;
use field_writer::{put_heading, put_number};
use literals::bodies::{BodyLiteral, body_number};
use literals::{Fold, Literal, Objective};
use numbered::body_literal_at;

// The default conjugate of a literal that was read: two bytes, so it is one of 16,384 atoms, whatever the file's count.
fn conjugate_of(l: Literal) -> Literal
    requires { l.0 < 65536 }
    ensures { (result.0 ≡ default_conjugate l.0) × (result.0 < 65536) }
{
    conjugates::default_conjugate_number(l, 16384).unwrap_or(l)
}

// The default conjugate of a body literal that was read: "Its default conjugate is itself", where it is u.
fn body_conjugate(l: BodyLiteral) -> BodyLiteral
    requires { body_number l < 65536 }
    ensures { (result ≡ body_conjugate l) × (body_number result < 65536) }
{
    match l {
        BodyLiteral::Is(literal) => BodyLiteral::Is(conjugate_of(literal)),
        BodyLiteral::Undefined => BodyLiteral::Undefined,
    }
}

// 09: the fold number, and the default conjugate of each body literal.
pub(crate) fn write_fold(buffer: &mut [u8], fold: Fold, body: &[u8]) -> usize
    requires { (5 + length body.now ≤ length buffer.old)
        × ((fold.0 < 65536)
        × ((length body.now ≤ 32)
        × (length body.now ≡ 2 * length (numbers body.now)))) }
    ensures { (result ≡ 5 + length body.now)
        × (buffer.new
        ≡ filled (encode_field 0x09 (encode_numbers (fold.0 ∷ map conjugate_number (numbers body.now)))) buffer.old) }
{
    let size = body.len();
    put_heading(buffer, 0x09, 2 + size, fold.0);
    // By index: a literal's conjugate stands at its place.
    for i in 0..size / 2 {
        let conjugate = body_conjugate(body_literal_at(body, 2 * i));
        put_number(buffer, 5 + 2 * i, body_number(conjugate));
    }
    5 + size
}

// 08: the objective literal, and the fold numbers of its rules.
pub(crate) fn write_literal(buffer: &mut [u8], chains: &Chains, o: Objective) -> usize
    requires { Chain chains.now.next (get_or chains.now.first o.0 None) (folds_at chains.now.next (get_or chains.now.first o.0 None))
        × ((5 + 2 * length (folds_at chains.now.next (get_or chains.now.first o.0 None)) ≤ length buffer.old)
        × (o.0 < 513)) }
    ensures { (result ≡ 5 + 2 * length (folds_at chains.now.next (get_or chains.now.first o.0 None)))
        × (buffer.new
        ≡ filled (encode_field 0x08 (encode_numbers (o.0 ∷ folds_at chains.now.next (get_or chains.now.first o.0 None)))) buffer.old) }
{
    let count = chains.count_of(o);
    put_heading(buffer, 0x08, 2 + 2 * count, o.0);
    let mut at: usize = 5;
    let mut ahead = chains.first_of(o);
    while let Some(fold) = ahead {
        put_number(buffer, at, fold.0);
        at += 2;
        ahead = chains.next_of(fold);
    }
    at
}
