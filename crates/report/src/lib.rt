// The first and the last line that the desk program prints, and that of a refusal. Each is at most 512 bytes long.
#![tactic(auto)]

ghost use Rattle.std.specs.Prelude.{◌≡◌, ◌+◌, ◌<◌, ◌≤◌, ◌^◌, length};
ghost use Rattle.papers.specs.Outcome.{refusal};
ghost use Rattle.decimals.specs.Printing.{Printed};
ghost use Rattle.report.specs.Lines.{state_word, paper_word, heading_line, last_line, refused_line};

use decimals::Printer;
use papers::Paper;
use steps::State;

// `atoms 2 abducibles 1 scenarios 3`
pub fn write_heading(page: &mut Printer, atoms: u64, abducibles: u64, scenarios: u64)
    requires { page.old.at < 2 ^ 32 }
    ensures line { Printed (heading_line atoms abducibles scenarios) page.old page.new }
    ensures short { page.new.at ≤ page.old.at + 512 }
{
    page.put_text("atoms ");
    page.put_number(atoms);
    page.put_text(" abducibles ");
    page.put_number(abducibles);
    page.put_text(" scenarios ");
    page.put_number(scenarios);
    page.put_byte(b'\n');
}

// Words by hand: a `write!` may fail by its contract, and these lines cannot.
#[tactic(auto, unfolding(crate::specs::Lines::state_word))]
fn state_word(state: State) -> &'static str
    ensures word { result.now ≡ state_word state }
    ensures short { length result.now ≤ 5 }
{
    match state {
        State::Going => "going",
        State::Full => "full",
        State::Ended => "ended",
    }
}

// `ended tried 3 rounds 3`
pub fn write_last(page: &mut Printer, state: State, tried: u64, rounds: u64)
    requires { page.old.at < 2 ^ 32 }
    ensures line { Printed (last_line state tried rounds) page.old page.new }
    ensures short { page.new.at ≤ page.old.at + 512 }
{
    page.put_text(state_word(state));
    page.put_text(" tried ");
    page.put_number(tried);
    page.put_text(" rounds ");
    page.put_number(rounds);
    page.put_byte(b'\n');
}

#[tactic(auto, unfolding(crate::specs::Lines::paper_word))]
fn paper_word(paper: Paper) -> &'static str
    ensures word { result.now ≡ paper_word paper }
    ensures short { length result.now ≤ 5 }
{
    match paper {
        Paper::File => "file",
        Paper::Sheet => "sheet",
    }
}

// `refused 6 sheet 0`. Of any number, as `refused_line` is.
pub fn write_refused(page: &mut Printer, number: u8, paper: Paper, place: usize)
    requires { page.old.at < 2 ^ 32 }
    ensures line { Printed (refused_line (refusal number paper place)) page.old page.new }
    ensures short { page.new.at ≤ page.old.at + 512 }
{
    page.put_text("refused ");
    page.put_number(u64::from(number));
    page.put_text(" ");
    page.put_text(paper_word(paper));
    page.put_text(" ");
    page.put_number(place as u64);
    page.put_byte(b'\n');
}
