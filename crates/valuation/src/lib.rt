// One scenario over accepted papers, the first of 64 lanes: its verdict, its rounds and the bytes of its model.
#![tactic(auto)]

mod values;

ghost use Rattle.std.specs.Prelude.{◌≡◌, ◌≤◌, length};
ghost use Rattle.literals.specs.Numbering.{judged};
ghost use Rattle.papers.specs.Field.{numbers};
ghost use Rattle.papers.specs.Reading.{program_in};
ghost use Rattle.dual.specs.Bytes.{filled};
ghost use Rattle.model.specs.Model.{rounds, model_bytes, explains};
ghost use Rattle.verdicts.specs.VerdictLanes.{Stands, DecodedPapers};

use lanes::words::in_lane;
use values::write_values;
use verdicts::{AcceptedPapers, AskedFile, Room, explained_lanes};

// Whether the scenario is an explanation, and the round count of its model.
#[derive(Clone, Copy)]
pub struct Verdict {
    pub explains: bool,
    pub rounds: u64,
}

// Over decoded papers, with room for the model.
fn judge_decoded(papers: &AskedFile, scenario: u32, model: &mut [u8]) -> Verdict
    requires { DecodedPapers papers.now × (judged (program_in papers.now.decoded.file.now).atoms ≤ length model.old) }
    ensures { (result.explains ≡ explains (program_in papers.now.decoded.file.now) papers.now.query.now scenario)
        × (result.rounds ≡ rounds (program_in papers.now.decoded.file.now) scenario)
        × (model.new ≡ filled (model_bytes (program_in papers.now.decoded.file.now) scenario) model.old) }
{
    let settled = papers.decoded.settle(scenario);
    let trues = &settled.model.t;
    let falses = &settled.model.f;
    let atoms = papers.decoded.contents.atoms;
    write_values(model, trues, falses, literals::judged(atoms));
    let explained = explained_lanes(papers.query, atoms, trues, falses);
    Verdict {
        explains: in_lane(explained, 0),
        rounds: settled.rounds[0],
    }
}

// Over accepted papers, with the dual in its buffer and room for the model.
pub fn judge_accepted(papers: &AcceptedPapers, scenario: u32, model: &mut [u8]) -> Verdict
    requires { Stands papers.now × (judged (program_in papers.now.file.now.bytes.now).atoms ≤ length model.old) }
    ensures { (result.explains ≡ explains (program_in papers.now.file.now.bytes.now) (numbers papers.now.query.now) scenario)
        × (result.rounds ≡ rounds (program_in papers.now.file.now.bytes.now) scenario)
        × (model.new ≡ filled (model_bytes (program_in papers.now.file.now.bytes.now) scenario) model.old) }
{
    let mut room = Room::CLEAR;
    judge_decoded(&room.decode(papers), scenario, model)
}
