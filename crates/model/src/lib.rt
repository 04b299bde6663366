// The well-founded model of a scenario: its definitions stand in specs/, its laws in proofs/. The functions that make it are in the crates
// from lanes to valuation.
#![tactic(auto)]

ghost use Rattle.std.specs.Prelude.{◌≡◌, ◌^◌, ◌≤◌};

// How many scenarios there are.
pub fn scenario_count(abducibles: usize) -> u32
    requires { abducibles ≤ 16 }
    ensures { result ≡ 3 ^ abducibles }
{
    3u32.pow(abducibles as u32)
}
