// The bytes of a model: 0 undefined, 1 true, 2 false, 3 both.
ghost use Rattle.std.specs.Prelude.{◌≡◌, ◌≤◌, length};
ghost use Rattle.dual.specs.Bytes.{filled};
ghost use Rattle.model.specs.Model.{value_byte, value_bytes};
ghost use Rattle.lanes.specs.Lanes.{lane};

use lanes::words::in_lane;

#[tactic(auto, unfolding(model::specs::Model::value_byte))]
fn value_byte(held: bool, failed: bool) -> u8
    ensures { result ≡ value_byte held failed }
{
    match (held, failed) {
        (false, false) => 0,
        (true, false) => 1,
        (false, true) => 2,
        (true, true) => 3,
    }
}

// The bytes of the first lane, into the start of a lent buffer. A count: a row has room for the most literals of any file.
pub(crate) fn write_values(model: &mut [u8], trues: &[u64; 513], falses: &[u64; 513], count: usize)
    requires { (count ≤ 513) × (count ≤ length model.old) }
    ensures { model.new ≡ filled (value_bytes (lane count 0 trues.now) (lane count 0 falses.now)) model.old }
{
    for (o, byte) in model[..count].iter_mut().enumerate() {
        *byte = value_byte(in_lane(trues[o], 0), in_lane(falses[o], 0));
    }
}
