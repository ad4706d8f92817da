//! The generator of a workload.

ghost use Rattle.std.specs.Prelude.{◌≡◌, ◌<◌};
ghost use Rattle.trace_maker.specs.Plan.{drawn, next_state};

// What is added to the state in a draw.
const STEP: u64 = 0x9e37_79b9_7f4a_7c15;

/// What is drawn from a state, and the state behind it.
#[tactic(auto, unfolding(crate::specs::Plan::drawn, crate::specs::Plan::next_state))]
pub fn draw(state: u64) -> (u64, u64)
    ensures drawn { result.0 ≡ drawn state }
    ensures next { result.1 ≡ next_state state }
{
    let next = state.wrapping_add(STEP);
    let first = (next ^ (next >> 30)).wrapping_mul(0xbf58_476d_1ce4_e5b9);
    let second = (first ^ (first >> 27)).wrapping_mul(0x94d0_49bb_1331_11eb);
    (second ^ (second >> 31), next)
}
