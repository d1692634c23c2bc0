//! Draws of numbers.
ghost use Rattle.std.specs.Prelude.{◌≡◌, ◌<◌};
ghost use Rattle.scr_made.specs.Draws.{draw, next_state};

/// The state from which the next draw comes.
#[derive(Clone, Copy)]
pub struct Draws {
    pub state: u64,
}

impl Draws {
    /// A number below this one.
    #[tactic(auto, unfolding(crate::specs::Draws::draw))]
    pub fn draw(&mut self, below: u32) -> u32
        requires { 0 < below }
        ensures number { result ≡ (draw below self.old.state).0 }
        ensures state { self.new.state ≡ (draw below self.old.state).1 }
        ensures small { result < below }
    {
        self.state = next_state(self.state);
        (self.state / (1 << 32) % u64::from(below)) as u32
    }
}

/// The state after the next draw.
#[tactic(auto, unfolding(crate::specs::Draws::next_state))]
fn next_state(state: u64) -> u64
    ensures { result ≡ next_state state }
{
    state
        .wrapping_mul(6_364_136_223_846_793_005)
        .wrapping_add(1_442_695_040_888_963_407)
}
