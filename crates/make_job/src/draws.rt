ghost use Rattle.std.specs.Prelude.{◌≡◌};

use std::marker::Model;

/// The draws of a `make`, which contracts see as the state from which the next one is made.
#[derive(Debug, Drop)]
pub struct Draws {
    state: u32,
}

impl Model for Draws {
    ghost use Rattle.std.specs.Prelude.{ℕ};

    ghost Value = { ℕ };

    ghost view = { λ d. d.state };
}

impl Draws {
    ghost use Rattle.make_model.specs.Draws.{draw as draw_of};

    /// The draws that begin at this state.
    pub fn new(state: u32) -> Draws
        ensures { result ≡ state }
    {
        Draws { state }
    }

    /// The next number, up to 32,767.
    #[tactic(auto, unfolding(make_model::specs::Draws::next_state))]
    pub fn draw(&mut self) -> u32
        ensures { draw_of self.old ≡ (result, self.new) }
    {
        let next = (u64::from(self.state) * 1_103_515_245 + 12_345) % 2_147_483_648;
        self.state = next as u32;
        self.state / 65_536
    }
}
