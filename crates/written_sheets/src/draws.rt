// Drawn numbers, which host/model/model.py repeats.
ghost use Rattle.std.specs.Prelude.{◌<◌};

// Phases about the edges of one, two and three groups.
const EDGES: [u32; 8] = [0, 1, 127, 128, 16_383, 16_384, 65_534, 65_535];

#[derive(Drop)]
pub(crate) struct Draws {
    state: u64,
}

impl Draws {
    pub(crate) fn new() -> Draws {
        Draws { state: 1 }
    }

    // From the high byte of the state, since its low bits soon repeat.
    pub(crate) fn below(&mut self, bound: u64) -> u64
        requires { 0 < bound }
        ensures { result < bound }
    {
        self.state = (self.state % 65_536 * 25_173 + 13_849) % 65_536;
        self.state / 256 % bound
    }

    // True by a share of 256.
    pub(crate) fn chance(&mut self, share: u64) -> bool {
        self.below(256) < share
    }

    // A phase of one, two or three groups, or about an edge.
    pub(crate) fn phase(&mut self) -> u32 {
        match self.below(4) {
            0 => EDGES[self.below(8) as usize],
            1 => self.below(128) as u32,
            2 => (128 + self.below(254) * 64 + self.below(64)) as u32,
            _ => (16_384 + self.below(192) * 256 + self.below(256)) as u32,
        }
    }
}
