ghost use Rattle.std.specs.Prelude.{◌≡◌};
ghost use Rattle.judge.specs.Verdict.{nobody};

// What the strip would hold, with the answer.
#[derive(Clone, Copy)]
pub struct Verdict {
    pub answer: u32,
    pub named: u32,
    pub count: u32,
    pub length: u32,
    pub ring: [u8; 32],
}

impl Verdict {
    // The verdict of nobody.
    pub fn nobody(answer: u32) -> Verdict
        ensures { result ≡ nobody answer }
    {
        Verdict {
            answer,
            named: 0,
            count: 0,
            length: 0,
            ring: [255u8; 32],
        }
    }
}
