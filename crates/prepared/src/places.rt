// The places of what is prepared for an accessor, lent from one accessor to the next.
#[derive(Drop)]
pub struct Places {
    pub distances: [u16; 256],
    pub rows: [[u64; 4]; 256],
    pub persons: [u64; 4],
}

impl Places {
    ghost use Rattle.std.specs.Prelude.{◌≡◌, replicate};

    // With zeros in them.
    pub fn new() -> Places
        ensures { result ≡ record { distances = replicate 256 0; rows = replicate 256 (replicate 4 0); persons = replicate 4 0 } }
    {
        Places {
            distances: [0; 256],
            rows: [[0; 4]; 256],
            persons: [0; 4],
        }
    }
}
