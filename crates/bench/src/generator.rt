// Numbers from a seed, and the mixing of numbers into a checksum: what makes a workload the same everywhere.
ghost use Rattle.std.specs.Prelude.{◌≡◌, ◌<◌};

#[derive(Clone, Copy)]
pub(crate) struct Generator {
    state: u64,
}

impl Generator {
    pub(crate) fn new(seed: u64) -> Generator {
        Generator { state: seed }
    }

    // The next number.
    pub(crate) fn draw(&mut self) -> u64 {
        self.state = self.state.wrapping_add(0x9E3779B97F4A7C15);
        let z = self.state;
        let z = (z ^ (z >> 30)).wrapping_mul(0xBF58476D1CE4E5B9);
        let z = (z ^ (z >> 27)).wrapping_mul(0x94D049BB133111EB);
        z ^ (z >> 31)
    }

    // A number below n, or 0 where n is 0.
    pub(crate) fn below(&mut self, n: u64) -> u64
        ensures { 0 < n → result < n }
    {
        let drawn = self.draw();
        if n == 0 { 0 } else { drawn % n }
    }

    // A place below n, or 0 where n is 0. Casts, since std has no `From` between a `usize` and a `u64`.
    pub(crate) fn place(&mut self, n: usize) -> usize
        ensures { 0 < n → result < n }
    {
        self.below(n as u64) as usize
    }

    // A number of 32 bits.
    pub(crate) fn wide(&mut self) -> u32 {
        (self.draw() >> 32) as u32
    }
}

// A checksum that has taken one more number in.
pub(crate) fn mixed(sum: u64, x: u64) -> u64 {
    (sum.rotate_left(5) ^ x).wrapping_mul(0x517CC1B727220A95)
}
