//! The generator's draws.
ghost use Rattle.std.specs.Prelude.{◌≡◌, ◌%◌};
ghost use Rattle.bench_gen.specs.Generator as generator;

/// The state of the generator.
#[derive(Drop)]
pub struct Draws {
    pub state: u32,
}

impl Draws {
    /// The next number, below 65536.
    pub fn draw(&mut self) -> u32
        ensures state { self.new.state ≡ generator.next self.old.state }
        ensures drawn { result ≡ generator.drawn self.new.state }
    {
        self.state = self.state.wrapping_mul(1664525).wrapping_add(1013904223);
        self.state / 65536
    }
}
