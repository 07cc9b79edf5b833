// The numbers that are drawn, one after the other.
ghost use Rattle.std.specs.Prelude.{◌≡◌};
ghost use Rattle.ec_script.specs.OfGenerator.Generator.{next, drawn};

const MULTIPLIER: u64 = 6_364_136_223_846_793_005;

const INCREMENT: u64 = 1_442_695_040_888_963_407;

// How far to the right the bits stand that a draw takes.
const SHIFT: u32 = 33;

/// Draws numbers, of which each follows from the one before.
#[derive(Clone, Copy, Debug, Drop, PartialEq, Eq)]
pub(crate) struct Draws {
    pub(crate) state: u64,
}

impl Draws {
    /// Draws from this number on.
    pub(crate) fn of(number: u32) -> Draws
        ensures { result.state ≡ number }
    {
        Draws {
            state: number as u64,
        }
    }

    /// The next number, below 2^31.
    pub(crate) fn draw(&mut self) -> u64
        ensures state { self.new.state ≡ next self.old.state }
        ensures value { result ≡ drawn self.new.state }
    {
        self.state = self.state.wrapping_mul(MULTIPLIER).wrapping_add(INCREMENT);
        self.state >> SHIFT
    }
}
