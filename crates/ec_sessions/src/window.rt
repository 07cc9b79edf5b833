// Windows of numbers, each of which is marked once.
ghost use Rattle.std.specs.Prelude.{◌≡◌, ◌==◌, ◌<◌, ◌^◌, ℕ};
ghost use Rattle.std.specs.Int.{bit_at};
ghost use Rattle.ec_sessions.specs.Windows.{has, moved_past, mark_answer, after_mark};

/// The numbers up to `low` are marked, and of the eight behind it those whose bit is set, the lowest bit first.
#[derive(Clone, Copy, Debug, Drop, PartialEq, Eq)]
pub struct Window {
    pub low: u64,
    pub mask: u8,
}

/// What a mark answers.
#[derive(Clone, Copy, Debug, Drop, PartialEq, Eq)]
pub enum Marked {
    Marked,
    Already,
    /// Above the eight numbers behind the window's `low`, which is shown.
    Beyond(u64),
}

impl Window {
    pub fn has(&self, n: u64) -> bool
        ensures { result ≡ has self.now n }
    {
        n <= self.low || is_set(self.mask, n - self.low - 1)
    }

    /// Marks a number. `low` then moves past all marked ones.
    #[tactic(auto, unfolding(crate::specs::Windows::marked))]
    pub fn mark(&mut self, n: u64) -> Marked
        requires { self.old.low < 2 ^ 62 }
        ensures answer { result ≡ mark_answer self.old n }
        ensures window { self.new ≡ after_mark self.old n }
    {
        if n > self.low + 8 {
            return Marked::Beyond(self.low);
        }
        if self.has(n) {
            return Marked::Already;
        }
        let mask = self.mask | 1 << (n - self.low - 1);
        *self = moved_past(self.low, mask);
        Marked::Marked
    }
}

fn is_set(mask: u8, place: u64) -> bool
    ensures { result ≡ (bit_at mask place == 1) }
{
    place < 8 && (mask >> place) & 1 == 1
}

fn moved_past(low: u64, mask: u8) -> Window
    requires { low < 2 ^ 62 }
    ensures { result ≡ moved_past 8 low mask }
{
    let mut window = Window { low, mask };
    'bits: for _ in 0..8_u8 {
        if window.mask % 2 == 0 {
            break 'bits;
        }
        window.low += 1;
        window.mask /= 2;
    }
    window
}
