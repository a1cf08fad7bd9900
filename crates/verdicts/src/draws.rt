// Pseudo-random numbers, and a checksum.
ghost use Rattle.std.specs.Prelude.{◌≡◌};
ghost use Rattle.verdicts.specs.Draws.{next_state, draw_of, drawn_around, sum_with};

/// A sequence of numbers that is the same in every run.
#[derive(Drop)]
pub struct Draws {
    state: u64,
}

impl Draws {
    pub(crate) fn new() -> Draws
        ensures { result.state ≡ 1 }
    {
        Draws { state: 1 }
    }

    /// The next number, of 31 bits.
    pub(crate) fn next(&mut self) -> u64
        ensures value { result ≡ draw_of (next_state self.old.state) }
        ensures state { self.new.state ≡ next_state self.old.state }
    {
        self.state = self
            .state
            .wrapping_mul(6364136223846793005)
            .wrapping_add(1442695040888963407);
        self.state >> 33
    }

    /// The next number from −half to half.
    pub(crate) fn around(&mut self, half: u16) -> i64
        ensures value { result ≡ drawn_around half (draw_of (next_state self.old.state)) }
        ensures state { self.new.state ≡ next_state self.old.state }
    {
        centred(self.next(), half)
    }
}

fn centred(n: u64, half: u16) -> i64
    ensures { result ≡ drawn_around half n }
{
    let half = half as u64;
    (n % (2 * half + 1)) as i64 - half as i64
}

/// A sum over all that was taken in.
#[derive(Drop)]
pub struct Sum {
    value: u64,
}

impl Sum {
    pub(crate) fn new() -> Sum
        ensures { result.value ≡ 14695981039346656037 }
    {
        Sum {
            value: 14695981039346656037,
        }
    }

    pub(crate) fn take(&mut self, v: u64)
        ensures { self.new.value ≡ sum_with self.old.value v }
    {
        self.value = (self.value ^ v).wrapping_mul(1099511628211);
    }

    pub(crate) fn value(&self) -> u64
        ensures { result ≡ self.now.value }
    {
        self.value
    }
}
