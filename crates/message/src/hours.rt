// The hours that a map names.
ghost use Rattle.std.specs.Prelude.{◌≡◌, ◌^◌, ◌<◌, MatchOption};
ghost use Rattle.std.specs.Iterator.{at_most};
ghost use Rattle.rules.specs.Message.{map_width};
ghost use Rattle.message.specs.Hours.{FirstHour};

use std::marker::Model;

// The hours that a map names, rising, each counted from 0. A clause sees it as the map of the hours that are left.
#[derive(Drop)]
pub struct Hours {
    left: u32,
}

impl Model for Hours {
    ghost use Rattle.std.specs.Prelude.{ℕ, ◌^◌, ◌<◌};
    ghost use Rattle.rules.specs.Message.{map_width};

    ghost Value = { ℕ };

    ghost view = { λ h. h.left };

    ghost invariant = { λ h. h.left < 2 ^ map_width };
}

impl Hours {
    pub fn of(map: u32) -> Self
        requires { map < 2 ^ map_width }
        ensures { result ≡ map }
    {
        Hours { left: map }
    }
}

impl Iterator for Hours {
    type Item = usize;

    ghost next_gives = { λ s r t. MatchOption r ((s ≡ 0) × (t ≡ 0)) (λ h. FirstHour s h t) };

    ghost remaining = { λ s. at_most s };

    fn next(&mut self) -> Option<usize> {
        if self.left == 0 {
            return None;
        }
        let zeros = self.left.leading_zeros();
        self.left -= 1 << (31 - zeros);
        // The map has 25 of 32 bits, so 7 are above it.
        Some((zeros - 7) as usize)
    }
}
