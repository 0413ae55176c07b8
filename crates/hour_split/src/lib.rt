// Split: the market maximum of a border's direction, after the first match.
#![tactic(auto)]

ghost use Rattle.std.specs.Prelude.{◌≡◌, ◌+◌, ◌-◌, ◌≤◌, ◌<◌, ◌^◌, pos};
ghost use Rattle.rules.specs.Split.{bilateral_part, market_maximum};
ghost use Rattle.hour_split.specs.Flow.{balance_of};

// What runs in a direction of a border, and what runs against it.
#[derive(Clone, Copy, Debug, PartialEq, Eq)]
pub struct Flow {
    pub along: u32,
    pub against: u32,
}

impl Flow {
    // The balance in the direction, 0 where it runs the other way.
    pub fn net(self) -> u32
        ensures { result ≡ self.along - self.against }
    {
        self.along.saturating_sub(self.against)
    }

    pub fn reversed(self) -> Flow
        ensures along { result.along ≡ self.against }
        ensures against { result.against ≡ self.along }
    {
        Flow {
            along: self.against,
            against: self.along,
        }
    }
}

// "t = B × min(s, d) / d rounded up, and 0 when B ≤ 0": b is max(B, 0), so that d, at least b, is above 0 where it divides.
fn bilateral_part(b: u32, s: u32, d: u32) -> u32
    requires { b ≤ d }
    ensures { result ≡ bilateral_part (pos b) s d }
{
    if b == 0 {
        return 0;
    }
    let t = (u64::from(b) * u64::from(s.min(d))).div_ceil(u64::from(d));
    t as u32
}

// The executions' flow and the market flow of the direction, and the legacy flow in it.
pub fn market_maximum(capacity: u32, executions: Flow, market: Flow, legacy: u32) -> u32
    requires capacity_fits { capacity + executions.against < 2 ^ 32 }
    requires claims_fit { executions.along + market.along < 2 ^ 32 }
    ensures { result ≡ market_maximum capacity (balance_of executions) (balance_of market) legacy }
{
    let b = executions.net();
    let a = capacity + executions.reversed().net();
    let s = a.saturating_sub(legacy);
    let d = market.net().saturating_sub(legacy) + b;
    a - bilateral_part(b, s, d)
}
