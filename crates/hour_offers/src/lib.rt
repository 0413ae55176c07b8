// One hour's accepted lodgements as records: whose energy it is, offers and executions (document 01, "Match" and "Executions").
#![tactic(auto)]

ghost use Rattle.std.specs.Prelude.{◌≡◌};

// Whose energy it is: an accepted lodgement's number, and its unit's number, border, side and legacy mark, and the unit's loss.
#[derive(Clone, Copy, Debug, Default, PartialEq, Eq)]
pub struct Holder {
    pub number: u32,
    pub unit: u32,
    pub border: u32,
    pub purchase: bool,
    pub legacy: bool,
    pub loss: u32,
}

// An accepted offer in one hour: what is still offered, and what is matched of it.
#[derive(Clone, Copy, Debug, Default, PartialEq, Eq)]
pub struct Offer {
    pub holder: Holder,
    pub price: u32,
    pub offered: u32,
    pub matched: u32,
}

// An accepted execution in one hour.
#[derive(Clone, Copy, Debug, Default, PartialEq, Eq)]
pub struct Execution {
    pub holder: Holder,
    pub energy: u32,
}

impl Offer {
    // An offer before its hour's first match.
    pub fn new(holder: Holder, price: u32, offered: u32) -> Offer
        ensures { result ≡ record { holder = holder; price = price; offered = offered; matched = 0 } }
    {
        Offer {
            holder,
            price,
            offered,
            matched: 0,
        }
    }
}

impl Execution {
    pub fn new(holder: Holder, energy: u32) -> Execution
        ensures { result ≡ record { holder = holder; energy = energy } }
    {
        Execution { holder, energy }
    }
}
