// What single values of a message are refused for: 4 and 5 of the table (document 01, "The lodging message").
#![tactic(auto)]

ghost use Rattle.std.specs.Prelude.{◌≡◌, ◌||◌};
ghost use Rattle.rules.specs.Units.{bad_number};
ghost use Rattle.rules.specs.Message.{bad_map, bad_contract, top_price};
ghost use Rattle.message_ranges.specs.Slots.{bad_slot};

use rules::{MAPS, MAX_PRICE, bad_number};

// 4: an empty map, or one beyond 25 bits.
#[tactic(auto, unfolding(rules::specs::Message::bad_map))]
pub fn bad_map(map: u32) -> bool
    ensures { result ≡ bad_map map }
{
    map == 0 || MAPS <= map
}

// The contract is 0 for an offer, and a number for an execution.
#[tactic(auto, unfolding(rules::specs::Message::bad_contract))]
fn bad_contract(execution: bool, contract: u32) -> bool
    ensures { result ≡ bad_contract execution contract }
{
    if execution {
        bad_number(contract)
    } else {
        contract != 0
    }
}

// A unit's number or a contract outside its range.
pub fn bad_key(execution: bool, unit: u32, contract: u32) -> bool
    ensures { result ≡ (bad_number unit || bad_contract execution contract) }
{
    bad_number(unit) || bad_contract(execution, contract)
}

// The highest price of a kind.
#[tactic(auto, unfolding(rules::specs::Message::top_price))]
fn top_price(execution: bool) -> u32
    ensures { result ≡ top_price execution }
{
    if execution { 0 } else { MAX_PRICE }
}

// An hour's energy or price is outside its range, an energy being at most `top`. As the rules' `bad_hour` says it: an unnamed hour has an
// energy and a price too.
#[tactic(auto, unfolding(crate::specs::Slots::bad_slot))]
pub fn bad_slot(top: u32, execution: bool, set: bool, energy: u32, price: u32) -> bool
    ensures { result ≡ bad_slot top execution set energy price }
{
    if set {
        energy == 0 || top < energy || top_price(execution) < price
    } else {
        energy != 0 || price != 0
    }
}
