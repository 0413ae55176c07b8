// Executions cut back to what the borders leave them (document 01, "Executions").
#![tactic(auto)]

ghost use Rattle.std.specs.Prelude.{◌≡◌, List, Option, ℕ, ◌+◌, ◌≤◌, ◌<◌, get_or, length};
ghost use Rattle.rules.specs.Lists.{All, Each};
ghost use Rattle.rules.specs.Match.{Offer};
ghost use Rattle.rules.specs.Executions.{less_each, cut_all};
ghost use Rattle.hour_offers.specs.View.{executions_in};
ghost use Rattle.hour_offers.specs.Sound.{ExecutionInRange};
ghost use Rattle.hour_borders.specs.Directions.{published_in};
ghost use Rattle.hour_borders.specs.Flows.{MarketFlows, ExecutionFlows, Small};
ghost use Rattle.hour_cut.specs.Cuts.{Enough, Lowered};

use hour_offers::Execution;
use rules::DIRECTIONS;

// Market and executions together, by direction. "The bilateral maximum is E less the final market balance": the executions' balance passes it
// by as much as the two together pass E. Two flows fit when added: that is asked. (Lengths: DECISIONS.)
fn together(market: &[u32; DIRECTIONS], executions: &[u32; DIRECTIONS]) -> [u32; DIRECTIONS]
    requires market_small { Small market.now }
    requires executions_small { Small executions.now }
    ensures { (d : ℕ) → d < 8 → get_or result d 0 ≡ get_or market.now d 0 + get_or executions.now d 0 }
{
    std::array::from_fn(|d| market[d] + executions[d])
}

// Each of the executions without what it loses. (By index: DECISIONS.)
fn reduce(executions: &mut [Execution], lost: &[u32])
    requires { length lost.now ≡ length executions.old }
    ensures { executions_in executions.new ≡ less_each lost.now (executions_in executions.old) }
{
    for (i, x) in executions.iter_mut().enumerate() {
        x.energy = crossing::kept(x.holder.loss, x.energy, lost[i]);
    }
}

// The executions after cuts, by the flows of the final match and of the executions before the cut; it gives their flows then. Most hours have no excess, and
// their executions are not gone over again. (Lengths: DECISIONS.)
pub fn cut(
    executions: &mut [Execution],
    capacities: &[Option<u32>; DIRECTIONS],
    market: &[u32; DIRECTIONS],
    before: &[u32; DIRECTIONS],
) -> [u32; DIRECTIONS]
    requires few { length executions.old ≤ 128 }
    requires in_range { All ExecutionInRange (executions_in executions.old) }
    requires market_small { Small market.now }
    requires before_small { Small before.now }
    ensures cut { (os : List Offer)
        → MarketFlows market.now os
        → ExecutionFlows before.now (executions_in executions.old)
        → All (Enough os (executions_in executions.old)) (published_in capacities.now)
        → executions_in executions.new ≡ cut_all os (published_in capacities.now) (executions_in executions.old) }
    ensures lowered { Each Lowered (executions_in executions.old) (executions_in executions.new) }
    ensures flows { ExecutionFlows before.now (executions_in executions.old) → ExecutionFlows result (executions_in executions.new) }
{
    let both = together(market, before);
    let over = hour_borders::excesses(capacities, &both);
    if !hour_borders::passed(&over) {
        return *before;
    }
    let lost = hour_share::deductions(&over, executions, |x| {
        hour_borders::amount(&x.holder, x.energy)
    });
    reduce(executions, &lost);
    hour_borders::execution_flows(executions)
}
