// What an energy counts for at its border, and what is kept of it when some of that is taken (document 02, K2). Most borders have no loss, and these need
// no division.
#![tactic(auto)]

ghost use Rattle.std.specs.Prelude.{◌≡◌};
ghost use Rattle.rules.specs.Borders.{border_figure, kept_energy};

const WHOLE: u64 = rules::WHOLE as u64;

// "e × 10,000 / (10,000 + l) rounded up"
pub fn figure(loss: u32, energy: u32) -> u32
    ensures { result ≡ border_figure loss energy }
{
    if loss == 0 {
        return energy;
    }
    let figure = (u64::from(energy) * WHOLE).div_ceil(WHOLE + u64::from(loss));
    figure as u32
}

// "the largest energy, no more than was matched or executed, that has the border figure left to it"
pub fn kept(loss: u32, energy: u32, taken: u32) -> u32
    ensures { result ≡ kept_energy loss energy taken }
{
    if loss == 0 {
        return energy.saturating_sub(taken);
    }
    let left = figure(loss, energy).saturating_sub(taken);
    let most = u64::from(left) * (WHOLE + u64::from(loss)) / WHOLE;
    u64::from(energy).min(most) as u32
}
