// The offers at a border, beside all offers of an hour: steps 1 to 4 change these alone, and most are domestic. The match changes all.
ghost use Rattle.std.specs.Prelude.{◌≡◌, ◌≤◌, length};
ghost use Rattle.hour_offers.specs.View.{offers_in};
ghost use Rattle.hour_match.specs.Orders.{Names};
ghost use Rattle.hour_match.specs.Walks.{named};
ghost use Rattle.withdraw_keep.specs.Abroad.{put_at};
ghost use Rattle.withdraw.specs.Beside.{Beside};

use arrayvec::ArrayVec;
use hour_offers::Offer;
use rules::LODGEMENTS;

// Their indices, and what stands there. They are two lists, since a step's parts are lent the offers as a slice.
#[derive(Drop)]
pub struct Abroad {
    pub places: ArrayVec<usize, LODGEMENTS>,
    pub offers: ArrayVec<Offer, LODGEMENTS>,
}

impl Abroad {
    // Those of an hour's offers that are at a border. (Lengths: DECISIONS.)
    pub fn of(offers: &[Offer]) -> Abroad
        requires { length offers.now ≤ 128 }
        ensures { Beside (offers_in offers.now) result }
    {
        let mut places = ArrayVec::new();
        let mut abroad = ArrayVec::new();
        for (i, offer) in offers.iter().enumerate() {
            if 0 < offer.holder.border {
                places.push(i);
                abroad.push(*offer);
            }
        }
        Abroad {
            places,
            offers: abroad,
        }
    }
}

// Some offers read again, each at its index. `Names`: the indices are those of the slice. (Lengths, By index: DECISIONS.)
pub fn renew(abroad: &mut [Offer], offers: &[Offer], places: &[usize])
    requires names { Names (length offers.now) places.now }
    requires same_length { length abroad.old ≡ length places.now }
    ensures { offers_in abroad.new ≡ named (offers_in offers.now) places.now }
{
    for (k, i) in places.iter().enumerate() {
        abroad[k] = offers[*i];
    }
}

// Each put at its index.
pub fn put(offers: &mut [Offer], places: &[usize], abroad: &[Offer])
    requires names { Names (length offers.old) places.now }
    requires same_length { length abroad.now ≡ length places.now }
    ensures { offers.new ≡ put_at places.now abroad.now offers.old }
{
    for (i, offer) in places.iter().zip(abroad) {
        offers[*i] = *offer;
    }
}
