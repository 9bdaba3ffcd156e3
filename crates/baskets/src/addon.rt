// The add-on of a basket: "The nth worst grade decides the factor, 50 or 100 per thousand".
ghost use Rattle.std.specs.Prelude.{◌≡◌};
ghost use Rattle.baskets.specs.Words.{add_on_of};

use crate::grades::nth_qualifies;
use crate::read::BasketWords;
use figures::factors::credit_factor;
use rules::payloads;
use words::amount::size;
use words::parts::field;

impl BasketWords {
    // In thousandths.
    pub fn add_on(self) -> u64
        ensures { result ≡ add_on_of self }
    {
        let nth = field(self.head, payloads::BASKET_NTH, payloads::BASKET_NTH_BITS);
        let qualifying = nth_qualifies(self.failing, nth);
        u64::from(credit_factor(qualifying)) * u64::from(size(self.notional))
    }
}
