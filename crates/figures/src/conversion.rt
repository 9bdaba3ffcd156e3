// The conversion figures of off-balance items (document 01, "Factors").
ghost use Rattle.std.specs.Prelude.{◌≡◌, ◌<◌};
ghost use Rattle.rules.specs.Factors.{conversion_of};
ghost use Rattle.figures.specs.Figures.{conversion_figures};

// The figure of each class one place later, as bits 4-7 count. None, which lowers nothing; commitment to one year, longer, cancellable, credit
// substitute, forward purchase, transaction contingency, note facility, trade letter, securitisation, eligible liquidity, servicer advance;
// and 0 for what is beyond the eleven.
const CONVERSIONS: [u16; 17] = [
    1000, 200, 500, 100, 1000, 1000, 500, 500, 200, 1000, 500, 100, 0, 0, 0, 0, 0,
];

// The table of the paper, as `paper` says of each one. A caller makes it once and lends it for each item, since the compiler makes a
// constant table anew where it is read. It is of 16 bits, to be less to make, once for each run of items.
#[derive(Drop)]
pub struct ConversionTable {
    figures: [u16; 17],
    ghost paper: { figures ≡ conversion_figures },
}

impl ConversionTable {
    pub fn new() -> ConversionTable {
        ConversionTable {
            figures: CONVERSIONS,
        }
    }

    // A class is a number, since it is a place of the table. "With bits 4-7 the lower of two applies": `committed` is 0, or one more than the class of the item committed to. A class that the
    // paper does not have gives 0, and no other does.
    #[tactic(auto, using(crate::proofs::Figures::looked_up))]
    pub fn conversion(&self, class: u32, committed: u32) -> u64
        requires { (class < 16) × (committed < 16) }
        ensures { result ≡ conversion_of class committed }
    {
        let own = self.figures[(class + 1) as usize];
        u64::from(own.min(self.figures[committed as usize]))
    }
}
