// Prices of constructs.
ghost use Rattle.std.specs.Prelude.{◌≡◌, ◌≤◌, is_some};
ghost use Rattle.price_file.specs.Listed.{AllSmall, nothing_listed, listing};

use crate::construct::Construct;

/// What a table of prices lists.
#[derive(Clone, Copy, Debug)]
pub struct Prices {
    listed: [Option<u32>; 18],
    ghost small: { AllSmall listed },
}

impl Prices {
    ghost use Rattle.price_file.specs.Read.{listed_in, prices_of};

    /// Nothing is listed.
    pub(crate) fn none_listed() -> Prices
        ensures { result.listed ≡ nothing_listed }
    {
        Prices { listed: [None; 18] }
    }

    /// What a node of this construct costs, in ticks.
    pub fn price(&self, construct: Construct) -> u32
        ensures price { result ≡ prices_of self.now construct }
        ensures small { result ≤ 1000000 }
    {
        self.listed[construct.place()].unwrap_or(0)
    }

    /// Whether the construct is listed.
    pub fn is_listed(&self, construct: Construct) -> bool
        ensures { result ≡ is_some (listed_in self.now construct) }
    {
        self.listed[construct.place()].is_some()
    }

    /// Lists the price of a construct.
    pub(crate) fn list(&mut self, construct: Construct, price: u32)
        requires { price ≤ 1000000 }
        ensures { self.new.listed ≡ listing self.old.listed construct price }
    {
        self.listed[construct.place()] = Some(price);
    }
}
