//! How far spans reach that begin at or before an address.

ghost use Rattle.std.specs.Prelude.{◌≡◌, ℕ, ◌+◌, ◌≤◌, ◌<◌, min, nat_lt, IfSome, if◌then◌else◌};
ghost use Rattle.span_index.specs.Reach.{reaching};

/// The greatest and the second greatest of the addresses in bytes where spans end. That is enough to tell whether
/// none, one or more of them reach past an address.
#[derive(Clone, Copy, Debug)]
pub(crate) struct Reach {
    pub(crate) far: u128,
    pub(crate) near: u128,
}

impl Reach {
    // No span.
    pub(crate) const NONE: Reach = Reach { far: 0, near: 0 };

    // With spans more that end at an address.
    pub(crate) fn with(self, end: u128, times: u64) -> Reach
        requires { self.near ≤ self.far }
        ensures order { result.near ≤ result.far }
        ensures value { (address : ℕ) → reaching result address
            ≡ min (reaching self address + (if nat_lt address end then times else 0)) 2 }
    {
        match times {
            0 => self,
            1 => self.with_one(end),
            _ => self.with_one(end).with_one(end),
        }
    }

    // With a span more that ends at an address.
    fn with_one(self, end: u128) -> Reach
        requires { self.near ≤ self.far }
        ensures order { result.near ≤ result.far }
        ensures value { (address : ℕ) → reaching result address
            ≡ min (reaching self address + (if nat_lt address end then 1 else 0)) 2 }
    {
        if end > self.far {
            Reach {
                far: end,
                near: self.far,
            }
        } else if end > self.near {
            Reach {
                far: self.far,
                near: end,
            }
        } else {
            self
        }
    }

    // How many reach past an address: none, one, or two and more.
    pub(crate) fn past(&self, address: u64) -> u128
        ensures { result ≡ reaching self.now address }
    {
        let address = u128::from(address);
        u128::from(address < self.near) + u128::from(address < self.far)
    }

    // The lesser of an address and where fewer reach on, behind another address.
    pub(crate) fn bound(&self, address: u64, most: u128) -> u128
        requires { address < most }
        ensures after { address < result }
        ensures most { result ≤ most }
        ensures same { (later : ℕ) → address ≤ later → later < result →
            reaching self.now later ≡ reaching self.now address }
    {
        let address = u128::from(address);
        let mut least = most;
        if address < self.near && self.near < least {
            least = self.near;
        }
        if address < self.far && self.far < least {
            least = self.far;
        }
        least
    }
}
