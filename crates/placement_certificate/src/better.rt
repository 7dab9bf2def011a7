//! The better of two starts.
ghost use Rattle.std.specs.Prelude.{◌≡◌};
ghost use Rattle.placement_certificate.specs.Search.{better};

/// A start with its price before it.
pub type PricedStart = (u64, u64);

/// The better of two starts: the one with the lower price, and at equal prices the higher one.
pub fn better_of(x: Option<PricedStart>, y: Option<PricedStart>) -> Option<PricedStart>
    ensures { result ≡ better x y }
{
    match (x, y) {
        (None, y) => y,
        (Some(x), None) => Some(x),
        (Some(x), Some(y)) => {
            if y.0 < x.0 || (y.0 == x.0 && x.1 < y.1) {
                Some(y)
            } else {
                Some(x)
            }
        }
    }
}
