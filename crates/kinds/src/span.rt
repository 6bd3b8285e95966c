//! Spans.
ghost use Rattle.std.specs.Prelude.{◌≡◌};
ghost use Rattle.kinds.specs.Span.{one, joined, inside};

/// All values from the lowest to the highest.
#[derive(Clone, Copy, PartialEq, Eq, Debug)]
pub struct Span<T> {
    pub low: T,
    pub high: T,
}

impl<T: Ord + Copy> Span<T> {
    /// The span of one value.
    pub fn of(value: T) -> Span<T>
        ensures { result ≡ one value }
    {
        Span {
            low: value,
            high: value,
        }
    }

    /// The least span that has both in it.
    pub fn join(self, other: Span<T>) -> Span<T>
        ensures { result ≡ joined T.cmp self other }
    {
        Span {
            low: self.low.min(other.low),
            high: self.high.max(other.high),
        }
    }

    /// Whether this span lies within the other.
    pub fn within(self, other: Span<T>) -> bool
        ensures { result ≡ inside T.cmp self other }
    {
        other.low <= self.low && self.high <= other.high
    }
}
