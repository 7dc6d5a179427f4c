// A kind of cost: what a trench costs, how costs add up, and which of two is less.
ghost use Rattle.std.specs.Prelude.{◌≡◌};
ghost use Rattle.network.specs.Costs.{Kind, Laws, summed, greater, lesser};

pub trait Cost: Copy {
    // Zero, exact sum, order and bulk; each kind shows that they keep the laws.
    ghost kind: { Kind Self };

    fn zero() -> Self
        ensures { result ≡ kind.zero };

    // The exact sum, or none where the two bulks add to more than 2^50.
    fn sum(self, other: Self) -> Option<Self>
        ensures { result ≡ summed kind self other };

    fn is_below(self, other: Self) -> bool
        ensures { result ≡ kind.below self other };

    fn bulk(self) -> u64
        ensures { result ≡ kind.bulk self };

    // The greater of two costs; the first among equals.
    final fn greater(self, other: Self) -> Self
        ensures { result ≡ greater kind self other }
    {
        if self.is_below(other) { other } else { self }
    }

    // The lesser of two costs; the first among equals.
    final fn lesser(self, other: Self) -> Self
        ensures { result ≡ lesser kind self other }
    {
        if other.is_below(self) { other } else { self }
    }

    ghost laws: { Laws kind };
}
