// A strict total order: what it means, and the laws that every one of them keeps.
ghost use Rattle.std.specs.Prelude.{◌≡◌, Bool};
ghost use Rattle.ordering.specs.Strict.{Strict};

// The meaning of an order is a test of two values, which depends on nothing but these and the order itself.
pub trait Order<T> {
    ghost before: { Self → T → T → Bool };

    // Whether `a` goes before `b`.
    fn goes_before(&self, a: &T, b: &T) -> bool
        ensures { result ≡ before self.now a.now b.now };

    // The law, which each impl proves: this test is a strict total order.
    ghost strict: { (order : Self) → Strict (before order) };
}
