//! How tightly the constructs of a chain bind, from the loosest: one that binds less than its place asks is in parentheses.

ghost use Rattle.std.specs.Prelude.{◌≡◌, nat_lt};
ghost use Rattle.pale_print.specs.Tightness.{assertion_tightness, condition_tightness, route_tightness};

/// How tightly an assertion binds, or has to at its place.
#[derive(Clone, Copy)]
pub enum AssertionTightness {
    Equivalence,
    Implication,
    Disjunction,
    Conjunction,
    /// All others
    Single,
}

impl AssertionTightness {
    fn number(self) -> u8
        ensures { result ≡ assertion_tightness self }
    {
        match self {
            AssertionTightness::Equivalence => 0,
            AssertionTightness::Implication => 1,
            AssertionTightness::Disjunction => 2,
            AssertionTightness::Conjunction => 3,
            AssertionTightness::Single => 4,
        }
    }

    /// Whether what binds so tightly is in parentheses at a place that asks as much.
    pub fn is_grouped_at(self, asked: AssertionTightness) -> bool
        ensures { result ≡ nat_lt (assertion_tightness self) (assertion_tightness asked) }
    {
        self.number() < asked.number()
    }
}

/// How tightly a condition of code binds, or has to at its place.
#[derive(Clone, Copy)]
pub enum ConditionTightness {
    Disjunction,
    Conjunction,
    /// All others
    Single,
}

impl ConditionTightness {
    fn number(self) -> u8
        ensures { result ≡ condition_tightness self }
    {
        match self {
            ConditionTightness::Disjunction => 0,
            ConditionTightness::Conjunction => 1,
            ConditionTightness::Single => 2,
        }
    }

    /// Whether what binds so tightly is in parentheses at a place that asks as much.
    pub fn is_grouped_at(self, asked: ConditionTightness) -> bool
        ensures { result ≡ nat_lt (condition_tightness self) (condition_tightness asked) }
    {
        self.number() < asked.number()
    }
}

/// How tightly a routing expression binds, or has to at its place.
#[derive(Clone, Copy)]
pub enum RouteTightness {
    Choice,
    Sequence,
    Repetition,
    Step,
}

impl RouteTightness {
    fn number(self) -> u8
        ensures { result ≡ route_tightness self }
    {
        match self {
            RouteTightness::Choice => 0,
            RouteTightness::Sequence => 1,
            RouteTightness::Repetition => 2,
            RouteTightness::Step => 3,
        }
    }

    /// Whether what binds so tightly is in parentheses at a place that asks as much.
    pub fn is_grouped_at(self, asked: RouteTightness) -> bool
        ensures { result ≡ nat_lt (route_tightness self) (route_tightness asked) }
    {
        self.number() < asked.number()
    }
}
