// What holds of the rules of framing under every ceiling c, by proof: each theorem is a function with no code.
#![tactic(auto)]

ghost use Rattle.std.specs.Prelude.{ℕ};
ghost use Rattle.framing.specs.Before.{GreatestAsBefore};
ghost use Rattle.framing.specs.Why.{WhyRight, CausesSum};
ghost use Rattle.framing.specs.Theorems.{JudgedRight, DecidedExactly, DecidedStays, LastRight, ReadByTheRule, MoreDecidesAll, BlockDecidesNoMore};

// A place is judged a frame exactly where one stands.
pub fn judged_right()
    ensures { (c : ℕ) → JudgedRight c }
{}

// A place is decided exactly when the bytes are there that F12 names, whatever stands behind them.
pub fn decided_exactly()
    ensures { (c : ℕ) → DecidedExactly c }
{}

// Once a place is decided, bytes that follow do not change it.
pub fn decided_stays()
    ensures { (c : ℕ) → DecidedStays c }
{}

// When the run is finished all is decided: a frame where one was, and three of the reasons exactly where they hold.
pub fn last_right()
    ensures { (c : ℕ) → LastRight c }
{}

// A run is read by F11.
pub fn read_by_the_rule()
    ensures { (c : ℕ) → ReadByTheRule c }
{}

// Each place that is no frame has its reason by the order of F18, and the judges find no other.
pub fn why_right()
    ensures { (c : ℕ) → WhyRight c }
{}

// The four counts of a run add up to its skipped places that carry the sync pair.
pub fn causes_sum()
    ensures { (c : ℕ) → CausesSum c }
{}

// Where Feed answers More, all that can be decided has been.
pub fn more_decides_all()
    ensures { (c : ℕ) → MoreDecidesAll c }
{}

// Where Feed reports a block, nothing behind it has been decided.
pub fn block_decides_no_more()
    ensures { (c : ℕ) → BlockDecidesNoMore c }
{}

// With the ceiling 65,532 places are judged and runs read as they were without one.
pub fn greatest_as_before()
    ensures { GreatestAsBefore }
{}
