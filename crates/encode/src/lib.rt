// From a table's meaning to its bytes: theorems about tables there and back, and the rules at their limits. No code.
#![tactic(auto)]

ghost use Rattle.encode.specs.Theorems.{Decodes, Encodes, PassingFits};
ghost use Rattle.encode.specs.Limits.{LimitsHold, MarksHold};

// A table that passes decodes, and its meaning gives its bytes back.
pub fn decodes()
    ensures { Decodes }
{}

// A table whose meaning is right and that fits encodes to a file that passes and decodes to it.
pub fn encodes()
    ensures { Encodes }
{}

// The meaning of a table that passes fits.
pub fn passing_fits()
    ensures { PassingFits }
{}

// The rules hold on both sides of their limits.
pub fn limits_hold()
    ensures { LimitsHold }
{}

// A table with a mark passes exactly where the type may bear it.
pub fn marks_hold()
    ensures { MarksHold }
{}
