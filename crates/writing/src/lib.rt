// What holds of every block that Write made (rules W20 to W24), and of what it is given (W2, W3), as theorems over the definitions that
// the contracts cite; and cases of both, computed.
#![tactic(auto)]

ghost use Rattle.writing.specs.Giving.{CanBeGiven, GivingHolds};
ghost use Rattle.writing.specs.InForce.{AllReadBackInForce};
ghost use Rattle.writing.specs.Samples.{BlocksHold, CeilingsHold};
ghost use Rattle.writing.specs.Theorems.{AllReadBack, AllWriteBack, AllFramed, AllShortest, NeverOver};

// W20: it reads back.
pub fn reads_back()
    ensures { AllReadBack }
{}

// W20: also by the calls of the reader that wrote it.
pub fn reads_back_in_force()
    ensures { AllReadBackInForce }
{}

// W21: what is read of it writes it back.
pub fn writes_back()
    ensures { AllWriteBack }
{}

// W22: it is one whole frame, and as a run one block.
pub fn one_frame()
    ensures { AllFramed }
{}

// W23: no smaller multiple of 4 holds it.
pub fn least()
    ensures { AllShortest }
{}

// W24: no table of the form that there is makes one over 65,532 bytes.
pub fn never_over()
    ensures { NeverOver }
{}

// W2, W3: every draft that is allowed can be given.
pub fn can_be_given()
    ensures { CanBeGiven }
{}

// W2, W3: what numbers say, at the limits.
pub fn giving_holds()
    ensures { GivingHolds }
{}

// W6 to W9: blocks with all their bytes.
pub fn blocks_hold()
    ensures { BlocksHold }
{}

// R12, C17: a block under ceilings below its length, at it and above it.
pub fn ceilings_hold()
    ensures { CeilingsHold }
{}
