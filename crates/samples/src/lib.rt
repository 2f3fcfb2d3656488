// The samples of the rules and the story that started this, computed by the definitions that the reader's contracts cite.
#![tactic(auto)]

ghost use Rattle.samples.specs.Flight.{FlightLine};
ghost use Rattle.samples.specs.Samples.{SamplesHold};
ghost use Rattle.samples.specs.PppInfo.{PppInfoHolds};

// S1 to S10, S14, the bytes of S11, and what Write makes of S8's and S9's values: one table of cases, one theorem.
pub fn samples_hold()
    ensures { SamplesHold }
{}

// S13: PPPInfo of PVTCartesian by the rows shipped: what is read, and what may be given.
pub fn pppinfo_holds()
    ensures { PppInfoHolds }
{}

// The story that started this, worked through: a table staged in mid-run changes no field of the open run, and is read by in the next.
pub fn flight_line()
    ensures { FlightLine }
{}
