// Calls through C are calls of the reader, so that the demands hold of them.
#![tactic(auto)]

ghost use Rattle.ccalls.specs.ThroughC.{ThroughC};

// A sequence of exported calls is a sequence of the reader's: answers, states and buffers are those of the reader as C has them, and a state
// that no reader has is refused.
pub fn c_calls()
    ensures { ThroughC }
{}
