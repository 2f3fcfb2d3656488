// C's plain structs by value, numbers for cases, and how the reader's states and answers read as them. include/alderflute.h
// declares the structs.
#![tactic(auto)]

ghost use Rattle.cform.specs.Theorems.{NothingLost};

pub mod states; // states.rt: states and settings as C has them
mod answers; // answers.rt: answers as C has them
pub mod replies; // replies.rt: what a call leaves and answers, as C has it
pub mod fields; // fields.rt: a field's answer as C has it
pub mod parts; // parts.rt: parts of buffers as C has them
pub mod drafts; // drafts.rt: what Write is given and answers, as C has it

// The counts of a run: in C the members of its state from `taken` to `skipped`, and at the end an alderflute_end.
#[repr(C)]
#[derive(Clone, Copy)]
pub struct CCounts {
    pub taken: usize,
    pub blocks: usize,
    pub skipped: usize,
}

// What Open is given, and a run goes by: the ceiling, which may be wrong, and is refused then.
#[repr(C)]
#[derive(Clone, Copy)]
pub struct CSettings {
    pub ceiling: usize,
}

// The state: the phase by its number (0 closed, 1 feeding, 2 after the first Finish), the reader's numbers, and the settings.
#[repr(C)]
#[derive(Clone, Copy)]
pub struct CState {
    pub phase: usize,
    pub held: usize,
    pub standing: usize,
    pub counts: CCounts,
    pub settings: CSettings,
    pub in_force: usize,
    pub waiting: usize,
}

// What is reported of a block.
#[repr(C)]
#[derive(Clone, Copy)]
pub struct CBlock {
    pub place: usize,
    pub length: usize,
    pub number: u16,
    pub revision: u16,
}

// What a call that goes on with the state answers: the refusal's number or 0, a kind, and the values of that kind; the
// others are 0.
#[repr(C)]
#[derive(Clone, Copy)]
pub struct CAnswer {
    pub refusal: u32,
    pub kind: u32,
    pub version: u16,
    pub waited: u16,
    pub taken: usize,
    pub block: CBlock,
    pub end: CCounts,
}

#[repr(C)]
#[derive(Clone, Copy)]
pub struct CReply {
    pub state: CState,
    pub answer: CAnswer,
}

// What a field answers: the refusal's number or 0, a kind, and the one value of that kind; the others are 0.
#[repr(C)]
#[derive(Clone, Copy)]
pub struct CField {
    pub refusal: u32,
    pub kind: u32,
    pub number: u64,
    pub signed: i64,
    pub bits: u64,
}

// A part of a buffer that the caller gave.
#[repr(C)]
#[derive(Clone, Copy)]
pub struct CPart {
    pub refusal: u32,
    pub offset: usize,
    pub length: usize,
}

// W2: a value that Write is given: its kind and 64 bits.
#[repr(C)]
#[derive(Clone, Copy)]
pub struct CValue {
    pub kind: u8,
    pub bits: u64,
}

// What Write answers: the refusal's number or 0, and the block's length, 0 where it is refused.
#[repr(C)]
#[derive(Clone, Copy)]
pub struct CWritten {
    pub refusal: u32,
    pub length: usize,
}

// State, settings, answer, field and length can be read back from the plain structs.
pub fn nothing_lost()
    ensures { NothingLost }
{}
