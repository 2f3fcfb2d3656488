// The types of fields with their sizes (rule V1), and the marks: which types may bear each, which bits are its Do-Not-Use (V3, V4, V10),
// and what an unset field is written with (W6).
#![tactic(auto)]

ghost use Rattle.std.specs.Prelude.{◌≡◌, ◌≤◌};
ghost use Rattle.kinds.specs.Types.{size_of, is_unsigned, is_signed, is_float, half};
ghost use Rattle.kinds.specs.Marks.{all_ones, minus, seed_type, mark_fits, is_do_not_use, unset_of, UnsetIsTold};
ghost use Rattle.kinds.specs.Grid.{GridHolds};
ghost use Rattle.kinds.specs.Seed.{SeedHolds};

// A type and a mark are bytes, as they stand in a table (T11). A table may have any byte there, and the promises are over every one.

// D7: entry k is the size of type k + 1. Table check, field reader and writer look sizes up here. They are bytes: a constant array is
// stored anew wherever it is named, and ten bytes are two stores.
const SIZES: [u8; 10] = [1, 2, 4, 8, 1, 2, 4, 8, 4, 8];

// The size of a type; 0 where it is not listed.
#[tactic(auto, unfolding(crate::specs::Types::size_of))]
pub fn size(kind: u8) -> usize
    ensures { (result ≡ size_of kind) × (result ≤ 8) }
{
    match kind {
        1..=10 => usize::from(SIZES[usize::from(kind - 1)]),
        _ => 0,
    }
}

// V1: the three kinds of types.
fn is_unsigned(kind: u8) -> bool
    ensures { result ≡ is_unsigned kind }
{
    matches!(kind, 1..=4)
}

fn is_signed(kind: u8) -> bool
    ensures { result ≡ is_signed kind }
{
    matches!(kind, 5..=8)
}

fn is_float(kind: u8) -> bool
    ensures { result ≡ is_float kind }
{
    matches!(kind, 9..=10)
}

// Whether a type may bear a mark.
#[tactic(auto, unfolding(crate::specs::Marks::mark_fits))]
pub fn mark_fits(kind: u8, mark: u8) -> bool
    ensures { result ≡ mark_fits kind mark }
{
    // an arm for each entry of `marks`
    match mark {
        0 => true,
        1 => is_unsigned(kind),
        2 => is_unsigned(kind),
        3 => is_float(kind),
        4 => is_signed(kind),
        5 => kind == 2,
        _ => false,
    }
}

// The bits that mark 1 names, of a type: all ones in its bytes.
#[tactic(auto, unfolding(crate::specs::Types::size_of))]
fn all_ones(kind: u8) -> u64
    ensures { result ≡ all_ones (size_of kind) }
{
    match kind {
        1 | 5 => 0xff,
        2 | 6 => 0xffff,
        3 | 7 | 9 => 0xffff_ffff,
        4 | 8 | 10 => 0xffff_ffff_ffff_ffff,
        _ => 0,
    }
}

// The bits that mark 3 names: -2e10 in four bytes, or in eight.
#[tactic(auto, unfolding(crate::specs::Types::size_of))]
fn minus_2e10(kind: u8) -> u64
    ensures { result ≡ minus (size_of kind) }
{
    match kind {
        3 | 7 | 9 => 0xd095_02f9,
        _ => 0xc212_a05f_2000_0000,
    }
}

// The bits that mark 4 names: the least signed number in its bytes.
#[tactic(auto, unfolding(crate::specs::Types::size_of))]
fn least_bits(kind: u8) -> u64
    ensures { result ≡ half (size_of kind) }
{
    match kind {
        1 | 5 => 0x80,
        2 | 6 => 0x8000,
        3 | 7 | 9 => 0x8000_0000,
        4 | 8 | 10 => 0x8000_0000_0000_0000,
        _ => 1,
    }
}

// V10: the bits that mark 5 looks at, from 13 up: the seed type of PPPInfo.
fn seed_type(x: u64) -> u64
    ensures { result ≡ seed_type x }
{
    x >> 13
}

// Whether the bits of a type are its mark's Do-Not-Use.
#[tactic(auto, unfolding(crate::specs::Marks::is_do_not_use))]
pub fn is_do_not_use(mark: u8, kind: u8, x: u64) -> bool
    ensures { result ≡ is_do_not_use mark kind x }
{
    match mark {
        1 => x == all_ones(kind),
        2 => x == 0,
        3 => x == minus_2e10(kind),
        4 => x == least_bits(kind),
        5 => seed_type(x) == 0,
        _ => false,
    }
}

// W6: what an unset field is written with: the bits of its mark; a field without one cannot be unset.
#[tactic(auto, unfolding(crate::specs::Marks::unset_of))]
pub fn unset_bits(mark: u8, kind: u8) -> Option<u64>
    ensures { result ≡ unset_of mark kind }
{
    match mark {
        1 => Some(all_ones(kind)),
        2 => Some(0),
        3 => Some(minus_2e10(kind)),
        4 => Some(least_bits(kind)),
        5 => Some(0),
        _ => None,
    }
}

// What an unset field is written with reads as Do-Not-Use.
pub fn unset_is_told()
    ensures { UnsetIsTold }
{}

// Of each type: its size, the marks that it may bear, and which bits are then Do-Not-Use.
pub fn grid_holds()
    ensures { GridHolds }
{}

// Mark 5 tells the numbers without a seed, and by the marks before it no type may bear it.
pub fn seed_holds()
    ensures { SeedHolds }
{}
