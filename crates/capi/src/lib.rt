// The calls for C, over the structs of `cform`: the functions that include/alderflute.h declares, and that `capi_c` exports.
#![tactic(auto)]

ghost use Rattle.std.specs.Prelude.{◌≡◌};
ghost use Rattle.reader.specs.State.{default_settings, new_state};
ghost use Rattle.cform.specs.State.{settings_c, state_c};
ghost use Rattle.capi.specs.Abi.{abi};

use cform::{CSettings, CState};

pub mod replies; // replies.rt: Open, Feed, Finish, Stage, Withdraw
pub mod fields; // fields.rt: a body field, a sub-block's field, TOW, WNc
pub mod levels; // levels.rt: a second-level field, and pseudoranges
pub mod parts; // parts.rt: Bytes, and the bytes of a sub-block
pub mod blocks; // blocks.rt: Write

// A new reader.
pub fn alderflute_new() -> CState
    ensures { result ≡ state_c new_state }
{
    cform::states::state_c(reader::new())
}

// The settings of a new reader: where nothing else is wanted, what to give Open.
pub fn alderflute_default_settings() -> CSettings
    ensures { result ≡ settings_c default_settings }
{
    cform::states::settings_c(reader::default_settings())
}

// The number of the interface. It rises where a program that was compiled with an older header would go wrong.
const ABI: u32 = 2;

// What a program compares with its header's number: where they differ, header and archive are of different builds.
pub fn alderflute_abi() -> u32
    ensures { result ≡ abi }
{
    ABI
}
