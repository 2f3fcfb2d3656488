// The calls for C, exported: the functions that include/alderflute.h declares, each the function of that name in `capi`, with its
// clauses. A crate is a library or an archive, so the library that other crates stand on is `capi`.
#![tactic(auto)]

ghost use Rattle.std.specs.Prelude.{◌≡◌, []};
ghost use Rattle.reader.specs.State.{default_settings, new_state};
ghost use Rattle.cform.specs.State.{settings_c, state_c};
ghost use Rattle.capi.specs.Abi.{abi};
ghost use Rattle.capi.specs.Calls.{left, open_c, feed_c, finish_c, stage_c, withdraw_c, body_c, sub_c, tow_c, wnc_c, sub2_c, range_c, range2_c, handing, bytes_c, sub_bytes_c, making, write_c};
ghost use Rattle.draft.specs.Draft.{draft_of};
ghost use Rattle.cform.specs.Draft.{head_of};

use cform::{CField, CPart, CReply, CSettings, CState, CValue, CWritten};

// A new reader.
#[unsafe(no_mangle)]
pub extern "C" fn alderflute_new() -> CState
    ensures { result ≡ state_c new_state }
{
    capi::alderflute_new()
}

// The settings of a new reader: where nothing else is wanted, what to give Open.
#[unsafe(no_mangle)]
pub extern "C" fn alderflute_default_settings() -> CSettings
    ensures { result ≡ settings_c default_settings }
{
    capi::alderflute_default_settings()
}

// What a program compares with its header's number: where they differ, header and archive are of different builds.
#[unsafe(no_mangle)]
pub extern "C" fn alderflute_abi() -> u32
    ensures { result ≡ abi }
{
    capi::alderflute_abi()
}

#[unsafe(no_mangle)]
pub extern "C" fn alderflute_open(
    s: CState,
    settings: CSettings,
    in_force: &mut [u8],
    waiting: &[u8],
) -> CReply
    ensures { left result in_force.new ≡ open_c s settings in_force.old waiting.now }
{
    capi::replies::alderflute_open(s, settings, in_force, waiting)
}

#[unsafe(no_mangle)]
pub extern "C" fn alderflute_feed(s: CState, hold: &mut [u8], piece: &[u8]) -> CReply
    ensures { left result hold.new ≡ feed_c s hold.old piece.now }
{
    capi::replies::alderflute_feed(s, hold, piece)
}

#[unsafe(no_mangle)]
pub extern "C" fn alderflute_finish(s: CState, hold: &mut [u8]) -> CReply
    ensures { left result hold.new ≡ finish_c s hold.old }
{
    capi::replies::alderflute_finish(s, hold)
}

#[unsafe(no_mangle)]
pub extern "C" fn alderflute_stage(s: CState, waiting: &mut [u8], table: &[u8]) -> CReply
    ensures { left result waiting.new ≡ stage_c s waiting.old table.now }
{
    capi::replies::alderflute_stage(s, waiting, table)
}

#[unsafe(no_mangle)]
pub extern "C" fn alderflute_withdraw(s: CState) -> CReply
    ensures { left result [] ≡ withdraw_c s }
{
    capi::replies::alderflute_withdraw(s)
}

#[unsafe(no_mangle)]
pub extern "C" fn alderflute_body(s: CState, in_force: &[u8], block: &[u8], i: usize) -> CField
    ensures { result ≡ body_c s in_force.now block.now i }
{
    capi::fields::alderflute_body(s, in_force, block, i)
}

#[unsafe(no_mangle)]
pub extern "C" fn alderflute_sub(
    s: CState,
    in_force: &[u8],
    block: &[u8],
    k: usize,
    j: usize,
) -> CField
    ensures { result ≡ sub_c s in_force.now block.now k j }
{
    capi::fields::alderflute_sub(s, in_force, block, k, j)
}

#[unsafe(no_mangle)]
pub extern "C" fn alderflute_tow(s: CState, block: &[u8]) -> CField
    ensures { result ≡ tow_c s block.now }
{
    capi::fields::alderflute_tow(s, block)
}

#[unsafe(no_mangle)]
pub extern "C" fn alderflute_wnc(s: CState, block: &[u8]) -> CField
    ensures { result ≡ wnc_c s block.now }
{
    capi::fields::alderflute_wnc(s, block)
}

#[unsafe(no_mangle)]
pub extern "C" fn alderflute_sub2(
    s: CState,
    in_force: &[u8],
    block: &[u8],
    k: usize,
    m: usize,
    j: usize,
) -> CField
    ensures { result ≡ sub2_c s in_force.now block.now k m j }
{
    capi::levels::alderflute_sub2(s, in_force, block, k, m, j)
}

#[unsafe(no_mangle)]
pub extern "C" fn alderflute_range(s: CState, in_force: &[u8], block: &[u8], k: usize) -> CField
    ensures { result ≡ range_c s in_force.now block.now k }
{
    capi::levels::alderflute_range(s, in_force, block, k)
}

#[unsafe(no_mangle)]
pub extern "C" fn alderflute_range2(
    s: CState,
    in_force: &[u8],
    block: &[u8],
    k: usize,
    m: usize,
) -> CField
    ensures { result ≡ range2_c s in_force.now block.now k m }
{
    capi::levels::alderflute_range2(s, in_force, block, k, m)
}

#[unsafe(no_mangle)]
pub extern "C" fn alderflute_bytes(s: CState, hold: &[u8]) -> CPart
    ensures { handing result hold.now ≡ bytes_c s hold.now }
{
    capi::parts::alderflute_bytes(s, hold)
}

#[unsafe(no_mangle)]
pub extern "C" fn alderflute_subbytes(s: CState, in_force: &[u8], block: &[u8], k: usize) -> CPart
    ensures { handing result block.now ≡ sub_bytes_c s in_force.now block.now k }
{
    capi::parts::alderflute_subbytes(s, in_force, block, k)
}

#[unsafe(no_mangle)]
pub extern "C" fn alderflute_write(
    s: CState,
    in_force: &[u8],
    number: u64,
    revision: u64,
    tow: CValue,
    wnc: CValue,
    kinds: &[u8],
    bits: &[u64],
    out: &mut [u8],
) -> CWritten
    ensures { making result out.new ≡ write_c s in_force.now (draft_of (head_of number revision tow wnc) kinds.now bits.now) out.old }
{
    capi::blocks::alderflute_write(s, in_force, number, revision, tow, wnc, kinds, bits, out)
}
