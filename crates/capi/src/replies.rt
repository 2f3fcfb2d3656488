// The calls that go on with the state, for C: Open, Feed, Finish, Stage, Withdraw. A state whose phase is none goes to the reader
// as one that it refuses with 1.
ghost use Rattle.std.specs.Prelude.{◌≡◌, []};
ghost use Rattle.capi.specs.Calls.{left, open_c, feed_c, finish_c, stage_c, withdraw_c};

use cform::{CReply, CSettings, CState};

pub fn alderflute_open(
    s: CState,
    settings: CSettings,
    in_force: &mut [u8],
    waiting: &[u8],
) -> CReply
    ensures { left result in_force.new ≡ open_c s settings in_force.old waiting.now }
{
    let t = cform::states::state_of(s);
    let x = cform::states::settings_back(settings);
    let o = tables::open(t, x, in_force, waiting);
    cform::replies::reply(s, o.state, cform::replies::version_c(o.answer))
}

pub fn alderflute_feed(s: CState, hold: &mut [u8], piece: &[u8]) -> CReply
    ensures { left result hold.new ≡ feed_c s hold.old piece.now }
{
    let t = cform::states::state_of(s);
    let o = runs::feed(t, hold, piece);
    cform::replies::reply(s, o.state, cform::replies::fed_c(o.answer))
}

pub fn alderflute_finish(s: CState, hold: &mut [u8]) -> CReply
    ensures { left result hold.new ≡ finish_c s hold.old }
{
    let t = cform::states::state_of(s);
    let o = runs::finish(t, hold);
    cform::replies::reply(s, o.state, cform::replies::finished_c(o.answer))
}

pub fn alderflute_stage(s: CState, waiting: &mut [u8], table: &[u8]) -> CReply
    ensures { left result waiting.new ≡ stage_c s waiting.old table.now }
{
    let t = cform::states::state_of(s);
    let o = tables::stage(t, waiting, table);
    cform::replies::reply(s, o.state, cform::replies::version_c(o.answer))
}

pub fn alderflute_withdraw(s: CState) -> CReply
    ensures { left result [] ≡ withdraw_c s }
{
    let t = cform::states::state_of(s);
    let o = tables::withdraw(t);
    cform::replies::reply(s, o.state, cform::replies::withdrawn_c(o.answer))
}
