// Why places were passed over, counted (rules F14, F18): each by its reason, and so for one cause at most.
#![tactic(auto)]

ghost use Rattle.std.specs.Prelude.{◌≡◌, ◌+◌, ◌<◌, replicate};
ghost use Rattle.frame.specs.declared.Reason.TheVariants.{NoSync};
ghost use Rattle.causes.specs.Passed.{nothing_passed, each, count, count_all};
ghost use Rattle.causes.specs.Code.{UnderSkipped};

use frame::Reason;

// What is known of the places passed over: how many, and how many that carry the sync pair are no frame since fewer than eight bytes
// are left, since the length is not allowed, since it passes the run's end, since the CRC is wrong (F18).
#[derive(Clone, Copy)]
pub struct Passed {
    pub skipped: usize,
    pub few: usize,
    pub badlen: usize,
    pub past: usize,
    pub badcrc: usize,
}

// No place is passed yet.
pub fn nothing_passed() -> Passed
    ensures { result ≡ nothing_passed }
{
    Passed {
        skipped: 0,
        few: 0,
        badlen: 0,
        past: 0,
        badcrc: 0,
    }
}

// What one place adds, by its reason: with the sync pair one of the four is 1, and without it none. A lone last 0x24 has none of the four:
// its reason is that no sync pair stands there.
fn each(why: Reason) -> Passed
    ensures { result ≡ each why }
{
    let place = Passed {
        skipped: 1,
        ..nothing_passed()
    };
    match why {
        Reason::NoSync => place,
        Reason::FewLeft => Passed { few: 1, ..place },
        Reason::LengthNotAllowed => Passed { badlen: 1, ..place },
        Reason::PastEnd => Passed { past: 1, ..place },
        Reason::CrcWrong(_) => Passed { badcrc: 1, ..place },
    }
}

// One more place is passed, for a reason.
pub fn count(a: Passed, why: Reason) -> Passed
    requires { (a.skipped + 1 < 18446744073709551616) × UnderSkipped a }
    ensures { result ≡ count a why }
{
    let one = each(why);
    Passed {
        skipped: a.skipped + one.skipped,
        few: a.few + one.few,
        badlen: a.badlen + one.badlen,
        past: a.past + one.past,
        badcrc: a.badcrc + one.badcrc,
    }
}

// As many places more are passed for want of a sync pair: at once, for they are most of a run of noise.
pub fn count_no_sync(a: Passed, n: usize) -> Passed
    requires { a.skipped + n < 18446744073709551616 }
    ensures { result ≡ count_all a (replicate n NoSync) }
{
    Passed {
        skipped: a.skipped + n,
        ..a
    }
}
