// The rules of DL, OS and FL: from the values at a block's pins, its settings, the elapsed ticks and its old place to its new place.
#![tactic(auto, unfolding(crate::specs::Timers::ticks_in, crate::specs::Timers::dl_ticks, crate::specs::Timers::dl, crate::specs::Timers::os, crate::specs::Timers::fl_ticks, crate::specs::Timers::fl))]

ghost use Rattle.std.specs.Prelude.{◌≡◌, ◌+◌, ◌<◌, ◌≤◌};
ghost use Rattle.terms.specs.Choice.{pick};
ghost use Rattle.timers.specs.Timers.{ticks_in, dl_ticks, dl, os, fl};

use place::Place;

// A time in ticks.
// Kept: the unit is the number of a program's setting, as `ticks_in` has it (what may not change).
fn ticks_in(unit: u32, time: u32) -> u64
    ensures { result ≡ ticks_in unit time }
{
    let in_unit = u64::from(time);
    match unit {
        0 => in_unit,
        1 => in_unit * 10,
        _ => in_unit * 100,
    }
}

// The on time or the off time.
fn time_of(i: bool, on: u32, off: u32) -> u32
    ensures { result ≡ pick i on off }
{
    if i { on } else { off }
}

// The ticks of DL with E counted, or 0 in the scan of a change. `dl` asks for them only with C off; the letters are those of the definition.
fn dl_ticks(i: bool, c: bool, e: u16, p: Place) -> u64
    ensures { result ≡ dl_ticks i c e p }
{
    if p.either_differs(i, c) {
        return 0;
    }
    u64::from(p.ticks) + u64::from(e)
}

pub fn dl(i: bool, c: bool, unit: u32, on: u32, off: u32, e: u16, p: Place) -> Place
    requires { (on ≤ 32767) × (off ≤ 32767) }
    ensures { result ≡ dl i c unit on off e p }
{
    if c {
        return Place {
            out: false,
            ticks: 0,
            ..p
        };
    }
    if i == p.out {
        return Place { ticks: 0, ..p };
    }
    let t = dl_ticks(i, c, e, p);
    if ticks_in(unit, time_of(i, on, off)) <= t {
        return Place {
            out: i,
            ticks: 0,
            ..p
        };
    }
    Place {
        ticks: t as u32,
        ..p
    }
}

pub fn os(i: bool, c: bool, unit: u32, time: u32, e: u16, p: Place) -> Place
    requires { time ≤ 32767 }
    ensures { result ≡ os i c unit time e p }
{
    if c {
        return Place {
            out: false,
            ticks: 0,
            ..p
        };
    }
    if !p.out {
        return Place {
            out: p.first_rises(i),
            ticks: 0,
            ..p
        };
    }
    let t = u64::from(p.ticks) + u64::from(e);
    if ticks_in(unit, time) <= t {
        return Place {
            out: false,
            ticks: 0,
            ..p
        };
    }
    Place {
        ticks: t as u32,
        ..p
    }
}

pub fn fl(i: bool, unit: u32, on: u32, off: u32, e: u16, p: Place) -> Place
    requires { (on ≤ 32767) × ((off ≤ 32767) × (0 < on + off)) }
    ensures { result ≡ fl i unit on off e p }
{
    if !i {
        return Place {
            out: false,
            ticks: 0,
            ..p
        };
    }
    let on_ticks = ticks_in(unit, on);
    if p.first_rises(i) {
        return Place {
            out: 0 < on_ticks,
            ticks: 0,
            ..p
        };
    }
    let period = on_ticks + ticks_in(unit, off);
    let t = (u64::from(p.ticks) + u64::from(e)) % period;
    Place {
        out: t < on_ticks,
        ticks: t as u32,
        ..p
    }
}
