// Fills a tank from an inflow that changes over time, both under a limit on every step.
// Eight ticks are proposed at each turn. Where a unit answers fewer, both are put back and that many are tried.
#![tactic(auto)]

ghost use Rattle.std.specs.Prelude.{◌≤◌, IfOk};

use anyhow::bail;
use file_rig::table::FileRig;
use kinds::design::Design;
use limit_rig::limit::Limit;
use pair_rig::pair::Pair;
use rig::Rig;
use rig::cause::RigFault;
use trip_rig::trip::TripRig;

const TANK: usize = 0;

const INFLOW: usize = 1;

const PROPOSED: u32 = 8;

const LIMIT: u32 = 5;

/// Steps every unit by h and prints what each answers. Ends at the first short answer.
fn try_step<R: Rig<Signal = i32>>(rt: &HostRuntime, rig: &mut R, h: u32) -> anyhow::Result<u32>
    ensures { IfOk result (λ answer. answer ≤ h) }
{
    for unit in 0..rig.units() {
        let answer = rig.step(unit, h)?;
        println!(rt; "  step {h}: unit {unit} answers {answer}")?;
        if answer < h {
            return Ok(answer);
        }
    }
    Ok(h)
}

/// Makes a call for each unit, up to the first that is refused.
fn for_each_unit<R, F>(rig: &mut R, call: F) -> Result<(), RigFault>
where
    R: Rig<Signal = i32>,
    F: Fn(&mut R, usize) -> Result<(), RigFault>,
    requires { F.IsAlwaysCallable call }
{
    for unit in 0..rig.units() {
        call(rig, unit)?;
    }
    Ok(())
}

/// The longest step up to the proposal that every unit takes; 0 where a unit takes none, all units then being as they were.
fn advance<R: Rig<Signal = i32>>(rt: &HostRuntime, rig: &mut R) -> anyhow::Result<u32> {
    for_each_unit(rig, |rig, unit| rig.save(unit, 0))?;
    let mut h = PROPOSED;
    while h > 0 {
        let answer = try_step(rt, rig, h)?;
        if answer == h {
            break;
        }
        for_each_unit(rig, |rig, unit| rig.restore(unit, 0))?;
        h = answer;
    }
    for_each_unit(rig, |rig, unit| rig.free(unit, 0))?;
    Ok(h)
}

/// Leads the inflow into the tank, and prints where both stand.
fn settle<R: Rig<Signal = i32>>(rt: &HostRuntime, rig: &mut R, time: u32) -> anyhow::Result<()> {
    let inflow = rig.get(INFLOW, 0)?;
    rig.put(TANK, 0, inflow)?;
    let level = rig.get(TANK, 0)?;
    println!(rt; "time {time}: level {level}, inflow {inflow}")?;
    Ok(())
}

/// Goes on until a unit takes no step.
fn fill<R: Rig<Signal = i32>>(rt: &HostRuntime, rig: &mut R) -> anyhow::Result<()> {
    let mut time = 0u32;
    for _ in 0..100 {
        settle(rt, rig, time)?;
        let ticks = advance(rt, rig)?;
        if ticks == 0 {
            println!(rt; "no step is left at time {time}")?;
            return Ok(());
        }
        time = time.saturating_add(ticks);
    }
    bail!("the tank did not fill")
}

fn main(rt: HostRuntime) -> anyhow::Result<()> {
    let mut tank = FileRig::new(rt.alloc());
    tank.add(
        b"tank",
        Design::Integrator {
            x: 2,
            lo: 0,
            hi: 20,
            m: 100,
        },
    )?;
    let inflow = TripRig::new(rt.alloc(), &[4, 3, 3, -2, 6, 4])?;
    let mut rig = Limit::new(Pair::new(tank, inflow), LIMIT);
    fill(&rt, &mut rig)?;
    let (tank, _) = rig.into_below().into_parts();
    let level = tank.get(TANK, 0)?;
    println!(rt; "the tank alone: level {level}")?;
    Ok(())
}
