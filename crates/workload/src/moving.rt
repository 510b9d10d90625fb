//! Moving the groups meanwhile.

ghost use Rattle.cluster.specs.Monitors.{IsMonitorOf, FollowsStart};

use cluster::{ChangeFault, Cluster, Monitor};
use map_core::MapCommand;
use std::sync::Wait;
use std::sync::atomic::{AtomicU64, Ordering};

/// How often the daemon goes down and comes up.
const TIMES: u32 = 20;

/// How often it does at most where that goes on until something ends.
const MAX_TIMES: u32 = 500;

/// The daemon that goes down and comes up.
const DAEMON: u8 = 2;

// Changes the map, and finishes the change.
fn change<R: Wait>(
    rt: &R,
    cluster: &Cluster,
    monitor: &mut Monitor,
    command: MapCommand,
) -> Result<(), ChangeFault>
    requires { IsMonitorOf cluster.now monitor.old × FollowsStart cluster.now monitor.old }
    ensures { IsMonitorOf cluster.now monitor.new × FollowsStart cluster.now monitor.new }
{
    match monitor.change_map(rt, cluster, command) {
        Ok(_) => Ok(()),
        Err(ChangeFault::Unfinished(_)) => monitor.finish(rt, cluster),
        Err(fault) => Err(fault),
    }
}

// Takes the daemon down and up `TIMES` times. Returns how many changes there were.
pub(crate) fn move_often<R: Wait>(
    rt: &R,
    cluster: &Cluster,
    monitor: &mut Monitor,
) -> Result<u32, ChangeFault>
    requires { IsMonitorOf cluster.now monitor.old × FollowsStart cluster.now monitor.old }
    ensures { IsMonitorOf cluster.now monitor.new × FollowsStart cluster.now monitor.new }
{
    for _time in 0..TIMES {
        change(rt, cluster, monitor, MapCommand::OsdDown(DAEMON))?;
        change(rt, cluster, monitor, MapCommand::OsdUp(DAEMON))?;
    }
    Ok(TIMES * 2)
}

// Takes the daemon down and up until `ended` is above 0, at most `MAX_TIMES` times.
pub(crate) fn move_until<R: Wait>(
    rt: &R,
    cluster: &Cluster,
    monitor: &mut Monitor,
    ended: &AtomicU64,
) -> Result<(), ChangeFault>
    requires { IsMonitorOf cluster.now monitor.old × FollowsStart cluster.now monitor.old }
    ensures { IsMonitorOf cluster.now monitor.new × FollowsStart cluster.now monitor.new }
{
    for _time in 0..MAX_TIMES {
        if ended.load(Ordering::SeqCst) > 0 {
            return Ok(());
        }
        change(rt, cluster, monitor, MapCommand::OsdDown(DAEMON))?;
        change(rt, cluster, monitor, MapCommand::OsdUp(DAEMON))?;
    }
    Ok(())
}
