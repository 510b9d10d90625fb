//! The bytes of a script, replayed line by line.

use crate::naming::title_of;
use crate::selection::{Part, Selection};
use crate::watching::Watched;
use common_types::{Name, OutOfMemory, TryClone};
use entry_core::{GroupId, Id};
use picture_text::{Beginning, Happening, Row, ScriptLine, Story};
use place_core::{ActingSet, DaemonSet};
use script_text::{Line, Lines};
use std::alloc::Global;
use std::mem;
use world_core::{Ask, Event, World};
use world_script::{Command, read_line};

/// A bound of the deliveries of a settling. No settling reaches it.
const MAX_DELIVERIES: u32 = u32::MAX;

/// The largest number of messages on their way at the end that have a row.
const MAX_WAITING: usize = 200;

/// The rows of a picture as they are made, and the world that they are made of.
struct Replay {
    alloc: Global,
    watched: Option<Box<Watched>>,
    group: Option<GroupId>,
    selection: Selection,
    tick: u64,
    /// The line whose first row is still to come.
    line: Option<ScriptLine>,
    /// Whether the line has a row, which may be left out.
    has_row: bool,
    /// How many rows there were before the first line of the selection, if that is there.
    before_lines: Option<usize>,
    /// How many rows there are, those that are left out too.
    count: usize,
    /// The first row that is not left out.
    first: usize,
    beginning: Option<Beginning>,
    rows: Vec<Row>,
    /// Rows that are shown only if more of the selected request comes.
    later: Vec<Row>,
}

impl Drop for Replay {
    fn drop(self) {
        let Replay {
            alloc: _,
            watched: _,
            group: _,
            selection: _,
            tick: _,
            line: _,
            has_row: _,
            before_lines: _,
            count: _,
            first: _,
            beginning: _,
            rows: _,
            later: _,
        } = self;
    }
}

/// What a sweep does to the messages of each group.
#[derive(Clone, Copy)]
enum Sweep {
    Deliver,
    Lose,
}

/// The groups of all pools, in the order of the map.
pub(crate) fn groups_of(alloc: Global, world: &World) -> Result<Vec<GroupId>, OutOfMemory> {
    let mut groups = Vec::new(alloc);
    for pool in world.map().pools() {
        for number in 0..pool.pg_num {
            let pool = pool.name.copy()?;
            groups.push(GroupId { pool, number })?;
        }
    }
    Ok(groups)
}

fn has_messages(world: &World, group: &GroupId) -> bool {
    match world.wire(group) {
        Ok(sent) => !sent.is_empty(),
        Err(_) => false,
    }
}

fn swept(sweep: Sweep, group: &GroupId) -> Result<Event, OutOfMemory> {
    let group = group.copy()?;
    Ok(match sweep {
        Sweep::Deliver => Event::Deliver { group, place: 0 },
        Sweep::Lose => Event::Lose { group, place: 0 },
    })
}

/// Where a picture begins whose first row is the next one.
fn beginning_of(watched: &Option<Box<Watched>>) -> Beginning {
    match watched {
        None => Beginning {
            up: DaemonSet::first(16),
            interval: 0,
            acting: ActingSet::new(),
        },
        Some(watched) => Beginning {
            up: watched.world().map().up(),
            interval: watched.interval,
            acting: watched.acting,
        },
    }
}

/// Whether a daemon changes or an interval begins.
fn has_moves(happenings: &[Happening]) -> bool {
    happenings.iter().any(|happening| {
        matches!(
            happening,
            Happening::Interval { .. } | Happening::Daemon { .. }
        )
    })
}

impl Replay {
    fn new(alloc: Global, group: Option<GroupId>, selection: Selection, first: usize) -> Replay {
        Replay {
            alloc,
            watched: None,
            group,
            selection,
            tick: 0,
            line: None,
            has_row: false,
            before_lines: None,
            count: 0,
            first,
            beginning: None,
            rows: Vec::new(alloc),
            later: Vec::new(alloc),
        }
    }

    /// What a row is to the picture.
    fn part(&self, happenings: &[Happening]) -> Part {
        match &self.watched {
            None => Part::Shown,
            Some(watched) => watched.part(has_moves(happenings)),
        }
    }

    /// Adds a row of the present line, unless the row is left out.
    fn push_row(&mut self, happenings: Vec<Happening>) -> Result<(), OutOfMemory> {
        self.has_row = true;
        match self.part(happenings.as_slice()) {
            Part::Shown => {
                self.push_later()?;
                self.add_row(happenings)
            }
            Part::Later => {
                let line = self.line.take();
                self.later.push(Row { line, happenings })?;
                Ok(())
            }
            Part::Apart => {
                if self.rows.is_empty() {
                    self.beginning = None;
                }
                Ok(())
            }
        }
    }

    /// Adds a row with the line, if it is the first one of the line that is shown.
    fn add_row(&mut self, happenings: Vec<Happening>) -> Result<(), OutOfMemory> {
        if self.count >= self.first {
            let line = self.line.take();
            self.rows.push(Row { line, happenings })?;
        } else if let Some(line) = &mut self.line {
            line.continues = true;
        }
        self.count = self.count.saturating_add(1);
        Ok(())
    }

    /// Adds the rows that waited for one that is shown.
    fn push_later(&mut self) -> Result<(), OutOfMemory> {
        let later = mem::replace(&mut self.later, Vec::new(self.alloc));
        for row in later {
            if self.count >= self.first {
                self.rows.push(row)?;
            }
            self.count = self.count.saturating_add(1);
        }
        Ok(())
    }

    /// Looks at the world as it is before the first row that is not left out.
    fn begin_row(&mut self) -> Result<(), OutOfMemory> {
        if self.count < self.first {
            return Ok(());
        }
        if self.beginning.is_none() {
            self.beginning = Some(beginning_of(&self.watched));
        }
        match &mut self.watched {
            None => Ok(()),
            Some(watched) => watched.tell_decisions(),
        }
    }

    /// Carries out an event, which has a row where it does something to the group.
    fn happen(&mut self, event: Event) -> Result<(), OutOfMemory> {
        self.begin_row()?;
        let Some(watched) = &mut self.watched else {
            return Ok(());
        };
        let mut told = Vec::new(self.alloc);
        watched.happen(event, &mut told)?;
        if told.is_empty() {
            return Ok(());
        }
        self.push_row(told)
    }

    /// Delivers or loses the messages of a group until none is left.
    fn sweep_group(&mut self, sweep: Sweep, group: &GroupId) -> Result<(), OutOfMemory> {
        for _ in 0..MAX_DELIVERIES {
            let Some(watched) = &self.watched else {
                return Ok(());
            };
            if !has_messages(watched.world(), group) {
                return Ok(());
            }
            self.happen(swept(sweep, group)?)?;
        }
        Ok(())
    }

    fn groups(&self) -> Result<Vec<GroupId>, OutOfMemory> {
        match &self.watched {
            None => Ok(Vec::new(self.alloc)),
            Some(watched) => groups_of(self.alloc, watched.world()),
        }
    }

    fn sweep_all(&mut self, sweep: Sweep) -> Result<(), OutOfMemory> {
        let groups = self.groups()?;
        for group in &groups {
            self.sweep_group(sweep, group)?;
        }
        Ok(())
    }

    fn kick_all(&mut self) -> Result<(), OutOfMemory> {
        let groups = self.groups()?;
        for group in &groups {
            let group = group.copy()?;
            self.happen(Event::Kick { group })?;
        }
        Ok(())
    }

    /// Who asks now, and where.
    fn ask(&self, session: u32, pool: Name, namespace: Name) -> Ask {
        let epoch = match &self.watched {
            None => 0,
            Some(watched) => watched.world().map().epoch(),
        };
        Ask {
            session,
            epoch,
            tick: self.tick,
            pool,
            namespace,
        }
    }

    /// Makes the world, and says whether there was none.
    fn begin(&mut self, daemons: u8) -> Result<bool, OutOfMemory> {
        if self.watched.is_some() {
            return Ok(false);
        }
        let group = match &self.group {
            None => None,
            Some(group) => Some(group.copy()?),
        };
        let watched = Watched::new(self.alloc, daemons, group, self.selection.request)?;
        self.watched = Some(Box::new(self.alloc, watched)?);
        Ok(true)
    }

    /// Carries out a command, and says whether it is one at this place: the first has to be the number of daemons.
    fn carry_out(&mut self, command: Command) -> Result<bool, OutOfMemory> {
        match command {
            Command::Osds(daemons) => self.begin(daemons),
            command => {
                self.go_on(command)?;
                Ok(self.watched.is_some())
            }
        }
    }

    /// Adds a row with what a question prints of requests or groups.
    fn print(&mut self, question: &Command) -> Result<(), OutOfMemory> {
        self.begin_row()?;
        let Some(watched) = &mut self.watched else {
            return Ok(());
        };
        match watched.printed(question)? {
            None => Ok(()),
            Some(outcome) => {
                let mut happenings = Vec::new(self.alloc);
                happenings.push(Happening::Printed(outcome))?;
                self.push_row(happenings)
            }
        }
    }

    /// Carries out a command that is not the first. Where there is no world nothing happens.
    fn go_on(&mut self, command: Command) -> Result<(), OutOfMemory> {
        match command {
            Command::Happens(event) => self.happen(event),
            Command::Submit {
                session,
                pool,
                namespace,
                object,
                ops,
            } => {
                let ask = self.ask(session, pool, namespace);
                self.happen(Event::Submit { ask, object, ops })
            }
            Command::List {
                session,
                pool,
                namespace,
            } => {
                let ask = self.ask(session, pool, namespace);
                self.happen(Event::List(ask))
            }
            Command::Tick(tick) => {
                self.tick = tick;
                Ok(())
            }
            Command::Settle => self.sweep_all(Sweep::Deliver),
            Command::LoseAll => self.sweep_all(Sweep::Lose),
            Command::KickAll => self.kick_all(),
            question => self.print(&question),
        }
    }

    /// Replays a line that is not blank, and says whether it is a command at its place.
    fn replay_line(&mut self, line: &Line<'_>) -> Result<bool, OutOfMemory> {
        self.line = Some(ScriptLine {
            number: line.number,
            text: Vec::from_slice(self.alloc, line.text)?,
            continues: false,
        });
        self.has_row = false;
        self.begin_line(line.number);
        let is_command = match read_line(self.alloc, line.text)? {
            None => false,
            Some(command) => self.carry_out(command)?,
        };
        if !is_command {
            self.line = None;
        } else if !self.has_row {
            self.begin_row()?;
            self.push_row(Vec::new(self.alloc))?;
        }
        Ok(is_command)
    }

    /// Notes that a line begins.
    fn begin_line(&mut self, number: usize) {
        if self.before_lines.is_none() && !self.selection.is_before(number) {
            self.before_lines = Some(self.count);
        }
        if let Some(watched) = &mut self.watched {
            watched.begin_line();
        }
    }

    /// Replays all lines up to the last one of the selection, or to the first that is no command.
    fn replay(&mut self, script: &[u8]) -> Result<(), OutOfMemory> {
        let mut lines = Lines::new(script);
        while let Some(line) = lines.next_line() {
            if self.selection.is_behind(line.number) {
                return Ok(());
            }
            if !line.is_blank() && !self.replay_line(&line)? {
                return Ok(());
            }
        }
        Ok(())
    }

    /// The messages on their way at the end that belong to the picture.
    fn waiting(&self) -> Result<Vec<usize>, OutOfMemory> {
        let mut waiting = Vec::new(self.alloc);
        if let Some(watched) = &self.watched {
            for message in &watched.waiting {
                if watched.shows_message(*message) {
                    waiting.push(*message)?;
                }
            }
        }
        Ok(waiting)
    }

    /// Where the picture begins: where its first row does, or at the end where it has none.
    fn take_beginning(&mut self) -> Beginning {
        match self.beginning.take() {
            None => beginning_of(&self.watched),
            Some(beginning) => beginning,
        }
    }

    /// What was replayed, for good.
    fn take_story(&mut self) -> Result<Story, OutOfMemory> {
        let title = title_of(self.alloc, &self.group, self.selection)?;
        let mut waiting = self.waiting()?;
        let waiting_left_out = waiting.len().saturating_sub(MAX_WAITING);
        waiting.truncate(MAX_WAITING);
        let rows = mem::replace(&mut self.rows, Vec::new(self.alloc));
        let mut story = Story {
            title,
            left_out: self.count.saturating_sub(rows.len()),
            beginning: self.take_beginning(),
            rows,
            messages: Vec::new(self.alloc),
            waiting,
            waiting_left_out,
            daemons: DaemonSet::first(0),
        };
        if let Some(watched) = &mut self.watched {
            story.daemons = watched.daemons;
            mem::swap(&mut story.messages, &mut watched.messages);
        }
        Ok(story)
    }
}

/// What a script has, as far as it matters to the choice of a group.
pub(crate) struct Scouted {
    /// The group with most messages, if there is a group.
    pub(crate) busiest: Option<GroupId>,
    /// The group of the request, if the script submits it.
    pub(crate) of_request: Option<GroupId>,
    /// Whether the named group is there.
    pub(crate) has_named: bool,
}

impl Drop for Scouted {
    fn drop(self) {
        let Scouted {
            busiest: _,
            of_request: _,
            has_named: _,
        } = self;
    }
}

/// Replays a script to choose a group of it.
pub(crate) fn scout(
    alloc: Global,
    script: &[u8],
    named: &Option<GroupId>,
    request: Option<Id>,
) -> Result<Scouted, OutOfMemory> {
    let selection = Selection {
        lines: None,
        request,
    };
    let mut replay = Replay::new(alloc, None, selection, usize::MAX);
    replay.replay(script)?;
    let groups = replay.groups()?;
    let mut scouted = Scouted {
        busiest: None,
        of_request: None,
        has_named: false,
    };
    if let Some(watched) = &mut replay.watched {
        scouted.busiest = watched.busiest(groups.as_slice())?;
        scouted.of_request = watched.request_group.take();
        scouted.has_named = match named {
            None => false,
            Some(group) => watched.world().wire(group).is_ok(),
        };
    }
    Ok(scouted)
}

/// How many rows a picture has, if nothing is left out.
#[derive(Clone, Copy)]
pub(crate) struct RowCounts {
    /// Those before the first line of the selection, if that line is there.
    pub(crate) before_lines: Option<usize>,
    /// Those of steps.
    pub(crate) steps: usize,
    /// Those of messages that are on their way at the end.
    pub(crate) waiting: usize,
}

/// How many rows the picture of a group has.
pub(crate) fn row_counts(
    alloc: Global,
    script: &[u8],
    group: Option<GroupId>,
    selection: Selection,
) -> Result<RowCounts, OutOfMemory> {
    let mut replay = Replay::new(alloc, group, selection, usize::MAX);
    replay.replay(script)?;
    Ok(RowCounts {
        before_lines: replay.before_lines,
        steps: replay.count,
        waiting: replay.waiting()?.len().min(MAX_WAITING),
    })
}

/// What a script does to a group, from a row on.
pub(crate) fn story_of(
    alloc: Global,
    script: &[u8],
    group: Option<GroupId>,
    selection: Selection,
    first: usize,
) -> Result<Story, OutOfMemory> {
    let mut replay = Replay::new(alloc, group, selection, first);
    replay.replay(script)?;
    replay.take_story()
}
