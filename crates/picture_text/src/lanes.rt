//! Where everything of a picture stands: the lanes from left to right, the rows from the top to the bottom.

use crate::flights::{Flight, TRACKS, flights_of, reached_lanes};
use crate::happenings::{End, Happening, Party, Row, Story};
use crate::lengths::Px;
use crate::notes::{Note, notes_of};
use place_core::OutOfMemory;
use std::alloc::Global;

/// The left edge of the script's lines, of the intervals' names, and of the client's lane.
pub(crate) const SCRIPT: Px = Px(16);

pub(crate) const INTERVALS: Px = Px(430);

const FIRST_LANE: Px = Px(596);
/// The top of the first row: above it stand the heads of the lanes.
pub(crate) const FIRST_ROW: Px = Px(92);
/// Between two tracks.
pub(crate) const TRACK: Px = Px(6);
/// Beside a lane and beside its tracks.
pub(crate) const ASIDE: Px = Px(10);
/// The height of a line of text.
pub(crate) const TEXT_LINE: Px = Px(14);
/// The least height of a row.
const ROW: Px = Px(28);
/// No letter of a note is wider.
const WIDEST_LETTER: Px = Px(11);
/// The least width of the notes.
const NOTES: Px = Px(300);
/// The least width, which the foot takes.
const LEAST_WIDTH: Px = Px(1286);
/// The height of what stands below the last row.
const FOOT: Px = Px(88);
/// The height of the lanes' names where they are repeated.
const NAMES: Px = Px(24);
/// The number of rows after which the names of the lanes are repeated, if a page has more.
const NAMES_EVERY: usize = 40;

/// The largest number of bytes of a script's line side by side, in one piece.
pub(crate) const LINE_BYTES: usize = 52;

/// The largest number of such pieces, one below another.
pub(crate) const LINE_PIECES: usize = 4;

/// A lane of the picture.
#[derive(Drop)]
pub(crate) struct Lane {
    pub(crate) party: Party,
    /// Its place, from the left.
    pub(crate) x: Px,
    /// Where its tracks end and labels begin.
    pub(crate) labels: Px,
}

/// Where a row stands.
#[derive(Clone, Copy, Drop)]
pub(crate) struct Place {
    pub(crate) top: Px,
    pub(crate) height: Px,
}

/// All that is drawn, with its places.
pub(crate) struct Layout {
    pub(crate) lanes: Vec<Lane>,
    pub(crate) flights: Vec<Flight>,
    /// Of each row the lane to which a message comes that ends there.
    pub(crate) reached: Vec<Option<usize>>,
    /// The notes at the right of each row.
    pub(crate) notes: Vec<Vec<Note>>,
    /// The places of the rows, and behind them of the messages that are on their way at the end.
    pub(crate) places: Vec<Place>,
    /// Where the names of the lanes are repeated.
    pub(crate) names: Vec<Px>,
    /// The left edge of the notes.
    pub(crate) notes_x: Px,
    pub(crate) width: Px,
    /// The height of a page, if the picture is printed.
    pub(crate) page: Px,
    /// Where the last row ends.
    pub(crate) bottom: Px,
    /// Where the legend begins.
    pub(crate) foot: Px,
    pub(crate) height: Px,
}

impl Drop for Layout {
    fn drop(self) {
        let Layout {
            lanes: _,
            flights: _,
            reached: _,
            notes: _,
            places: _,
            names: _,
            notes_x: _,
            width: _,
            page: _,
            bottom: _,
            foot: _,
            height: _,
        } = self;
    }
}

/// The lane of a party, or the client's where it has none.
pub(crate) fn lane_of(lanes: &[Party], party: Party) -> usize {
    for (place, lane) in lanes.iter().enumerate() {
        if *lane == party {
            return place;
        }
    }
    0
}

/// The client, and the daemons of the group's acting sets.
pub(crate) fn parties(alloc: Global, story: &Story) -> Result<Vec<Party>, OutOfMemory> {
    let mut parties = Vec::new(alloc);
    parties.push(Party::Client)?;
    for daemon in 0..16 {
        if story.daemons.has(daemon) {
            parties.push(Party::Osd(daemon))?;
        }
    }
    Ok(parties)
}

/// The name of a lane.
pub(crate) fn party_name(alloc: Global, party: Party) -> Result<String, OutOfMemory> {
    match party {
        Party::Client => String::from_str(alloc, "client"),
        Party::Osd(daemon) => format!(in alloc; "osd.{daemon}"),
    }
}

/// What stands at a message's end: its name, and what became of it.
pub(crate) fn label_of(
    alloc: Global,
    story: &Story,
    flight: &Flight,
) -> Result<String, OutOfMemory> {
    let Some(message) = story.messages.get(flight.message) else {
        return Ok(String::new(alloc));
    };
    let mut text = message.name.clone()?;
    if message.repeated {
        text.push_str(", repeated")?;
    }
    let name = party_name(alloc, message.to)?;
    match flight.end {
        End::Delivered => (),
        End::Unreachable => text.push_str(", is down")?,
        End::Lost => {
            text.push_str(", lost to ")?;
            text.push_str(name.as_str())?;
        }
        End::OnItsWay => {
            text.push_str(" to ")?;
            text.push_str(name.as_str())?;
        }
    }
    Ok(text)
}

/// The lane right of which a message's label stands.
pub(crate) fn label_lane(flight: &Flight) -> usize {
    match flight.end {
        End::Lost | End::OnItsWay => flight.from,
        End::Delivered | End::Unreachable => {
            if flight.from < flight.to {
                flight.to.saturating_sub(1)
            } else {
                flight.to
            }
        }
    }
}

/// The width of `count` letters.
pub(crate) fn text_width(count: usize) -> Px {
    Px(7) * count
}

/// How much room a label takes.
fn label_width(alloc: Global, story: &Story, flight: &Flight) -> Result<Px, OutOfMemory> {
    let label = label_of(alloc, story, flight)?;
    let mark = match flight.end {
        End::Lost | End::OnItsWay => Px(44),
        End::Delivered | End::Unreachable => Px(24),
    };
    Ok(text_width(label.len()) + mark)
}

/// The width of what stands right of a lane: its tracks, and the widest label.
fn room_of(
    alloc: Global,
    story: &Story,
    flights: &[Flight],
    lane: usize,
) -> Result<(Px, Px), OutOfMemory> {
    let mut tracks = 0;
    let mut room = Px(72);
    for flight in flights {
        if flight.from == lane && flight.track < TRACKS {
            tracks = tracks.max(flight.track + 1);
        }
        if label_lane(flight) == lane {
            room = room.or_more(label_width(alloc, story, flight)?);
        }
    }
    Ok((ASIDE + TRACK * tracks, room))
}

/// The lanes, from left to right, and the right edge of the last one.
fn lanes_at(
    alloc: Global,
    story: &Story,
    parties: &[Party],
    flights: &[Flight],
) -> Result<(Vec<Lane>, Px), OutOfMemory> {
    let mut lanes = Vec::new(alloc);
    let mut x = FIRST_LANE;
    for (place, party) in parties.iter().enumerate() {
        let (tracks, room) = room_of(alloc, story, flights, place)?;
        lanes.push(Lane {
            party: *party,
            x,
            labels: x + tracks,
        })?;
        x = x + tracks + room;
    }
    Ok((lanes, x))
}

/// How many pieces a script's line has, and one more where it says that its first rows are left out.
fn pieces_of(row: &Row) -> usize {
    let Some(line) = &row.line else {
        return 0;
    };
    let pieces = line.text.len().saturating_add(LINE_BYTES - 1) / LINE_BYTES;
    pieces.clamp(1, LINE_PIECES) + usize::from(line.continues)
}

fn begins_interval(row: &Row) -> bool {
    row.happenings.iter().any(|happening| matches!(happening, Happening::Interval { .. }))
}

/// How high a row is, by the lines of text that stand in it.
fn height_of(row: &Row, notes: &[Note], names_interval: bool) -> Px {
    let mut lines = pieces_of(row).max(notes.len());
    if names_interval {
        lines = lines.max(2);
    }
    ROW.or_more(TEXT_LINE * lines + Px(12))
}

/// Rows as they are placed one below another, each on one page.
struct Placing {
    page: Px,
    /// Where the next row begins, and where its page ends.
    top: Px,
    page_end: Px,
    /// How many rows there are since the names of the lanes.
    since_names: usize,
    names: Vec<Px>,
    places: Vec<Place>,
}

impl Drop for Placing {
    fn drop(self) {
        let Placing {
            page: _,
            top: _,
            page_end: _,
            since_names: _,
            names: _,
            places: _,
        } = self;
    }
}

impl Placing {
    fn new(alloc: Global, page: Px) -> Placing {
        Placing {
            page,
            top: FIRST_ROW,
            page_end: page,
            since_names: 0,
            names: Vec::new(alloc),
            places: Vec::new(alloc),
        }
    }

    /// Whether something has no room on the page of the next row.
    fn is_full(&self, height: Px) -> bool {
        self.page_end.0 < (self.top + height).0
    }

    fn turn_page(&mut self) {
        self.top = self.page_end;
        self.page_end = self.page_end + self.page;
    }

    /// Places a row. Above it are the names of the lanes, where it is the first of its page or the last names are far above.
    fn push(&mut self, height: Px) -> Result<(), OutOfMemory> {
        let is_far = self.since_names >= NAMES_EVERY;
        let turns = self.is_full(if is_far { height + NAMES } else { height });
        if turns {
            self.turn_page();
        }
        if turns || is_far {
            self.names.push(self.top)?;
            self.top = self.top + NAMES;
            self.since_names = 0;
        }
        let top = self.top;
        self.places.push(Place { top, height })?;
        self.top = top + height;
        self.since_names = self.since_names.saturating_add(1);
        Ok(())
    }

    /// The places of the rows, and where the names of the lanes are repeated.
    fn into_parts(self) -> (Vec<Place>, Vec<Px>) {
        let Placing {
            page: _,
            top: _,
            page_end: _,
            since_names: _,
            names,
            places,
        } = self;
        (places, names)
    }

    /// Where the legend begins: below the last row, or on a page of its own.
    fn foot(&self) -> Px {
        if self.is_full(FOOT) {
            self.page_end
        } else {
            self.top
        }
    }
}

/// Places the rows, and behind them the messages that are on their way at the end.
fn placed_rows(
    alloc: Global,
    story: &Story,
    notes: &[Vec<Note>],
    page: Px,
) -> Result<Placing, OutOfMemory> {
    let mut placing = Placing::new(alloc, page);
    for (place, (row, notes)) in story.rows.iter().zip(notes).enumerate() {
        let names_interval = place == 0 || begins_interval(row);
        placing.push(height_of(row, notes.as_slice(), names_interval))?;
    }
    for _ in 0..story.waiting.len() {
        placing.push(ROW)?;
    }
    Ok(placing)
}

/// The height of a page of this width: it fits on A4 and on letter, each laid across.
fn page_of(width: Px) -> Px {
    Px(width.0 / 10 * 7)
}

/// The notes of each row.
fn notes_of_rows(alloc: Global, story: &Story) -> Result<Vec<Vec<Note>>, OutOfMemory> {
    let mut all = Vec::new(alloc);
    for row in &story.rows {
        all.push(notes_of(alloc, row)?)?;
    }
    Ok(all)
}

/// The width of the longest note of a row.
fn longest_note(notes: &[Note]) -> Px {
    let mut width = Px(0);
    for note in notes {
        width = width.or_more(WIDEST_LETTER * note.text.len());
    }
    width
}

/// The width of the notes of all rows, with a margin at either side.
fn notes_width(notes: &[Vec<Note>]) -> Px {
    let mut width = NOTES;
    for row in notes {
        width = width.or_more(longest_note(row.as_slice()) + Px(24));
    }
    width
}

/// Where everything of a story stands.
pub(crate) fn layout_of(alloc: Global, story: &Story) -> Result<Layout, OutOfMemory> {
    let parties = parties(alloc, story)?;
    let flights = flights_of(alloc, story, parties.as_slice())?;
    let (lanes, notes_x) = lanes_at(alloc, story, parties.as_slice(), flights.as_slice())?;
    let notes = notes_of_rows(alloc, story)?;
    let width = LEAST_WIDTH.or_more(notes_x + notes_width(notes.as_slice()));
    let page = page_of(width);
    let placing = placed_rows(alloc, story, notes.as_slice(), page)?;
    let (bottom, foot) = (placing.top, placing.foot());
    let reached = reached_lanes(alloc, flights.as_slice(), story.rows.len())?;
    let (places, names) = placing.into_parts();
    Ok(Layout {
        lanes,
        flights,
        reached,
        notes,
        places,
        names,
        notes_x,
        width,
        page,
        bottom,
        foot,
        height: foot + FOOT,
    })
}
