//! The messages of a picture, each from the row of its sending to that of its end.

use crate::happenings::{End, Happening, Party, Story};
use crate::lanes::lane_of;
use place_core::OutOfMemory;
use std::alloc::Global;

/// So many messages wait side by side at a lane; more share the last track.
pub(crate) const TRACKS: usize = 8;

/// A message in a picture.
#[derive(Clone, Copy, Drop)]
pub(crate) struct Flight {
    /// Its number among the messages.
    pub(crate) message: usize,
    /// The lanes of its sender and of its addressee.
    pub(crate) from: usize,
    pub(crate) to: usize,
    /// The row in which it was sent, or none where it was sent before the first one.
    pub(crate) begins: Option<usize>,
    /// The row in which it ends. Those that are on their way at the end have a row each behind the others.
    pub(crate) ends: usize,
    pub(crate) end: End,
    /// Where it waits beside its sender's lane.
    pub(crate) track: usize,
}

/// The lanes that a message goes between.
fn lanes_of(story: &Story, lanes: &[Party], message: usize) -> (usize, usize) {
    match story.messages.get(message) {
        None => (0, 0),
        Some(message) => (lane_of(lanes, message.from), lane_of(lanes, message.to)),
    }
}

/// A message that was sent in a row, or before the first one.
fn sent(story: &Story, lanes: &[Party], message: usize, begins: Option<usize>) -> Flight {
    let (from, to) = lanes_of(story, lanes, message);
    Flight {
        message,
        from,
        to,
        begins,
        ends: usize::MAX,
        end: End::OnItsWay,
        track: 0,
    }
}

/// Flights, and of each message the place of its flight.
struct Flights {
    flights: Vec<Flight>,
    places: Vec<Option<usize>>,
}

impl Drop for Flights {
    fn drop(self) {
        let Flights {
            flights: _,
            places: _,
        } = self;
    }
}

impl Flights {
    /// No flights yet, of a story with `messages` messages.
    fn new(alloc: Global, messages: usize) -> Result<Flights, OutOfMemory> {
        Ok(Flights {
            flights: Vec::new(alloc),
            places: vec![in alloc; None; messages]?,
        })
    }

    fn push(&mut self, flight: Flight) -> Result<(), OutOfMemory> {
        let place = self.flights.len();
        self.flights.push(flight)?;
        if let Some(of_message) = self.places.get_mut(flight.message) {
            *of_message = Some(place);
        }
        Ok(())
    }

    /// Ends the flight of a message, which may have begun before the first row.
    fn end(&mut self, unseen: Flight, end: End, row: usize) -> Result<(), OutOfMemory> {
        if let Some(Some(place)) = self.places.get(unseen.message) {
            if let Some(flight) = self.flights.get_mut(*place) {
                flight.ends = row;
                flight.end = end;
                return Ok(());
            }
        }
        let mut flight = unseen;
        flight.ends = row;
        flight.end = end;
        self.push(flight)
    }

    fn into_vec(self) -> Vec<Flight> {
        let Flights { flights, places: _ } = self;
        flights
    }
}

/// Each message that the rows tell of, without its track.
fn told_flights(alloc: Global, story: &Story, lanes: &[Party]) -> Result<Vec<Flight>, OutOfMemory> {
    let mut flights = Flights::new(alloc, story.messages.len())?;
    for (row, told) in story.rows.iter().enumerate() {
        for happening in &told.happenings {
            match happening {
                Happening::Sent { message } => {
                    flights.push(sent(story, lanes, *message, Some(row)))?;
                }
                Happening::Ended { message, end } => {
                    flights.end(sent(story, lanes, *message, None), *end, row)?;
                }
                _ => (),
            }
        }
    }
    for (place, message) in story.waiting.iter().enumerate() {
        let row = story.rows.len().saturating_add(place);
        let unseen = sent(story, lanes, *message, None);
        flights.end(unseen, End::OnItsWay, row)?;
    }
    let mut flights = flights.into_vec();
    flights.retain(|flight| flight.ends != usize::MAX);
    Ok(flights)
}

/// The lane to which the first message of each row that ends there comes.
pub(crate) fn reached_lanes(
    alloc: Global,
    flights: &[Flight],
    rows: usize,
) -> Result<Vec<Option<usize>>, OutOfMemory> {
    let mut reached = vec![in alloc; None; rows]?;
    for flight in flights {
        if let Some(lane) = reached.get_mut(flight.ends) {
            if lane.is_none() {
                *lane = Some(flight.to);
            }
        }
    }
    Ok(reached)
}

/// Until which row each track of a lane is taken.
type Taken = [usize; TRACKS];

/// The first track that is free from a row on, or the last one.
fn free_track(taken: &Taken, row: usize) -> usize {
    for (track, until) in taken.iter().enumerate() {
        if *until <= row {
            return track;
        }
    }
    TRACKS - 1
}

/// Gives tracks to the messages of one lane: those that began before the first row, or the others.
fn give_tracks(flights: &mut Vec<Flight>, taken: &mut Taken, lane: usize, early: bool) {
    for flight in flights.iter_mut() {
        if flight.from == lane && flight.begins.is_none() == early {
            let track = free_track(taken, flight.begins.unwrap_or(0));
            flight.track = track;
            if let Some(until) = taken.get_mut(track) {
                *until = (*until).max(flight.ends);
            }
        }
    }
}

/// The messages of a picture. They are in the order of their sending, except those that were sent before the first row.
pub(crate) fn flights_of(
    alloc: Global,
    story: &Story,
    lanes: &[Party],
) -> Result<Vec<Flight>, OutOfMemory> {
    let mut flights = told_flights(alloc, story, lanes)?;
    for lane in 0..lanes.len() {
        let mut taken = [0; TRACKS];
        give_tracks(&mut flights, &mut taken, lane, true);
        give_tracks(&mut flights, &mut taken, lane, false);
    }
    Ok(flights)
}
