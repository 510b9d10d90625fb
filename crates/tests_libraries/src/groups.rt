mod limits;
mod moves;
mod moving;
mod requests;
mod schedules;
mod steps;
