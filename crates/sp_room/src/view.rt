//! What a seat knows: its view, which its own steps alone change. No value of it is made.
use std::collections::LinkedList;

/// The view of a seat, which its own steps alone change.
pub struct View<O, N> {
    /// The state with which the room was made; none where the seat is spent.
    pub opening: Option<O>,
    pub number: u64,
    /// The history that the seat has seen, a beginning of the room's.
    pub seen: LinkedList<N>,
    /// Its own notes in the room's history.
    pub own: LinkedList<N>,
    /// How often it has given the turn back.
    pub turns: u64,
    /// How many notes of the reserve are its own, or are to be given out by it.
    pub claims: u64,
    /// Where it holds the turn: how many notes are in reserve.
    pub reserve: u64,
    /// It holds the turn.
    pub holding: bool,
    /// It is taken into another seat, and holds nothing for ever.
    pub spent: bool,
    /// Of the seat that was made last: how many seats there are. Of another: 0.
    pub seats_made: u64,
    /// The first number of the seats taken in, which are all from there up to this seat.
    pub from: u64,
    /// The own notes of the seats taken in, from that number on.
    pub joined: LinkedList<LinkedList<N>>,
    /// What the seats taken in had seen, from that number on.
    pub looked: LinkedList<LinkedList<N>>,
}
