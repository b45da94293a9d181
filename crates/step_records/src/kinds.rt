//! The first byte of a record, by what its step is, and how many cards a create has.

pub(crate) const INIT: u8 = 1;

pub(crate) const CREATE: u8 = 2;

pub(crate) const ADD: u8 = 3;

pub(crate) const REMOVE: u8 = 4;

pub(crate) const UPDATE: u8 = 5;

pub(crate) const SEND: u8 = 6;

pub(crate) const PACKET: u8 = 7;

/// The most cards of a create.
pub(crate) const MOST_CARDS: u8 = 31;
