//! Every expected value follows from the rules by hand.

mod items;
mod outside;
mod start;
mod validation;
mod values;
