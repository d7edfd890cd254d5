//! Every expected value follows from the rules by hand.

mod callers;
mod constructing;
mod heap;
mod limits;
mod methods;
mod receivers;
