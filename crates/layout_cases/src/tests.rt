//! Every expected value follows from the rules by hand.

mod blocks;
mod dictionaries;
mod elements;
mod maps;
mod origins;
mod representations;
mod trees;
mod validity;
