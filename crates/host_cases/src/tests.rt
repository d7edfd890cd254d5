//! Calls of the host and runs of scripts. Every expected value follows by hand from the steps of the standard and the rules of turns.

mod budgets;
mod builtins;
mod commands;
mod endings;
mod functions;
mod generated;
mod host;
mod limits;
mod memory;
mod reading;
mod scripts;
mod uncaught;
