//! The first faults of sources, and sources that have none.

use super::accepted::ACCEPTED;
use super::grammar_faults::GRAMMAR_FAULTS;
use super::reading::{parsed, read};
use super::rule_faults::{FAULTLESS, RULE_FAULTS};
use super::token_faults::TOKEN_FAULTS;
use es_source::{FaultCode, Place, ReadStop, SourceFault};
use std::alloc::Global;

/// A source and its first fault: the code, the line and the column.
pub struct Fault(pub &'static str, pub FaultCode, pub u32, pub u32);

/// The same of bytes, which need not be a text.
pub struct ByteFault(pub &'static [u8], pub FaultCode, pub u32, pub u32);

fn has_fault(alloc: Global, source: &[u8], code: FaultCode, place: (u32, u32)) -> bool {
    let fault = SourceFault {
        code,
        place: Place {
            line: place.0,
            column: place.1,
        },
    };
    match read(alloc, source) {
        Ok(_) => false,
        Err(stop) => stop == ReadStop::Fault(fault),
    }
}

/// The number of the first row that has another fault, or none.
fn first_other(alloc: Global, rows: &[Fault]) -> Option<usize> {
    for (number, row) in rows.iter().enumerate() {
        if !has_fault(alloc, row.0.as_bytes(), row.1, (row.2, row.3)) {
            return Some(number);
        }
    }
    None
}

fn first_other_of_bytes(alloc: Global, rows: &[ByteFault]) -> Option<usize> {
    for (number, row) in rows.iter().enumerate() {
        if !has_fault(alloc, row.0, row.1, (row.2, row.3)) {
            return Some(number);
        }
    }
    None
}

#[test]
fn faults_of_tokens(rt: HostRuntime) {
    assert_eq!(rt; first_other_of_bytes(rt.alloc(), TOKEN_FAULTS), None);
}

#[test]
fn faults_of_grammar(rt: HostRuntime) {
    assert_eq!(rt; first_other(rt.alloc(), GRAMMAR_FAULTS), None);
}

#[test]
fn faults_of_rules(rt: HostRuntime) {
    assert_eq!(rt; first_other(rt.alloc(), RULE_FAULTS), None);
}

#[test]
fn sources_with_a_script(rt: HostRuntime) {
    for source in ACCEPTED {
        assert!(rt; parsed(rt.alloc(), source.as_bytes()).is_ok(), "{source:?}");
    }
}

#[test]
fn sources_that_keep_the_rules(rt: HostRuntime) {
    for source in FAULTLESS {
        assert!(rt; read(rt.alloc(), source.as_bytes()).is_ok(), "{source:?}");
    }
}
