//! The generated script, byte for byte as it is worked out by hand from its definition.

use crate::generated;
use std::test::Fail;

const ONE: &[u8] = b"let t=0;
function F1(x){this.a=x;this.b1=x;}
t=t+new F1(1).a+new F1(1).a;
print(t);
";

const TWO: &[u8] = b"let t=0;
function F1(x){this.a=x;this.b1=x;}
t=t+new F1(1).a+new F1(1).a;
function F2(x){this.a=x;this.b2=x;}
t=t+new F2(2).a+new F2(2).a;
print(t);
";

// Behind the line of nine bytes, each number of one digit has lines of 36 and 29 bytes, and 10 has lines of 38 and 33.
const TENTH: &[u8] = b"function F10(x){this.a=x;this.b10=x;}
t=t+new F10(10).a+new F10(10).a;
print(t);
";

#[test]
fn first_scripts(rt: HostRuntime) -> Result<(), Fail> {
    let one = generated(rt.alloc(), 1)?;
    assert!(rt; one.as_slice() == ONE);
    let two = generated(rt.alloc(), 2)?;
    assert!(rt; two.as_slice() == TWO);
    assert_eq!(rt; two.len(), 149);
    let ten = generated(rt.alloc(), 10)?;
    assert!(rt; ten.as_slice().ends_with(TENTH));
    assert_eq!(rt; ten.len(), 9 + 9 * 65 + 38 + 33 + 10);
    Ok(())
}
