//! Numbers of terms, on the happy path.

use crate::{Form, Node, Terms};
use std::test::Fail;

#[test]
fn one_number_for_a_term(rt: HostRuntime) -> Result<(), Fail> {
    let mut terms = Terms::new(rt.alloc());
    let leaf = Node {
        form: Form::Int,
        value: 8,
        left: 0,
        right: 0,
    };
    assert_eq!(rt; terms.put(leaf)?, 1);
    let other = Node {
        form: Form::Int,
        value: 16,
        left: 0,
        right: 0,
    };
    assert_eq!(rt; terms.put(other)?, 2);
    assert_eq!(rt; terms.put(leaf)?, 1);
    Ok(())
}
