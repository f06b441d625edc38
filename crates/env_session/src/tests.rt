//! Nothing but the spans is kept: a further field would have to be named in these patterns. The other tests of this crate
//! are in environment_tests; this one looks at private fields.

use super::*;
use crate::marks::Span;
use envimg_core::{Choice, Geometry, Layout};
use envvars_core::Vars;
use std::test::Fail;

#[test]
fn a_session_keeps_its_spans_and_nothing_else(rt: HostRuntime) -> Result<(), Fail> {
    let Some(geometry) = Geometry::new(Layout::Single, 64) else {
        panic!(rt; "no geometry");
    };
    let stored = Stored {
        geometry,
        first: vec![in rt.alloc(); 255u8; 64]?,
        second: None,
    };
    let Ok(session) = Session::start(rt.alloc(), stored, Vars::empty(rt.alloc(), 60)) else {
        panic!(rt; "no start");
    };
    let Session {
        alloc: _,
        stored: _,
        defaults: _,
        vars: _,
        current,
        spans,
        marks,
    } = &session;
    assert_eq!(rt; *marks, 0);
    assert_eq!(rt; *current, Choice::Neither);
    assert_eq!(rt; spans.len(), 65);
    let Span {
        olds,
        first,
        second,
        current,
    } = &spans[0];
    assert_eq!(rt; olds.len(), 0);
    assert!(rt; first.is_none() && second.is_none());
    assert_eq!(rt; *current, Choice::Neither);
    Ok(())
}
