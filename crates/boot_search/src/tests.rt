//! A board that counts its power-ons, and what is printed of it: worked out by hand from docs/boot.md.

use crate::sample::CountedBoard;
use crate::{
    Board, BootText, End, Limits, dot_text, endings_of, explore, explore_boots, path_to,
    survey_text,
};
use std::alloc::{AllocError, Global};
use std::test::Fail;

const LIMITS: Limits = Limits {
    stored: 10,
    ways: 100,
};

/// A board whose full count is 1, and what it does then.
fn counts_to_one(full: End) -> CountedBoard {
    CountedBoard { most: 1, full }
}

#[test]
fn one_power_on_has_three_endings(rt: HostRuntime) -> Result<(), Fail> {
    let alloc = rt.alloc();
    let mut powered = counts_to_one(End::GivesUp).with(alloc, &[0])?;
    let endings = endings_of(alloc, &mut powered, 100)?;
    assert!(rt; endings.complete);
    assert_eq!(rt; endings.found.len(), 3);
    let ending = &endings.found[1];
    assert_eq!(rt; ending.by.as_slice(), b"reset\0".as_slice());
    assert_eq!(rt; ending.answers.len(), 2);
    let answer = &ending.answers[1];
    assert_eq!(rt;
        answer.question.as_slice(),
        b"bootm\00x42000000\0".as_slice()
    );
    assert_eq!(rt; answer.choice, 1);
    let few = endings_of(alloc, &mut powered, 4)?;
    assert!(rt; !few.complete);
    Ok(())
}

/// The count goes up before the system is known to be up, and nothing sets it back: at 3 the board is lost.
#[test]
fn a_count_that_nothing_sets_back(rt: HostRuntime) -> Result<(), Fail> {
    let alloc = rt.alloc();
    let board = CountedBoard {
        most: 3,
        full: End::GivesUp,
    };
    let survey = explore_boots(alloc, &board, &[0], LIMITS)?;
    assert!(rt; survey.report.complete);
    assert_eq!(rt; survey.report.stored.len(), 4);
    assert_eq!(rt; survey.report.ways.len(), 10);
    assert_eq!(rt;
        survey.boots.as_slice(),
        [true, true, true, false].as_slice()
    );
    let path = path_to(alloc, &survey.report, 3)?;
    assert_eq!(rt; path.as_slice(), [0usize, 3, 6].as_slice());
    Ok(())
}

#[test]
fn a_limit_is_said(rt: HostRuntime) -> Result<(), Fail> {
    let alloc = rt.alloc();
    let board = CountedBoard {
        most: 30,
        full: End::GivesUp,
    };
    let report = explore(alloc, &board, &[0], LIMITS)?;
    assert!(rt; !report.complete);
    assert_eq!(rt; report.stored.len(), 11);
    let narrow = explore(
        alloc,
        &board,
        &[0],
        Limits {
            stored: 100,
            ways: 20,
        },
    )?;
    assert!(rt; !narrow.complete);
    assert!(rt; narrow.ways.len() <= 20);
    Ok(())
}

/// The text and the status of a survey of this board from a count of 0.
fn surveyed(alloc: Global, board: &CountedBoard, limits: Limits) -> Result<BootText, AllocError> {
    let survey = explore_boots(alloc, board, &[0], limits)?;
    survey_text(alloc, board, &survey)
}

#[test]
fn a_lost_environment(rt: HostRuntime) -> Result<(), Fail> {
    let text = b"stored 1
  count 0
  saveenv = 0, bootm 0x42000000 = 0: boots: bootm 0x42000000; stored 2
  saveenv = 0, bootm 0x42000000 = 1: resets: reset; stored 2
  saveenv = 1: resets: saveenv; stored 1
stored 2
  count 1
  gives up; stored 2
2 stored environments, 4 ways: 1 boot, 2 reset, 1 give up, 0 unknown
1 stored environment never boots again, after:
  stored 1: saveenv = 0, bootm 0x42000000 = 0: boots: bootm 0x42000000; stored 2
";
    let found = surveyed(rt.alloc(), &counts_to_one(End::GivesUp), LIMITS)?;
    assert_eq!(rt; found.text.as_slice(), text.as_slice());
    assert_eq!(rt; found.status, 1);
    Ok(())
}

#[test]
fn the_graph_of_a_lost_environment(rt: HostRuntime) -> Result<(), Fail> {
    let text = b"digraph boot {
  label=\"2 stored environments, 4 ways: 1 boot, 2 reset, 1 give up, 0 unknown\\l\";
  s1 [label=\"stored 1\\l  count 0\\l\" shape=box];
  s2 [label=\"stored 2\\l  count 1\\lnever boots again\\l\" shape=box color=red penwidth=2];
  s1 -> s2 [label=\"saveenv = 0\\lbootm 0x42000000 = 0\\lboots: bootm 0x42000000\\l\" color=darkgreen];
  s1 -> s2 [label=\"saveenv = 0\\lbootm 0x42000000 = 1\\lresets: reset\\l\"];
  s1 -> s1 [label=\"saveenv = 1\\lresets: saveenv\\l\"];
  s2 -> \"gives up\" [label=\"gives up\\l\" color=red];
}
";
    let alloc = rt.alloc();
    let board = counts_to_one(End::GivesUp);
    let survey = explore_boots(alloc, &board, &[0], LIMITS)?;
    let found = dot_text(alloc, &board, &survey)?;
    assert_eq!(rt; found.text.as_slice(), text.as_slice());
    assert_eq!(rt; found.status, 1);
    Ok(())
}

#[test]
fn an_environment_that_may_boot(rt: HostRuntime) -> Result<(), Fail> {
    let text = b"stored 1
  count 0
  saveenv = 0, bootm 0x42000000 = 0: boots: bootm 0x42000000; stored 2
  saveenv = 0, bootm 0x42000000 = 1: resets: reset; stored 2
  saveenv = 1: resets: saveenv; stored 1
stored 2
  count 1
  unknown: steps; stored 2
2 stored environments, 4 ways: 1 boot, 2 reset, 0 give up, 1 unknown
1 stored environment boots only if a limit of the run isn't met
";
    let found = surveyed(rt.alloc(), &counts_to_one(End::Unknown), LIMITS)?;
    assert_eq!(rt; found.text.as_slice(), text.as_slice());
    assert_eq!(rt; found.status, 1);
    Ok(())
}

#[test]
fn a_limit_is_printed(rt: HostRuntime) -> Result<(), Fail> {
    let text = b"stored 1
  count 0
  saveenv = 0, bootm 0x42000000 = 0: boots: bootm 0x42000000; stored 2
  saveenv = 0, bootm 0x42000000 = 1: resets: reset; stored 2
  saveenv = 1: resets: saveenv; stored 1
stored 2
  count 1
2 stored environments, 3 ways: 1 boot, 2 reset, 0 give up, 0 unknown
a limit was met: there are more ways than these
";
    let limits = Limits {
        stored: 1,
        ways: 100,
    };
    let found = surveyed(rt.alloc(), &counts_to_one(End::GivesUp), limits)?;
    assert_eq!(rt; found.text.as_slice(), text.as_slice());
    assert_eq!(rt; found.status, 1);
    Ok(())
}

#[test]
fn a_board_that_always_boots(rt: HostRuntime) -> Result<(), Fail> {
    let text = b"stored 1
  count 0
  boots: bootm 0x42000000; stored 1
1 stored environment, 1 way: 1 boot, 0 reset, 0 give up, 0 unknown
";
    let board = CountedBoard {
        most: 0,
        full: End::Boots,
    };
    let found = surveyed(rt.alloc(), &board, LIMITS)?;
    assert_eq!(rt; found.text.as_slice(), text.as_slice());
    assert_eq!(rt; found.status, 0);
    Ok(())
}

#[test]
fn a_board_that_is_lost_at_once(rt: HostRuntime) -> Result<(), Fail> {
    let text = b"stored 1
  count 0
  gives up; stored 1
1 stored environment, 1 way: 0 boot, 0 reset, 1 give up, 0 unknown
1 stored environment never boots again, after:
";
    let board = CountedBoard {
        most: 0,
        full: End::GivesUp,
    };
    let found = surveyed(rt.alloc(), &board, LIMITS)?;
    assert_eq!(rt; found.text.as_slice(), text.as_slice());
    assert_eq!(rt; found.status, 1);
    Ok(())
}
