// Each limit at the last size taken and the first refused, values, facts and orders.
use models::Named;
use semantics::{Access, Instruction, LOCATIONS, PLACES, Refusal, Stored, Test};

// The number of a refusal, and 0 where there is none: no refusal has it, and the cases stay short.
fn number<T: Drop>(r: Result<T, Refusal>) -> u8 {
    match r {
        Ok(_) => 0,
        Err(refusal) => refusal.number(),
    }
}

fn read(target: u8, location: u8) -> Instruction {
    Instruction::Read {
        location,
        target,
        address: None,
    }
}

fn write(location: u8, value: u8) -> Instruction {
    Instruction::Write {
        location,
        stored: Stored::Constant(value),
        address: None,
    }
}

fn store(location: u8, register: u8, address: Option<u8>) -> Instruction {
    Instruction::Write {
        location,
        stored: Stored::Register(register),
        address,
    }
}

// A function for each: a case with named fields cannot be handed over as a function.
fn sum(target: u8, first: u8, second: u8) -> Instruction {
    Instruction::Sum {
        target,
        first,
        second,
    }
}

fn difference(target: u8, first: u8, second: u8) -> Instruction {
    Instruction::Difference {
        target,
        first,
        second,
    }
}

// A test with these instructions, each with its thread and, of a read, its expected value.
fn test(entries: &[(u8, Instruction, Option<u8>)]) -> Test {
    let mut test = Test::new();
    for (thread, instruction, expected) in entries {
        if let Ok(place) = test.enter(*thread, *instruction)
            && let Some(value) = expected
        {
            let _ = test.expect(place, *value);
        }
    }
    test
}

#[test]
fn bounds(rt: HostRuntime) {
    let entries = [
        (3, Instruction::Fence, 0),
        (4, Instruction::Fence, 1),
        (255, read(8, 4), 1),
        (0, read(7, 3), 0),
        (0, read(8, 3), 2),
        (0, read(7, 4), 2),
        (0, store(0, 7, Some(7)), 0),
        (0, store(0, 8, None), 2),
        (0, store(0, 7, Some(8)), 2),
        (0, sum(7, 7, 7), 0),
        (0, sum(8, 7, 7), 2),
        (0, sum(7, 8, 7), 2),
        (0, difference(7, 7, 8), 2),
        (0, Instruction::Branch { source: 7 }, 0),
        (0, Instruction::Branch { source: 8 }, 2),
    ];
    let mut test = Test::new();
    for (thread, instruction, wanted) in entries {
        assert_eq!(rt; number(test.enter(thread, instruction)), wanted);
    }
    assert_eq!(rt; number(test.preset(3, 255)), 0);
    assert_eq!(rt; number(test.preset(4, 0)), 2);
    assert_eq!(rt; test.places().len(), 5);
}

#[test]
fn sizes(rt: HostRuntime) {
    let mut test = Test::new();
    assert_eq!(rt; number(test.strike()), 6);
    for _ in 0..4 {
        assert_eq!(rt; number(test.enter(0, write(1, 9))), 0);
    }
    assert_eq!(rt; number(test.enter(1, write(1, 9))), 4);
    for _ in 4..31 {
        assert_eq!(rt; number(test.enter(2, Instruction::Fence)), 0);
    }
    assert_eq!(rt; test.enter(2, read(0, 0)).ok(), Some(31));
    assert_eq!(rt; number(test.enter(2, Instruction::Fence)), 3);
    assert_eq!(rt; number(test.enter(2, write(1, 9))), 3);
    assert_eq!(rt; number(test.expect(31, 0)), 0);
    assert_eq!(rt; number(test.expect(30, 0)), 5);
    assert_eq!(rt; number(test.expect(32, 0)), 5);
    assert_eq!(rt; number(test.strike()), 0);
    assert_eq!(rt; test.places().len(), 31);
}

#[test]
fn values(rt: HostRuntime) {
    let test = test(&[
        (0, read(0, 0), Some(200)),
        (1, read(0, 0), Some(7)),
        (0, sum(1, 0, 0), None),
        (0, store(1, 1, Some(5)), None),
        (0, difference(2, 3, 0), None),
        (0, store(1, 2, None), None),
        (1, store(2, 0, None), None),
        (1, store(2, 1, None), None),
    ]);
    assert_eq!(rt; test.value(3), Some(144));
    assert_eq!(rt; test.value(5), Some(56));
    assert_eq!(rt; test.value(6), Some(7));
    assert_eq!(rt; test.value(7), Some(0));
    assert_eq!(rt; test.value(0), None);
    assert_eq!(rt; test.value(8), None);
}

#[test]
fn accesses(rt: HostRuntime) {
    let test = test(&[
        (0, read(0, 2), Some(5)),
        (0, read(0, 2), None),
        (0, write(3, 6), None),
        (0, Instruction::Fence, None),
    ]);
    assert_eq!(rt;
        test.access(0),
        Some(Access::Reading {
            location: 2,
            value: 5
        })
    );
    assert_eq!(rt; test.access(1), None);
    assert_eq!(rt;
        test.access(2),
        Some(Access::Writing {
            location: 3,
            value: 6
        })
    );
    assert_eq!(rt; test.access(3), None);
    assert_eq!(rt; (PLACES, LOCATIONS), (32, 4));
}

// The three facts of two places, if they are of one thread, without the kinds, so that the cases stay short.
fn facts(test: &Test, x: usize, y: usize) -> Option<(bool, bool, bool)> {
    let facts = test.facts(x, y)?;
    Some((facts.same_addr, facts.data_dep, facts.control_dep))
}

#[test]
fn dependencies(rt: HostRuntime) {
    let test = test(&[
        (0, read(0, 0), None),
        (0, store(1, 0, None), None),
        (1, read(0, 1), None),
        (0, sum(0, 0, 0), None),
        (0, store(0, 2, Some(0)), None),
        (0, Instruction::Branch { source: 0 }, None),
        (1, write(1, 1), None),
        (0, write(1, 1), None),
        (0, write(2, 1), None),
    ]);
    assert_eq!(rt; facts(&test, 0, 1), Some((false, true, false)));
    assert_eq!(rt; facts(&test, 0, 3), Some((false, true, false)));
    assert_eq!(rt; facts(&test, 0, 4), Some((true, false, false)));
    assert_eq!(rt; facts(&test, 3, 4), Some((false, true, false)));
    assert_eq!(rt; facts(&test, 3, 5), Some((false, true, false)));
    assert_eq!(rt; facts(&test, 5, 7), Some((false, false, true)));
    assert_eq!(rt; facts(&test, 5, 8), Some((false, false, false)));
    assert_eq!(rt; facts(&test, 0, 2), None);
    assert_eq!(rt; facts(&test, 1, 0), None);
    assert_eq!(rt; facts(&test, 0, 9), None);
}

// W a 1, a=1, b=0 | W b 1, b=1, a=0
#[test]
fn orders(rt: HostRuntime) {
    let mut test = test(&[
        (0, write(0, 1), None),
        (0, read(0, 0), Some(1)),
        (0, read(1, 1), Some(0)),
        (1, write(1, 1), None),
        (1, read(0, 1), Some(1)),
        (1, read(1, 0), Some(0)),
    ]);
    let forwarded = [1, 2, 4, 5, 0, 3];
    assert!(rt; test.fulfils(&Named::Tso, &forwarded));
    assert!(rt; !test.fulfils(&Named::Ibm370, &forwarded));
    assert!(rt; !test.fulfils(&Named::Sc, &[0, 1, 2, 3, 4, 5]));
    assert!(rt; !test.fulfils(&Named::Tso, &[1, 2, 4, 5, 0]));
    assert!(rt; !test.fulfils(&Named::Tso, &[1, 2, 4, 5, 0, 3, 3]));
    assert!(rt; !test.fulfils(&Named::Tso, &[1, 2, 4, 5, 0, 6]));
    assert_eq!(rt; number(test.enter(2, read(0, 0))), 0);
    assert!(rt; !test.fulfils(&Named::Tso, &[1, 2, 4, 5, 0, 3, 6]));
}
