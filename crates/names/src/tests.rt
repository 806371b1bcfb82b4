// What is answered of a program's names, and the number and the place that a refusal is told by.
use crate::cells::Scope;
use crate::check_names;
use crate::refusals::Refusal;
use refusal::Refused;
use std::alloc::{AllocError, Global};
use std::process::Abort;
use std::test::Fail;
use syntax::tree::{Expression, Factor, Name, Program, Statement, Term};

const fn name(place: u32, length: u32) -> Name {
    Name { place, length }
}

fn check_all(rt: &impl Abort, source: &[u8], cases: &[(&[Name], Result<(), Refusal>)]) {
    for (declared, expected) in cases {
        let scope = Scope {
            source,
            declared: *declared,
        };
        assert_eq!(rt; scope.check_declared(), *expected);
    }
}

#[test]
fn declarations(rt: HostRuntime) {
    let two = [name(0, 2), name(3, 2)];
    let three = [name(0, 2), name(3, 2), name(12, 1)];
    let repeats = [name(0, 2), name(3, 2), name(6, 2), name(9, 2)];
    let last = [name(3, 2), name(0, 2), name(9, 2)];
    let cases: [(&[Name], Result<(), Refusal>); 4] = [
        (&two, Ok(())),
        (&three, Ok(())),
        (&repeats, Err(Refusal::Repeated(6))),
        (&last, Err(Refusal::Repeated(9))),
    ];
    check_all(&rt, b"ab cd ab cd a", &cases);
}

#[test]
fn told(rt: HostRuntime) {
    for (refusal, number, place) in &[
        (Refusal::TooMany(128), 6, 128),
        (Refusal::Repeated(6), 7, 6),
        (Refusal::Undeclared(2), 8, 2),
    ] {
        let told = Refused {
            number: *number,
            place: *place,
        };
        assert_eq!(rt; Refused::from(*refusal), told);
    }
}

#[test]
fn cells(rt: HostRuntime) {
    let declared = [name(0, 2), name(3, 2)];
    let scope = Scope {
        source: b"ab cd ab cd a",
        declared: &declared,
    };
    for (used, expected) in &[
        (name(6, 2), Some(1)),
        (name(9, 2), Some(2)),
        (name(12, 1), None),
    ] {
        assert_eq!(rt; scope.cell(*used), *expected);
    }
}

// The declaration of `count` names of two bytes each, all different.
fn many(heap: Global, count: u32) -> Result<Result<(), Refusal>, AllocError> {
    let mut source = Vec::new(heap);
    let mut declared = Vec::new(heap);
    for i in 0..count {
        source.push((b'a' as u32 + i / 26 % 26) as u8)?;
        source.push((b'a' as u32 + i % 26) as u8)?;
        declared.push(name(i % 1000 * 2, 2))?;
    }
    let scope = Scope {
        source: &source,
        declared: &declared,
    };
    Ok(scope.check_declared())
}

#[test]
fn sizes(rt: HostRuntime) -> Result<(), Fail> {
    assert_eq!(rt; many(rt.alloc(), 64)?, Ok(()));
    assert_eq!(rt; many(rt.alloc(), 65)?, Err(Refusal::TooMany(128)));
    Ok(())
}

// `x=y;`
fn assignment(heap: Global, declared: &[Name]) -> Result<Result<(), Refusal>, AllocError> {
    let value = Expression::First(Term::One(Factor::Variable(name(2, 1))));
    let statement = Statement::Assign(name(0, 1), value);
    let declared = Vec::from_slice(heap, declared)?;
    let program = Program {
        declared,
        statements: vec![in heap; statement]?,
    };
    Ok(check_names(b"x=y;", &program))
}

#[test]
fn uses(rt: HostRuntime) -> Result<(), Fail> {
    let both = [name(2, 1), name(0, 1)];
    let first = [name(0, 1)];
    let second = [name(2, 1)];
    // a repeat goes before a name that is not declared
    let repeat = [name(0, 1), name(0, 1)];
    let cases: [(&[Name], Result<(), Refusal>); 4] = [
        (&both, Ok(())),
        (&first, Err(Refusal::Undeclared(2))),
        (&second, Err(Refusal::Undeclared(0))),
        (&repeat, Err(Refusal::Repeated(0))),
    ];
    for (declared, expected) in &cases {
        assert_eq!(rt; assignment(rt.alloc(), declared)?, *expected);
    }
    Ok(())
}
