//! Claims in their order, and the first that meets one before it.
use asm_syntax::name::Name;
use coverage::claims::Claims;
use link_model::owner::Owner;
use std::alloc::{AllocError, Global};
use std::test::Fail;
use word_ops::range::Range;

/// The ends of the claims as they are added, each with a number; the numbers in order; and the place that meets.
type Row = (&'static [(u64, u64, u32)], &'static [u32], Option<usize>);

static ROWS: [Row; 9] = [
    (&[], &[], None),
    (&[(8, 16, 1), (0, 8, 2)], &[2, 1], None),
    (&[(0, 9, 1), (8, 16, 2)], &[1, 2], Some(1)),
    (&[(8, 16, 1), (8, 16, 2), (8, 12, 3)], &[3, 1, 2], Some(1)),
    (
        &[(8, 8, 1), (0, 16, 2), (16, 16, 3), (0, 0, 4)],
        &[4, 2, 1, 3],
        None,
    ),
    (&[(8, 8, 1), (8, 8, 2), (8, 8, 3)], &[1, 2, 3], None),
    (&[(4, 4, 1), (0, 8, 2), (6, 10, 3)], &[2, 1, 3], Some(2)),
    (
        &[(0, 8, 1), (8, 12, 2), (11, 20, 3), (12, 13, 4)],
        &[1, 2, 3, 4],
        Some(2),
    ),
    (
        &[
            (4_294_967_296, 4_294_967_296, 1),
            (4_294_967_295, 4_294_967_296, 2),
        ],
        &[2, 1],
        None,
    ),
];

fn rows() -> &'static [Row] {
    &ROWS
}

fn owner(alloc: Global, number: u32) -> Result<Owner, Fail> {
    let unit = Name::from_bytes(alloc, b"a.c").ok().ok_or("a name")?;
    let name = Name::from_bytes(alloc, b"f").ok().ok_or("a name")?;
    Ok(Owner::Table(unit, name, number))
}

fn claims(alloc: Global, ends: &[(u64, u64, u32)]) -> Result<Claims, Fail> {
    let mut claims = Claims::new(alloc);
    for (lo, hi, number) in ends {
        let range = Range::new(*lo, *hi).ok_or("a range")?;
        claims.add(range, owner(alloc, *number)?)?;
    }
    Ok(claims)
}

fn number_of(owner: &Owner) -> u32 {
    match owner {
        Owner::Table(_, _, number) => *number,
        _ => 0,
    }
}

fn numbers(alloc: Global, claims: &Claims) -> Result<Vec<u32>, AllocError> {
    let mut list = Vec::new(alloc);
    for j in 0..claims.count() {
        list.push(number_of(&claims.claim(j).owner))?;
    }
    Ok(list)
}

#[test]
fn settles(rt: HostRuntime) -> Result<(), Fail> {
    for (ends, order, place) in rows() {
        let mut claims = claims(rt.alloc(), *ends)?;
        assert_eq!(rt; claims.settle(), *place);
        assert_eq!(rt; numbers(rt.alloc(), &claims)?.as_slice(), *order);
        assert_eq!(rt; claims.settle(), *place, "settled again");
    }
    Ok(())
}
