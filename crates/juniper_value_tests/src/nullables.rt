//! `Nullable` (section 2.9.5 of the Specification): its cases, what is put for nulls, what is mapped, and its derives.

use juniper_conversions::Nullable;
use juniper_conversions::Nullable::{ExplicitNull, ImplicitNull};
use std::hash::{BuildHasher, BuildHasherDefault, DefaultHasher};
use std::test::Fail;

const SEVEN: Nullable<u8> = Nullable::Some(7);

#[test]
fn cases_are_told_apart(rt: HostRuntime) {
    for (given, implicit, explicit, some, written) in [
        (ImplicitNull, true, false, None, None),
        (ExplicitNull, false, true, None, Some(None)),
        (SEVEN, false, false, Some(7), Some(Some(7))),
    ] {
        assert_eq!(rt; given.is_implicit_null(), implicit, "implicit: {given:?}");
        assert_eq!(rt; given.is_explicit_null(), explicit, "explicit: {given:?}");
        assert_eq!(rt; given.is_some(), some.is_some(), "some: {given:?}");
        assert_eq!(rt; given.is_null(), implicit || explicit, "null: {given:?}");
        assert_eq!(rt; given.some(), some);
        assert_eq!(rt; given.explicit(), written);
    }
    assert_eq!(rt; SEVEN.expect("seven is written"), 7);
    assert_eq!(rt; Nullable::<u8>::default(), ImplicitNull);
}

#[test]
fn values_are_put_for_nulls(rt: HostRuntime) {
    for (given, value, other) in [
        (ImplicitNull, 3, ExplicitNull),
        (ExplicitNull, 3, ExplicitNull),
        (SEVEN, 7, SEVEN),
    ] {
        let mut called = false;
        let computed = given.unwrap_or_else(|| {
            called = true;
            3
        });
        assert_eq!(rt; (given.unwrap_or(3), computed), (value, value));
        assert_eq!(rt; called, given.is_null(), "called: {given:?}");
        assert_eq!(rt; given.or(ExplicitNull), other);
        assert_eq!(rt; given.or_else(|| ExplicitNull), other);
        let result = if value == 7 { Ok(7) } else { Err("null") };
        assert_eq!(rt; given.ok_or("null"), result);
        assert_eq!(rt; given.ok_or_else(|| "null"), result);
    }
}

#[test]
fn values_are_mapped(rt: HostRuntime) {
    for (given, mapped, or_one) in [
        (ImplicitNull, ImplicitNull, 1),
        (ExplicitNull, ExplicitNull, 1),
        (SEVEN, Nullable::Some(700), 700),
    ] {
        let mut called = false;
        let made = given.map(|value| {
            called = true;
            u16::from(value) * 100
        });
        assert_eq!(rt; made, mapped);
        assert_eq!(rt; called, given.is_some(), "called: {given:?}");
        assert_eq!(rt; given.map_or(1, |value| u16::from(value) * 100), or_one);
        assert_eq!(rt;
            given.map_or_else(|| 1, |value| u16::from(value) * 100),
            or_one
        );
    }
}

#[test]
fn references_are_followed(rt: HostRuntime) -> Result<(), Fail> {
    for (given, written) in [
        (ImplicitNull, ImplicitNull),
        (ExplicitNull, ExplicitNull),
        (SEVEN, Nullable::Some(8)),
    ] {
        let mut place = given;
        assert_eq!(rt; place.as_mut().copied(), given);
        assert_eq!(rt; place.as_mut().cloned()?, given);
        if let Nullable::Some(value) = place.as_mut() {
            *value = 8;
        }
        assert_eq!(rt; place, written, "written: {given:?}");
        assert_eq!(rt; place.replace(9), written);
        assert_eq!(rt; place, Nullable::Some(9));
    }
    let text = String::from_str(rt.alloc(), "kept")?;
    assert_eq!(rt; Nullable::Some(&text).cloned()?, Nullable::Some(text));
    let five = 5u8;
    for (lent, copy) in [
        (ImplicitNull, ImplicitNull),
        (ExplicitNull, ExplicitNull),
        (Nullable::Some(&five), Nullable::Some(5)),
    ] {
        assert_eq!(rt; (lent.copied(), lent.cloned()?), (copy, copy));
    }
    Ok(())
}

#[test]
fn derives_go_by_case_and_value(rt: HostRuntime) -> Result<(), Fail> {
    let hashers: BuildHasherDefault<DefaultHasher> = BuildHasherDefault::new();
    let ordered = [
        (ImplicitNull, "ImplicitNull"),
        (ExplicitNull, "ExplicitNull"),
        (Nullable::Some(6), "Some(6)"),
        (SEVEN, "Some(7)"),
    ];
    for (i, (left, shown)) in ordered.into_iter().enumerate() {
        assert_eq!(rt; format!(in rt.alloc(); "{left:?}")?.as_str(), shown);
        for (j, (right, _)) in ordered.into_iter().enumerate() {
            assert_eq!(rt; left == right, i == j);
            assert_eq!(rt; left.cmp(&right), i.cmp(&j));
            assert_eq!(rt; left.partial_cmp(&right), Some(i.cmp(&j)));
            assert_eq!(rt; hashers.hash_one(left) == hashers.hash_one(right), i == j);
        }
        assert_eq!(rt; left.clone()?, left);
    }
    Ok(())
}
