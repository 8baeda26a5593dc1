use crate::{Intrinsic, Kind, Limits, Op, apply, compare, fit, holds, intrinsic, laws, limits_of};

#[test]
fn operators(rt: HostRuntime) {
    for (op, kind, a, b, want) in [
        (Op::Add, Kind::I1, 127, 0, Some(127)),
        (Op::Add, Kind::I1, 127, 1, None),
        (Op::Add, Kind::I4, 2147483647, 1, None),
        (Op::Add, Kind::I8, 2147483647, 1, Some(2147483648)),
        (Op::Add, Kind::I8, i64::MAX, 1, None),
        (Op::Sub, Kind::I2, -32768, 1, None),
        (Op::Sub, Kind::I2, -1, 32767, Some(-32768)),
        (Op::Sub, Kind::I8, i64::MIN, 1, None),
        (Op::Sub, Kind::I8, -1, i64::MAX, Some(i64::MIN)),
        (Op::Mul, Kind::I1, -64, 2, Some(-128)),
        (Op::Mul, Kind::I1, 64, 2, None),
        (Op::Mul, Kind::I8, -4294967296, 2147483648, Some(i64::MIN)),
        (Op::Mul, Kind::I8, 4294967296, 2147483648, None),
        (Op::Div, Kind::I1, -128, -1, None),
        (Op::Div, Kind::I8, i64::MIN, -1, None),
        (Op::Div, Kind::I2, -128, -1, Some(128)),
        (Op::Div, Kind::I4, -8, 3, Some(-2)),
        (Op::Div, Kind::I4, 7, -2, Some(-3)),
        (Op::Div, Kind::I4, 1, 0, None),
    ] {
        assert!(rt; op.is_arithmetic() && kind.is_whole());
        assert_eq!(rt; apply(op, kind, a, b), want, "{a} and {b}");
    }
}

#[test]
fn powers(rt: HostRuntime) {
    for (kind, x, n, want) in [
        (Kind::I1, -2, 7, Some(-128)),
        (Kind::I1, 2, 7, None),
        (Kind::I1, 2, 6, Some(64)),
        (Kind::I4, 2, -1, Some(0)),
        (Kind::I4, -1, -3, Some(-1)),
        (Kind::I4, -1, -4, Some(1)),
        (Kind::I4, 1, i64::MIN, Some(1)),
        (Kind::I4, 0, 0, Some(1)),
        (Kind::I4, 0, -1, None),
        (Kind::I4, 0, 5, Some(0)),
        (Kind::I8, 3, 39, Some(4052555153018976267)),
        (Kind::I8, 3, 40, None),
        (Kind::I8, -2, 63, Some(i64::MIN)),
        (Kind::I8, -2, 64, None),
        (Kind::I8, 10, 18, Some(1000000000000000000)),
        (Kind::I8, -1, i64::MAX, Some(-1)),
        (Kind::I8, 2, i64::MAX, None),
        (Kind::I8, i64::MIN, 1, Some(i64::MIN)),
        (Kind::I8, i64::MIN, -1, Some(0)),
    ] {
        assert!(rt; kind.is_whole());
        assert_eq!(rt; apply(Op::Pow, kind, x, n), want, "{x} to the power {n}");
    }
}

#[test]
fn intrinsics(rt: HostRuntime) {
    for (which, kind, a, b, want) in [
        (Intrinsic::Mod, Kind::I4, -7, 3, Some(-1)),
        (Intrinsic::Mod, Kind::I4, 7, -3, Some(1)),
        (Intrinsic::Mod, Kind::I8, i64::MIN, -1, Some(0)),
        (Intrinsic::Mod, Kind::I4, 7, 0, None),
        (Intrinsic::Modulo, Kind::I4, -7, 3, Some(2)),
        (Intrinsic::Modulo, Kind::I4, 7, -3, Some(-2)),
        (Intrinsic::Modulo, Kind::I4, -7, -3, Some(-1)),
        (Intrinsic::Modulo, Kind::I4, -6, 3, Some(0)),
        (Intrinsic::Modulo, Kind::I8, i64::MIN, -1, Some(0)),
        (Intrinsic::Modulo, Kind::I8, -1, i64::MIN, Some(-1)),
        (Intrinsic::Modulo, Kind::I4, 7, 0, None),
        (Intrinsic::Sign, Kind::I1, -128, 1, None),
        (Intrinsic::Sign, Kind::I1, -128, -1, Some(-128)),
        (Intrinsic::Sign, Kind::I4, -5, 0, Some(5)),
        (Intrinsic::Sign, Kind::I4, 5, -1, Some(-5)),
        (Intrinsic::Sign, Kind::I8, i64::MIN, 0, None),
        (Intrinsic::Max, Kind::I4, -3, 2, Some(2)),
        (Intrinsic::Min, Kind::I4, -3, 2, Some(-3)),
    ] {
        let args = [a, b];
        assert!(rt; which.takes(args.len()) && kind.is_whole());
        assert_eq!(rt; intrinsic(which, kind, &args), want, "{a} and {b}");
    }
    assert_eq!(rt; intrinsic(Intrinsic::Abs, Kind::I1, &[-128]), None);
    assert_eq!(rt; intrinsic(Intrinsic::Abs, Kind::I2, &[-128]), Some(128));
    assert_eq!(rt; intrinsic(Intrinsic::Abs, Kind::I8, &[i64::MIN]), None);
    assert_eq!(rt; intrinsic(Intrinsic::Max, Kind::I4, &[1, -4, 3]), Some(3));
    assert_eq!(rt; intrinsic(Intrinsic::Min, Kind::I4, &[1, -4, 3]), Some(-4));
    assert!(rt; !Intrinsic::Max.takes(1) && !Intrinsic::Int.takes(1));
}

#[test]
fn relations(rt: HostRuntime) {
    for (op, below, same, above) in [
        (Op::Eq, false, true, false),
        (Op::Ne, true, false, true),
        (Op::Lt, true, false, false),
        (Op::Le, true, true, false),
        (Op::Gt, false, false, true),
        (Op::Ge, false, true, true),
    ] {
        assert!(rt; op.is_relation());
        assert_eq!(rt; compare(op, -2, 1), below);
        assert_eq!(rt; compare(op, i64::MIN, i64::MIN), same);
        assert_eq!(rt; compare(op, i64::MAX, i64::MIN), above);
    }
    assert!(rt; !Op::Add.is_relation() && !Op::Eq.is_arithmetic() && !Op::And.is_relation());
}

#[test]
fn limits(rt: HostRuntime) {
    for (kind, least, greatest) in [
        (Kind::I1, -128, 127),
        (Kind::I2, -32768, 32767),
        (Kind::I4, -2147483648, 2147483647),
    ] {
        assert!(rt; kind.is_whole());
        assert_eq!(rt; limits_of(kind), Limits { least, greatest });
        assert_eq!(rt; fit(kind, least), Some(least));
        assert_eq!(rt; fit(kind, least - 1), None);
        assert_eq!(rt; fit(kind, greatest), Some(greatest));
        assert_eq!(rt; fit(kind, greatest + 1), None);
    }
    assert!(rt; holds(Kind::I8, i64::MIN) && holds(Kind::I8, i64::MAX));
    assert!(rt; !holds(Kind::Logical, 0) && !Kind::Logical.is_whole());
}

#[test]
fn every_law(_rt: HostRuntime) {
    laws::kinds();
    laws::values();
    laws::division();
    laws::powers();
    laws::relations();
    laws::extremes();
    laws::rows();
}
