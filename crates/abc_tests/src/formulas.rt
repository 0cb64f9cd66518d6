//! The formulas of the host that is built in.
ghost use Rattle.abc_base.specs.Ranges.{IsNumber};

use abc_base::{BuiltinHost, Host, Plain};

fn twice(a: i64) -> Option<i64>
    requires { IsNumber a }
{
    let args = Plain {
        count: 1,
        a,
        b: 0,
        c: 0,
        d: 0,
    };
    BuiltinHost.call(0, &args)
}

fn plus(a: i64, b: i64) -> Option<i64>
    requires first { IsNumber a }
    requires second { IsNumber b }
{
    let args = Plain {
        count: 2,
        a,
        b,
        c: 0,
        d: 0,
    };
    BuiltinHost.call(1, &args)
}

#[test]
fn formulas_of_the_host(rt: HostRuntime) {
    assert_eq!(rt; BuiltinHost.count(), 2);
    assert_eq!(rt; BuiltinHost.name(0), b"twice".as_slice());
    assert_eq!(rt; BuiltinHost.name(1), b"plus".as_slice());
    assert_eq!(rt; BuiltinHost.params(1), 2);
    assert_eq!(rt; twice(2147483647), Some(4294967294));
    assert_eq!(rt; twice(2147483648), None);
    assert_eq!(rt; plus(-5, 3), Some(-2));
    assert_eq!(rt; plus(-2147483648, -1), None);
}
