ghost use Rattle.std.specs.Prelude.{◌≤◌};
ghost use Rattle.abc_base.specs.Ranges.{IsNumber};

/// The arguments of a call of the host: the first `count` of four numbers, each from -2147483648 to 4294967295.
#[derive(Clone, Copy, Debug, PartialEq, Eq)]
pub struct Plain {
    pub count: u32,
    pub a: i64,
    pub b: i64,
    pub c: i64,
    pub d: i64,
    pub ghost few: { count ≤ 4 },
    pub ghost first: { IsNumber a },
    pub ghost second: { IsNumber b },
    pub ghost third: { IsNumber c },
    pub ghost fourth: { IsNumber d },
}
