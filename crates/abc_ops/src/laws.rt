ghost use Rattle.abc_ops.specs.Laws.{IntegersAreModulo, ModuloHasTheSign, OrdersAreOpposed, ShiftsUseFiveBits, StrictEqualsIsEquivalence, UndefinedIsUnordered};

/// `convert_i` of a number is the signed number of 32 bits that differs from it by a multiple of 2^32, and `convert_u` the
/// unsigned one.
pub fn integers_are_modulo()
    ensures { IntegersAreModulo }
{}

/// A shift uses the low five bits of its right operand.
pub fn shifts_use_five_bits()
    ensures { ShiftsUseFiveBits }
{}

/// What `modulo` gives has the sign of the dividend, or is 0.
pub fn modulo_has_the_sign()
    ensures { ModuloHasTheSign }
{}

/// `strictequals` always answers, and what it answers is an equivalence.
pub fn strict_equals_is_equivalence()
    ensures { StrictEqualsIsEquivalence }
{}

/// `lessequals` is the opposite of the exchanged `lessthan`, `greaterequals` that of `lessthan`, and `greaterthan` is the
/// exchanged `lessthan`, where no operand is undefined.
pub fn orders_are_opposed()
    ensures { OrdersAreOpposed }
{}

/// An undefined operand stands in no order.
pub fn undefined_is_unordered()
    ensures { UndefinedIsUnordered }
{}
